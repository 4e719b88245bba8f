//! The laws of records and histories, each the contract of a function with nothing to do.
ghost use Rattle.std.specs.Prelude.{◌≡◌, ℕ, ◌+◌, ◌-◌, ◌≤◌, ◌<◌, List, [], ◌∷◌, ◌++◌, length, take, drop, Option, Some, None};
ghost use Rattle.std.specs.FinMap.{get};
ghost use Rattle.odb_model.specs.declared.entry.Entry.{Entry};
ghost use Rattle.odb_model.specs.State.{State, replay, replay_from};
ghost use Rattle.odb_device.specs.World.{File};
ghost use Rattle.odb_device.specs.Images.{IsImage, EachImage};
ghost use Rattle.odb_slots.specs.Between.{Between};
ghost use Rattle.odb_bank.specs.History.{Key, Row, History, IsLast, GoesOn, history_of};
ghost use Rattle.odb_bank.specs.Records.{View, Record, IsWithin, record_of, bank_map, IsRecord};
ghost use Rattle.odb_bank.specs.Stands.{Stands, IsCompleteTo, HasGreatest};
ghost use Rattle.odb_bank.specs.Changes.{AddsRun, ClosesStale};
ghost use Rattle.odb_bank.specs.Replayed.{state, changed_by};
ghost use Rattle.odb_bank.specs.Run.{run_record, IsRunRecord};
ghost use Rattle.odb_bank.specs.Owned.{AreInOrder, HasItsTable};
ghost use Rattle.odb_bank.specs.Files.{StandsAt};
ghost use Rattle.odb_bank.specs.Bank.{BankState, IsStandingFor, StandsFor, StandsByMark};
ghost use Rattle.odb_bank.specs.Opening.{IsInOrder};
ghost use Rattle.odb_bank.specs.Reading.{rows_in};

/// What a turn does keeps a file standing for the history, in each image.
pub fn keeps_standing()
    // the same open records, whatever stands behind closed gates
    ensures bodies { (h : History) (a : ℕ) (old new : View)
        → ((n : ℕ) → new n ≡ old n) → Stands h a old → Stands h a new }
    // any of the gates of a run
    ensures gates { (h : History) (a reached mark : ℕ) (less more view : View)
        → AddsRun h a reached less more → mark ≤ reached → Between less more view
        → Stands h mark less → Stands h mark view }
    // all of them
    ensures reached { (h : History) (a reached : ℕ) (less more : View)
        → AddsRun h a reached less more → a ≤ reached → Stands h a less → Stands h reached more }
    // any of the stale slots closed
    ensures stale { (h : History) (mark limit : ℕ) (less more view : View)
        → IsWithin limit more → ClosesStale mark more less → Between less more view
        → Stands h mark more → Stands h mark view }
    // entries behind those of the history
    ensures longer { (h longer : History) (a : ℕ) (view : View)
        → GoesOn h longer → a ≤ h.count → Stands h a view → Stands longer a view }
{}

/// A file that stands has of each key what the history says.
pub fn reads_history()
    // the record of a key is the one of greatest stamp, of least slot among equal stamps
    ensures record { (limit : ℕ) (view : View) (key : Key)
        → IsRecord limit view key (record_of limit view key) }
    // complete, in the words of the greatest stamp
    ensures greatest { (h : History) (a limit : ℕ) (view : View)
        → IsWithin limit view → Stands h a view
        → (key : Key) (j : ℕ) → IsLast h a key j → HasGreatest h a view key j }
    ensures back { (h : History) (a : ℕ) (view : View)
        → ((key : Key) (j : ℕ) → IsLast h a key j → HasGreatest h a view key j)
        → IsCompleteTo h a view }
    // where no entry above the mark writes the key, the map has what the last entry wrote
    ensures row { (h : History) (a limit : ℕ) (view : View)
        → IsWithin limit view → Stands h a view
        → (key : Key) (j : ℕ) (row : Option Row) → a ≤ h.count → IsLast h h.count key j → j ≤ a
        → h.write j key ≡ Some row → bank_map limit view key ≡ row }
    ensures never { (h : History) (a limit : ℕ) (view : View)
        → IsWithin limit view → Stands h a view
        → (key : Key) → ((k : ℕ) → 1 ≤ k → k ≤ h.count → h.write k key ≡ None)
        → bank_map limit view key ≡ None }
    // changed by the entries above its mark, it has the state of the whole history
    ensures opens { (h : History) (a limit : ℕ) (view : View) (key : Key)
        → IsWithin limit view → a ≤ h.count → Stands h a view
        → changed_by h a (h.count - a) key (bank_map limit view key) ≡ state h h.count key }
{}

/// The last write of each key among the entries above a number is the record that a turn adds.
pub fn gathers_run()
    ensures record { (h : History) (a more : ℕ) (key : Key)
        → IsRunRecord h a (a + more) key (run_record h a more key) }
    ensures all { (h : History) (a more : ℕ) (key : Key) (j : ℕ)
        → IsLast h (a + more) key j → a < j
        → (r : Record) × (run_record h a more key ≡ Some r) × (r.key ≡ key) × (r.stamp ≡ j) }
{}

/// The history of a list of entries, as a bank sees it, says of a key of the bank what replaying
/// the entries gives.
pub fn replays_history()
    // where each entry's writes ascend, and all writes to the key's table are in the bank
    ensures state { (bank : ℕ) (h : List Entry) (key : Key) → AreInOrder h
        → HasItsTable bank key.table h
        → state (history_of bank h) (length h) key ≡ get (replay h) key }
    // and from any state on
    ensures changed { (bank : ℕ) (h : List Entry) (key : Key) (a more : ℕ) (s : State)
        → AreInOrder h → HasItsTable bank key.table h → a + more ≤ length h
        → changed_by (history_of bank h) a more key (get s key)
        ≡ get (replay_from s (take more (drop a h))) key }
    ensures above { (bank : ℕ) (h : List Entry) (key : Key) (a : ℕ) (s : State)
        → AreInOrder h → HasItsTable bank key.table h → a ≤ length h
        → changed_by (history_of bank h) a (length h - a) key (get s key)
        ≡ get (replay_from s (drop a h)) key }
    ensures longer { (bank : ℕ) (h : List Entry) (e : Entry)
        → GoesOn (history_of bank h) (history_of bank (h ++ e ∷ [])) }
{}

/// What a file is that stands for a history, also where no call is made on it.
pub fn keeps_banks()
    // each image of a bank's file stands by the mark that it holds
    ensures images { (h : History) (b : BankState) (file : Option File) → StandsFor h b file
        → EachImage (StandsByMark h b) file }
    // for a history that goes on, too
    ensures longer { (h longer : History) (b : BankState) (file : Option File)
        → GoesOn h longer → StandsFor h b file → StandsFor longer b file }
    ensures longer_at { (h longer : History) (bank mark : ℕ) (bytes : List ℕ)
        → GoesOn h longer → StandsAt bank h mark bytes → StandsAt bank longer mark bytes }
    // it is in order
    ensures in_order { (h : History) (bank mark number : ℕ) (bytes : List ℕ)
        → h.count ≤ number → StandsAt bank h mark bytes
        → (limit : ℕ) × IsInOrder bank number limit mark bytes }
    // the bank's rows, changed by the entries above its mark, are the state of the whole history
    ensures rows { (h : History) (b : BankState) (f : File) (image : List ℕ) (key : Key)
        → (standing : IsStandingFor h b f) → IsImage f image
        → changed_by h b.mark (h.count - b.mark) key (rows_in b standing.known key)
        ≡ state h h.count key }
{}
