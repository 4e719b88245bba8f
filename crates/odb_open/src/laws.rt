//! The laws of what bytes read as, each the contract of a function with nothing to do.
ghost use Rattle.std.specs.Prelude.{◌≡◌, ℕ, ◌*◌, ◌^◌, ◌<◌, ◌≤◌, List, take};
ghost use Rattle.std.specs.FinMap.{get};
ghost use Rattle.odb_model.specs.declared.table_key.TableKey.{TableKey};
ghost use Rattle.odb_model.specs.declared.entry.Entry.{Entry};
ghost use Rattle.odb_machine.specs.Copies.{Choice};
ghost use Rattle.odb_machine.specs.MachineState.{Machine, history_or_more};
ghost use Rattle.odb_machine.specs.Readings.{Damaged, Holds, FileReading, Asked, TransdbReading, last_number};
ghost use Rattle.odb_slots.specs.Views.{view_by};
ghost use Rattle.odb_bank.specs.Files.{StandsAt};
ghost use Rattle.odb_bank.specs.History.{History};
ghost use Rattle.odb_bank.specs.Records.{View, bank_map};
ghost use Rattle.odb_bank.specs.Spelled.{record_of_slot};
ghost use Rattle.odb_bank.specs.Opening.{IsInOrder, IsDamagedAt};
ghost use Rattle.odb_sound.specs.Sound.{IsSoundHistory, IsSound};
ghost use Rattle.odb_open.specs.Files.{reading_of_view, transdb_in, file_in};
ghost use Rattle.odb_open.specs.Images.{Image};
ghost use Rattle.odb_open.specs.Admissible.{IsAdmissible};
ghost use Rattle.odb_open.specs.Opened.{OpensTo};
ghost use Rattle.odb_open.specs.Kept.{Keeps};
ghost use Rattle.odb_open.specs.Leaves.{prefix_of};

/// What the bytes of a databank file read as, in a database of format 1, is what they are in order
/// for, or where they are damaged: so what an opening of the file answers is what it reads as.
pub fn reads_as_opened()
    ensures order { (asked : Asked) (limit mark : ℕ) (bytes : List ℕ) → asked.format ≡ 1
        → asked.bank < 2 ^ 32 → asked.number < 2 ^ 64
        → IsInOrder asked.bank asked.number limit mark bytes
        → file_in asked bytes ≡ Holds
        (reading_of_view mark (1024 * limit) (view_by record_of_slot (1024 * limit) bytes)) }
    ensures damage { (asked : Asked) (at : ℕ) (bytes : List ℕ) → asked.format ≡ 1
        → asked.bank < 2 ^ 32 → asked.number < 2 ^ 64
        → IsDamagedAt asked.bank asked.number at bytes → file_in asked bytes ≡ Damaged at }
    // of each key the row that its open records make
    ensures rows { (mark slots : ℕ) (view : View) (key : TableKey)
        → get (reading_of_view mark slots view).rows key ≡ bank_map slots view key }
    // a file that stands for a history is in order, with its mark
    ensures standing { (asked : Asked) (h : History) (mark : ℕ) (bytes : List ℕ)
        → asked.format ≡ 1 → asked.bank < 2 ^ 32 → asked.number < 2 ^ 64
        → h.count ≤ asked.number → StandsAt asked.bank h mark bytes
        → (what : FileReading) × (file_in asked bytes ≡ Holds what) × (what.mark ≡ mark) }
{}

/// Where files are admissible by some choices for a history that statements can have made, they open by
/// these to the number of TRANSDB's last entry and to the state that the history's entries up to it
/// make. So by whatever such choices, master, shadow or backup with the log, a database opens to the
/// same.
pub fn opens_to_prefix()
    ensures prefix { (choices : List Choice) (image : Image) (h : List Entry) (t : TransdbReading)
        → transdb_in (image 0) ≡ Holds t → t.format ≡ 1 → last_number t < 2 ^ 64
        → IsSoundHistory (take (last_number t) h) → IsAdmissible choices image h
        → OpensTo image choices (prefix_of (last_number t) h) }
    // so of files that a sound machine keeps
    ensures kept { (m : Machine) (choices : List Choice) (image : Image) (t : TransdbReading)
        → IsSound m → m.format ≡ 1 → Keeps m image → transdb_in (image 0) ≡ Holds t
        → IsAdmissible choices image (history_or_more m)
        → OpensTo image choices (prefix_of (last_number t) (history_or_more m)) }
{}
