//! The laws of what is known of slots, each the contract of a function with nothing to do.
ghost use Rattle.std.specs.Prelude.{◌≡◌, ◌+◌, ◌*◌, ℕ, ◌<◌, ◌≤◌, List, length, slice_index};
ghost use Rattle.odb_device.specs.TornSets.{TornIn};
ghost use Rattle.odb_slots.specs.Slots.{OPEN, slot_place};
ghost use Rattle.odb_slots.specs.Views.{Spelling, view_by};
ghost use Rattle.odb_slots.specs.Between.{IsLong, NeedsItsBody, Between};
ghost use Rattle.odb_slots.specs.Sets.{GatesOf, BodiesOf, IsOneOf, HaveGates, HasSlot, HasItems};
ghost use Rattle.odb_slots.specs.declared.item.SlotItem.{SlotItem};
ghost use Rattle.odb_bank.specs.History.{History, Key};
ghost use Rattle.odb_bank.specs.Records.{Record, View, IsWithin, bank_map};
ghost use Rattle.odb_bank.specs.Stands.{Stands, IsTruthful};
ghost use Rattle.odb_bank.specs.Changes.{IsStale};
ghost use Rattle.odb_bank.specs.Files.{StandsIn};
ghost use Rattle.odb_bank.specs.Known.{Known, free, held, either, perhaps, sure_of, perhaps_of, IsFileOf, Become, AreFilled};
ghost use Rattle.odb_bank.specs.Turns.{AllStand, DoubtsStale, IsStaleSlot, IsQuiet, IsQuietBeside, HoldsRun};

/// What is known of each slot stays known in each image, and says which records may be open.
pub fn keeps_known()
    ensures records { (spell : Spelling Record) → NeedsItsBody spell
        → (limit : ℕ) (known : ℕ → Known) (bytes : List ℕ) → IsFileOf spell limit known bytes
        → Between (sure_of known) (perhaps_of known) (view_by spell limit bytes) }
    // gates that are written, until they are on the disk
    ensures gates { (spell : Spelling Record) → NeedsItsBody spell
        → (slots : List ℕ) (limit end : ℕ) (known later : ℕ → Known) (old new : List ℕ)
        → Become (IsOneOf slots) either known later → IsFileOf spell limit known old
        → TornIn (GatesOf (IsOneOf slots)) end old new → IsFileOf spell limit later new }
    // and then
    ensures opened { (spell : Spelling Record) → NeedsItsBody spell
        → (slots : List ℕ) (limit : ℕ) (known later : ℕ → Known) (bytes : List ℕ)
        → Become (IsOneOf slots) held known later → HaveGates OPEN slots (length slots) bytes
        → IsFileOf spell limit known bytes → IsFileOf spell limit later bytes }
    ensures closed { (spell : Spelling Record) → NeedsItsBody spell
        → (slots : List ℕ) (limit : ℕ) (known later : ℕ → Known) (bytes : List ℕ)
        → Become (IsOneOf slots) (λ r. free) known later → HaveGates 0 slots (length slots) bytes
        → IsFileOf spell limit known bytes → IsFileOf spell limit later bytes }
    // bodies that are written into free slots, until they are on the disk
    ensures bodies { (spell : Spelling Record) → NeedsItsBody spell
        → (items : List SlotItem) (limit end : ℕ) (known : ℕ → Known) (old new : List ℕ)
        → ((n : ℕ) → HasSlot items n → known n ≡ free) → IsFileOf spell limit known old
        → TornIn (BodiesOf (HasSlot items)) end old new → IsFileOf spell limit known new }
    // and then
    ensures filled { (spell : Spelling Record) → NeedsItsBody spell
        → (items : List SlotItem) (limit : ℕ) (known later : ℕ → Known) (bytes : List ℕ)
        → AreFilled spell items known later → HasItems items bytes
        → ((n : ℕ) → HasSlot items n → n < limit)
        → IsFileOf spell limit known bytes → IsFileOf spell limit later bytes }
    // a limit behind which there are zeros
    ensures grows { (spell : Spelling Record) → NeedsItsBody spell
        → (limit larger : ℕ) (known : ℕ → Known) (bytes : List ℕ)
        → limit ≤ larger → IsLong larger bytes
        → ((i : ℕ) → slot_place limit ≤ i → i < slot_place larger → slice_index bytes i ≡ 0)
        → IsFileOf spell limit known bytes → IsFileOf spell larger known bytes }
{}

/// Through a turn a file stands for the history, whatever a crash leaves of what is known.
pub fn stands_by_what_is_known()
    ensures image { (spell : Spelling Record) → NeedsItsBody spell
        → (h : History) (a limit : ℕ) (known : ℕ → Known) (bytes : List ℕ)
        → AllStand h a known → IsFileOf spell limit known bytes
        → StandsIn spell h a limit bytes }
    // stale slots are closed, or may be
    ensures closing { (h : History) (mark limit : ℕ) (known : ℕ → Known)
        → IsWithin limit (perhaps_of known) → DoubtsStale mark known
        → Stands h mark (perhaps_of known) → AllStand h mark known }
    // slots are filled
    ensures filling { (h : History) (a : ℕ) (known later : ℕ → Known)
        → ((n : ℕ) → sure_of later n ≡ sure_of known n)
        → ((n : ℕ) → perhaps_of later n ≡ perhaps_of known n)
        → AllStand h a known → AllStand h a later }
    // their gates are opened, or may be, also where an earlier opening broke off
    ensures opening { (h : History) (a reached mark : ℕ) (slots : List ℕ)
        (known later : ℕ → Known)
        → IsQuietBeside (IsOneOf slots) known → HoldsRun h a reached (IsOneOf slots) known
        → Become (IsOneOf slots) either known later
        → mark ≤ reached → Stands h mark (sure_of known) → AllStand h mark later }
    // and all are open
    ensures opened { (h : History) (a reached : ℕ) (slots : List ℕ) (known later : ℕ → Known)
        → IsQuietBeside (IsOneOf slots) known → HoldsRun h a reached (IsOneOf slots) known
        → Become (IsOneOf slots) held known later
        → a ≤ reached → IsQuiet later → Stands h a (sure_of known)
        → AllStand h a later × AllStand h reached later }
{}

/// What closing stale slots leaves, of which any may be open still.
pub fn closes_stale()
    // a slot is stale by what is open on the disk where it is by all that may be open
    ensures durable { (h : History) (mark limit : ℕ) (known : ℕ → Known)
        → IsWithin limit (perhaps_of known) → DoubtsStale mark known
        → IsTruthful h (perhaps_of known)
        → (n : ℕ) (r : Record) → perhaps (known n) ≡ Some r
        → IsStale mark (perhaps_of known) n r → IsStaleSlot mark known n }
    // until the closed gates are on the disk, just stale slots are in doubt
    ensures doubts { (mark : ℕ) (slots : List ℕ) (known later : ℕ → Known)
        → DoubtsStale mark known → ((n : ℕ) → IsOneOf slots n → IsStaleSlot mark known n)
        → Become (IsOneOf slots) either known later → DoubtsStale mark later }
    // whichever of them are open, a truthful file has the same rows
    ensures rows { (h : History) (mark limit : ℕ) (known : ℕ → Known)
        → IsWithin limit (perhaps_of known) → DoubtsStale mark known
        → IsTruthful h (perhaps_of known)
        → (view : View) → Between (sure_of known) (perhaps_of known) view
        → (key : Key) → bank_map limit view key ≡ bank_map limit (sure_of known) key }
{}
