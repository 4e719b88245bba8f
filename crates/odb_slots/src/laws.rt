//! The laws of slots, each the contract of a function with nothing to do.
ghost use Rattle.std.specs.Prelude.{◌≡◌, ◌≢◌, ◌<◌, ℕ, Some, Option, List as ListOf, length, slice_get};
ghost use Rattle.odb_device.specs.TornSets.{TornIn};
ghost use Rattle.odb_slots.specs.Slots.{OPEN, gate_at};
ghost use Rattle.odb_slots.specs.Bodies.{IsInGrammar, IsTyped, slot_image, item_in};
ghost use Rattle.odb_slots.specs.Views.{item_of, view_of, records_in};
ghost use Rattle.odb_slots.specs.Sets.{GatesOf, BodiesOf, IsOneOf};
ghost use Rattle.odb_slots.specs.Between.{IsLong, DiffersIn, IsBetween};
ghost use Rattle.odb_slots.specs.declared.item.SlotItem.{SlotItem as Item};

/// The reading of an item's body gives back the item.
pub fn reads_images()
    ensures size { (item : Item) → IsInGrammar item → length (slot_image item) ≡ 1023 }
    ensures again { (item : Item) → IsInGrammar item → IsTyped item
        → item_in item.slot (slot_image item) ≡ Some item }
{}

/// What torn writes leave of the records of a file.
pub fn leaves_records()
    // of bodies in closed slots: the same records
    ensures bodies { (slots : ListOf ℕ) (limit end : ℕ) (old new : ListOf ℕ)
        → IsLong limit old → TornIn (BodiesOf (IsOneOf slots)) end old new
        → ((n : ℕ) → IsOneOf slots n → gate_at n old ≢ OPEN)
        → (n : ℕ) → view_of limit new n ≡ view_of limit old n }
    // of gates: any of them are open
    ensures gates { (slots : ListOf ℕ) (limit end : ℕ) (less more : ℕ → Option Item)
        (old new : ListOf ℕ)
        → DiffersIn (IsOneOf slots) less more
        → IsBetween item_of (IsOneOf slots) limit less more old
        → TornIn (GatesOf (IsOneOf slots)) end old new
        → IsBetween item_of (IsOneOf slots) limit less more new }
{}

/// The list of a file's records has just the items that its slots have.
pub fn lists_records()
    ensures each { (n k : ℕ) (bytes : ListOf ℕ) (item : Item)
        → slice_get (records_in n bytes) k ≡ Some item
        → (item.slot < n) × (view_of n bytes item.slot ≡ Some item) }
    ensures all { (n slot : ℕ) (bytes : ListOf ℕ) (item : Item)
        → slot < n → view_of n bytes slot ≡ Some item
        → (k : ℕ) × (slice_get (records_in n bytes) k ≡ Some item) }
{}
