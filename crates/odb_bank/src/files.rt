//! The laws of a databank file's bytes, each the contract of a function with nothing to do.
ghost use Rattle.std.specs.Prelude.{◌≡◌, ◌*◌, ℕ, ◌<◌, List, Some};
ghost use Rattle.odb_device.specs.Frames.{AsksOf};
ghost use Rattle.odb_extent.specs.Opened.{content_end};
ghost use Rattle.odb_extent.specs.Standing.{IsContent};
ghost use Rattle.odb_slots.specs.Bodies.{IsInGrammar, slot_image};
ghost use Rattle.odb_slots.specs.Views.{Spelling};
ghost use Rattle.odb_slots.specs.Between.{NeedsItsBody};
ghost use Rattle.odb_slots.specs.Sets.{GatesOf, BodiesOf, IsOneOf, HasSlot};
ghost use Rattle.odb_slots.specs.declared.item.SlotItem.{SlotItem};
ghost use Rattle.odb_bank.specs.Records.{Record};
ghost use Rattle.odb_bank.specs.Known.{Known, IsFileOf};
ghost use Rattle.odb_bank.specs.Spelled.{record_of_slot, item_for, FitsSlot};

/// A slot that has a record spells it.
pub fn spells_records()
    ensures grammar { (slot : ℕ) (r : Record) → FitsSlot r → IsInGrammar (item_for slot r) }
    ensures again { (slot : ℕ) (r : Record) (bodies : ℕ → List ℕ) → FitsSlot r
        → record_of_slot slot (slot_image (item_for slot r)) bodies ≡ Some r }
    ensures own { NeedsItsBody record_of_slot }
{}

/// The slots of a file lie in its content: `1024 * limit` of them in so many extents.
pub fn lies_in_content()
    // what is known of the slots asks of the content alone
    ensures known { (spell : Spelling Record) → NeedsItsBody spell
        → (limit : ℕ) (known : ℕ → Known)
        → AsksOf (IsContent limit) (content_end limit) (IsFileOf spell (1024 * limit) known) }
    // and what is written of them stays inside it
    ensures gates { (limit : ℕ) (slots : List ℕ)
        → ((n : ℕ) → IsOneOf slots n → n < 1024 * limit)
        → (i : ℕ) → GatesOf (IsOneOf slots) i → IsContent limit i }
    ensures bodies { (limit : ℕ) (items : List SlotItem)
        → ((n : ℕ) → HasSlot items n → n < 1024 * limit)
        → (i : ℕ) → BodiesOf (HasSlot items) i → IsContent limit i }
{}
