//! All slots of a file.
ghost use Rattle.std.specs.Prelude.{◌≡◌, ◌≢◌, ◌+◌, ◌*◌, ◌/◌, ◌<◌, ◌≤◌, ℕ, List as ListOf, length, Err, OnOk, IfOk};
ghost use Rattle.odb_device.specs.World.{file_of};
ghost use Rattle.odb_device.specs.Images.{part};
ghost use Rattle.odb_device.specs.Calls.{FileCountRose};
ghost use Rattle.odb_device.specs.Told.{IfTold, OnlyReads};
ghost use Rattle.odb_slots.specs.Slots.{slot_place};
ghost use Rattle.odb_slots.specs.Answers.{AreRecords, AreItems, IsScanOf, IsPieceOf};

use crate::slot::{SLOT, open_item};
use crate::{SlotError, SlotItem, SlotItems};
use odb_device::Store;
use odb_values::{Frozen, List};
use std::alloc::Global;

/// How many bytes are read by one call: 64 slots.
const PIECE: usize = 65_536;

/// Adds the record of a slot with these bytes, where its gate is open.
fn take_slot(
    alloc: Global,
    slot: u32,
    bytes: &[u8],
    items: &mut List<SlotItem>,
) -> Result<(), SlotError>
    requires size { length bytes.now ≡ 1024 }
    requires sound { AreItems slot items.old.items }
    ensures sound { OnOk result (AreItems (slot + 1) items.new.items) }
    ensures answer { (file : ListOf ℕ) → part (slot_place slot) 1024 file ≡ bytes.now
        → AreRecords slot file items.old.items
        → IsPieceOf (slot + 1) file items.new.items result }
    ensures no_fault { result ≢ Err SlotError.Fault }
{
    match open_item(alloc, slot, bytes)? {
        None => Ok(()),
        Some(item) => {
            items.reserve()?;
            items.push(item);
            Ok(())
        }
    }
}

/// Adds the records of slots that stand in these bytes, one behind another from slot `first` on.
/// What is less than a whole slot at the end is left out.
fn take_slots(
    alloc: Global,
    first: u32,
    bytes: &[u8],
    items: &mut List<SlotItem>,
) -> Result<(), SlotError>
    requires first { first ≤ 4194304 }
    requires size { length bytes.now ≤ 65536 }
    requires sound { AreItems first items.old.items }
    ensures sound { OnOk result (AreItems (first + length bytes.now / 1024) items.new.items) }
    ensures answer { (file : ListOf ℕ) → part (slot_place first) (length bytes.now) file ≡ bytes.now
        → AreRecords first file items.old.items
        → IsPieceOf (first + length bytes.now / 1024) file items.new.items result }
    ensures no_fault { result ≢ Err SlotError.Fault }
{
    for k in 0..bytes.len() / SLOT {
        let at = k * SLOT;
        take_slot(alloc, first + k as u32, &bytes[at..at + SLOT], items)?;
    }
    Ok(())
}

/// Reads the piece of this number, counted from 0, into the buffer, and adds its records.
fn read_piece<S: Store>(
    alloc: Global,
    store: &mut S,
    file: u32,
    number: u32,
    buffer: &mut [u8],
    items: &mut List<SlotItem>,
) -> Result<(), SlotError>
    requires number { number < 65536 }
    requires size { length buffer.old ≡ 65536 }
    requires sound { AreItems (64 * number) items.old.items }
    ensures run { OnlyReads file (S.world store.old) (S.world store.new) }
    ensures sound { OnOk result (AreItems (64 * (number + 1)) items.new.items) }
    ensures answer { IfTold file (S.world store.old) (λ bytes.
        slot_place (64 * (number + 1)) ≤ length bytes
        → AreRecords (64 * number) bytes items.old.items
        → IsPieceOf (64 * (number + 1)) bytes items.new.items result) }
    ensures cause { result ≡ Err SlotError.Fault
        → FileCountRose file (S.world store.old) (S.world store.new) }
{
    let n = store.read_at(file, 1024 + 65_536 * u64::from(number), buffer)?;
    take_slots(alloc, 64 * number, &buffer[..n], items)
}

/// The records of a file whose limit is so many extents of 1,024 slots: the items of its open
/// slots, in order.
///
/// The file is read once, in pieces of 65,536 bytes. Memory is taken for the records that are
/// found, and for no other slot. A slot of which the store gives fewer bytes, as a file that is
/// told never does, counts as closed.
///
/// Malformed: this is the least open slot whose body isn't in the slot grammar. Fault: a read
/// failed. NoMemory: there is none for a record.
pub fn scan<S: Store>(
    alloc: Global,
    store: &mut S,
    file: u32,
    limit: u32,
) -> Result<SlotItems, SlotError>
    requires limit { limit ≤ 4096 }
    requires long { IfTold file (S.world store.old)
        (λ bytes. slot_place (1024 * limit) ≤ length bytes) }
    ensures run { OnlyReads file (S.world store.old) (S.world store.new) }
    ensures answer { IfTold file (S.world store.old) (IsScanOf (1024 * limit) result) }
    ensures sound { IfOk result (AreItems (1024 * limit)) }
    ensures cause { result ≡ Err SlotError.Fault
        → FileCountRose file (S.world store.old) (S.world store.new) }
{
    let mut items = List::new(alloc);
    let mut buffer = [0; PIECE];
    for number in 0..16 * limit {
        read_piece(alloc, store, file, number, &mut buffer, &mut items)?;
    }
    Ok(Frozen::new(items))
}
