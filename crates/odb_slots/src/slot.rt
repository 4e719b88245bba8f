//! One slot.
ghost use Rattle.std.specs.Prelude.{◌≡◌, ◌≢◌, ◌+◌, ◌<◌, ◌≤◌, length, slice_index, Err, IfOk, IfSome};
ghost use Rattle.odb_device.specs.World.{file_of};
ghost use Rattle.odb_device.specs.Images.{part};
ghost use Rattle.odb_device.specs.Calls.{FileCountRose};
ghost use Rattle.odb_device.specs.Told.{IfTold, OnlyReads};
ghost use Rattle.odb_slots.specs.Slots.{OPEN, slot_place};
ghost use Rattle.odb_slots.specs.Bodies.{item_in, are_zeros};
ghost use Rattle.odb_slots.specs.Answers.{IsAnswer, IsSlotOf, IsItemOf};

use crate::gates::OPEN;
use crate::head::{HEAD, Head};
use crate::{SlotError, SlotItem};
use odb_device::Store;
use odb_values::Frozen;
use std::alloc::{AllocError, Global};

/// How many bytes a slot has, with its gate.
pub(crate) const SLOT: usize = 1024;

fn are_zeros(bytes: &[u8]) -> bool
    ensures { result ≡ are_zeros bytes.now }
{
    bytes.iter().all(|&byte| byte == 0)
}

/// What the body of this slot says; None where it isn't in the slot grammar. Memory is taken for
/// the two images. The error is want of it.
fn item_of(alloc: Global, slot: u32, body: &[u8]) -> Result<Option<SlotItem>, AllocError>
    requires { length body.now ≡ 1023 }
    ensures item { IfOk result (λ found. found ≡ item_in slot body.now) }
    ensures sound { IfOk result (λ found. IfSome found (IsItemOf slot)) }
{
    let head = Head::from_body(body);
    if !head.is_in_grammar() {
        return Ok(None);
    }
    let row = HEAD + usize::from(head.key);
    let end = row + usize::from(head.row);
    if !are_zeros(&body[end..]) {
        return Ok(None);
    }
    Ok(Some(SlotItem {
        slot,
        kind: head.kind,
        table: head.table,
        stamp: head.stamp,
        key: Frozen::from_vec(body[HEAD..row].to_vec(alloc)?),
        row: Frozen::from_vec(body[row..end].to_vec(alloc)?),
    }))
}

/// What counts of a slot with these bytes; None where its gate is closed.
pub(crate) fn open_item(
    alloc: Global,
    slot: u32,
    bytes: &[u8],
) -> Result<Option<SlotItem>, SlotError>
    requires { length bytes.now ≡ 1024 }
    ensures answer { IsAnswer slot (slice_index bytes.now 0)
        (item_in slot (part 1 1023 bytes.now)) result }
    ensures sound { IfOk result (λ found. IfSome found (IsItemOf slot)) }
    ensures no_fault { result ≢ Err SlotError.Fault }
{
    if bytes[0] != OPEN {
        return Ok(None);
    }
    match item_of(alloc, slot, &bytes[1..])? {
        Some(item) => Ok(Some(item)),
        None => Err(SlotError::Malformed { slot }),
    }
}

/// The record of a slot of a file, counted from 0; None where its gate is closed.
///
/// One read of 1,024 bytes, and memory for the two images. A slot of which the store gives fewer
/// bytes, as a file that is told never does, counts as closed.
///
/// Malformed: the slot is open, and its body isn't in the slot grammar. Fault: the read failed.
/// NoMemory: there is none for the record.
pub fn read_slot<S: Store>(
    alloc: Global,
    store: &mut S,
    file: u32,
    slot: u32,
) -> Result<Option<SlotItem>, SlotError>
    requires below { slot < 4194304 }
    requires long { IfTold file (S.world store.old)
        (λ bytes. slot_place (slot + 1) ≤ length bytes) }
    ensures run { OnlyReads file (S.world store.old) (S.world store.new) }
    ensures answer { IfTold file (S.world store.old) (IsSlotOf slot result) }
    ensures sound { IfOk result (λ found. IfSome found (IsItemOf slot)) }
    ensures cause { result ≡ Err SlotError.Fault
        → FileCountRose file (S.world store.old) (S.world store.new) }
{
    let mut bytes = [0; SLOT];
    let n = store.read_at(file, 1024 + 1024 * u64::from(slot), &mut bytes)?;
    if n < SLOT {
        return Ok(None);
    }
    open_item(alloc, slot, &bytes)
}
