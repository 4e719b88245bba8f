//! The records of a run in the slots that they get.
ghost use Rattle.std.specs.Prelude.{◌≡◌, ◌<◌, ◌^◌, ℕ, length, map, slice_get, Some, IfSome, IfOk, OnOk};
ghost use Rattle.std.specs.List.{All};
ghost use Rattle.odb_codec.specs.Image.{RowHasImage};
ghost use Rattle.odb_bank.specs.Spelled.{item_for, row_image, FitsSlot};
ghost use Rattle.odb_bank.specs.Additions.{record_of, IsNarrow};
ghost use Rattle.odb_bank.specs.Filling.{kept_for, AreItemsFor, AreKeptFor};

use crate::latest::Addition;
use crate::tree::Placed;
use crate::{Gate, Kept};
use odb_codec::{encode_key, encode_row};
use odb_model::TableKey;
use odb_slots::SlotItem;
use odb_values::{Bytes, Duplicate, Frozen, Row};
use std::alloc::{AllocError, Global};

/// The items of these records, each in the slot at its place. The error is want of memory.
pub(crate) fn items_of(
    alloc: Global,
    free: &[u32],
    additions: &[Addition],
) -> Result<Vec<SlotItem>, AllocError>
    requires as_many { length free.now ≡ length additions.now }
    requires narrow { All IsNarrow additions.now }
    ensures { IfOk result (λ items. AreItemsFor free.now (map record_of additions.now) items.items
        (length additions.now)) }
{
    let mut items = Vec::with_capacity(alloc, additions.len())?;
    for i in 0..additions.len() {
        items.push(item_of(alloc, free[i], &additions[i])?)?;
    }
    Ok(items)
}

/// The item by which a slot has a record. The error is want of memory.
fn item_of(alloc: Global, slot: u32, addition: &Addition) -> Result<SlotItem, AllocError>
    requires { IsNarrow addition.now }
    ensures item { IfOk result (λ item. item ≡ item_for slot (record_of addition.now)) }
    ensures fits { OnOk result (FitsSlot (record_of addition.now)) }
{
    let Ok(key) = encode_key(alloc, &addition.key.key) else {
        return Err(AllocError);
    };
    let row = row_of(alloc, addition)?;
    // Asked for what its contract says.
    fit_their_types(addition.key.table, addition.stamp);
    Ok(SlotItem {
        slot,
        kind: if addition.row.is_some() { 1 } else { 2 },
        table: addition.key.table,
        stamp: addition.stamp,
        key,
        row,
    })
}

/// The number of a table has 32 bits, and that of an entry 64.
fn fit_their_types(table: u32, stamp: u64)
    ensures table { table < 2 ^ 32 }
    ensures stamp { stamp < 2 ^ 64 }
{}

/// The image of a record's row; of a deletion mark no byte. The error is want of memory.
fn row_of(alloc: Global, addition: &Addition) -> Result<Bytes, AllocError>
    requires { IsNarrow addition.now }
    ensures image { IfOk result (λ bytes. bytes ≡ row_image addition.now.row) }
    ensures lawful { OnOk result (IfSome addition.now.row RowHasImage) }
{
    match &addition.row {
        None => Ok(Frozen::empty(alloc)),
        Some(row) => match encode_row(alloc, row) {
            Ok(bytes) => Ok(bytes),
            Err(_) => Err(AllocError),
        },
    }
}

/// What memory keeps of these records behind closed gates, with the memory that it takes. The error
/// is want of memory.
pub(crate) fn kept_of(
    alloc: Global,
    free: &[u32],
    additions: &[Addition],
) -> Result<Vec<Placed>, AllocError>
    requires { length free.now ≡ length additions.now }
    ensures { IfOk result (λ kept. AreKeptFor free.now (map record_of additions.now) kept.items
        (length additions.now)) }
{
    let mut kept = Vec::with_capacity(alloc, additions.len())?;
    for i in 0..additions.len() {
        let it = keeping(alloc, free[i], &additions[i])?;
        kept.push(Placed::new(alloc, it)?)?;
    }
    Ok(kept)
}

fn keeping(alloc: Global, slot: u32, addition: &Addition) -> Result<Kept, AllocError>
    ensures { IfOk result (λ kept. kept ≡ kept_for slot (record_of addition.now)) }
{
    Ok(Kept {
        slot,
        at: TableKey {
            table: addition.key.table,
            key: addition.key.key.copy(alloc)?,
        },
        stamp: addition.stamp,
        has_row: addition.row.is_some(),
        gate: Gate::Shut,
    })
}
