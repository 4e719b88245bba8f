//! What a transaction's writes leave.
ghost use Rattle.std.specs.Prelude.{◌≡◌, ◌++◌, map, nat_lt, is_some, IfOk, OnOk};
ghost use Rattle.std.specs.Ordering.{eq_by_cmp};
ghost use Rattle.std.specs.FinMap.{get, insert};
ghost use Rattle.odb_model.specs.State.{State, table_key_cmp, table_key_of, after_writes, replay};
ghost use Rattle.odb_model.specs.Meaning.{different, most_writes};
ghost use Rattle.odb_model.specs.Transaction.{table_keys, last_from, last_writes, net};
ghost use Rattle.odb_plain.specs.Net.{by_table_key};

use odb_model::{Entry, TableKey, Write, Writes};
use odb_values::{Duplicate, Frozen, List};
use std::alloc::{AllocError, Global};
use std::collections::BTreeMap;

/// The most keys that a transaction may write.
const MOST_WRITES: usize = 4096;

/// The writes that a transaction's write set leaves on a history: the last one of each key, by
/// table and then in key order, without the keys that have no row before and after.
///
/// It takes memory for the last writes, and goes over the whole history once for each key whose
/// last write deletes. The error is want of memory.
pub fn net_writes(
    alloc: Global,
    history: &[Entry],
    write_set: &[Write],
) -> Result<Writes, AllocError>
    ensures { IfOk result (λ writes. writes ≡ net (replay history.now) write_set.now) }
{
    let mut net = List::new(alloc);
    for (at, write) in last_writes(alloc, write_set)? {
        if write.row.is_some() || has_row(history, &at) {
            net.reserve()?;
            net.push(write);
        }
    }
    Ok(Frozen::new(net))
}

/// Whether a transaction with these writes would have written too many different keys with some
/// writes more.
///
/// Up to 4,096 writes in all it can't have, and takes no memory. Behind them it takes memory for the
/// last write of each key. The error is want of memory.
pub(crate) fn are_too_many(
    alloc: Global,
    write_set: &[Write],
    writes: &[Write],
) -> Result<bool, AllocError>
    ensures { IfOk result (λ many. many ≡ nat_lt most_writes
        (different (table_keys write_set.now ++ map table_key_of writes.now))) }
{
    if writes.len() <= MOST_WRITES && write_set.len() <= MOST_WRITES - writes.len() {
        return Ok(false);
    }
    let mut last = last_writes(alloc, write_set)?;
    put_all_last(alloc, &mut last, writes)?;
    Ok(last.len() > MOST_WRITES)
}

/// The last write to each table key.
fn last_writes(alloc: Global, write_set: &[Write]) -> Result<BTreeMap<TableKey, Write>, AllocError>
    ensures { IfOk result (λ last. by_table_key last.entries ≡ last_writes write_set.now) }
{
    let mut last = BTreeMap::new(alloc);
    put_all_last(alloc, &mut last, write_set)?;
    Ok(last)
}

/// Puts copies of writes at their table keys, the first of them first.
fn put_all_last(
    alloc: Global,
    last: &mut BTreeMap<TableKey, Write>,
    writes: &[Write],
) -> Result<(), AllocError>
    ensures { OnOk result (by_table_key last.new.entries
        ≡ last_from (by_table_key last.old.entries) writes.now) }
{
    for write in writes {
        put_last(alloc, last, write)?;
    }
    Ok(())
}

/// Puts a copy of a write at its table key, instead of the one that is there.
fn put_last(
    alloc: Global,
    last: &mut BTreeMap<TableKey, Write>,
    write: &Write,
) -> Result<(), AllocError>
    ensures { OnOk result (by_table_key last.new.entries
        ≡ insert (by_table_key last.old.entries) (table_key_of write.now) write.now) }
{
    let at = TableKey::of(alloc, write)?;
    let _replaced = last.insert(at, write.copy(alloc)?)?;
    Ok(())
}

/// Whether a history leaves a row at a table key.
fn has_row(history: &[Entry], at: &TableKey) -> bool
    ensures { result ≡ is_some (get (replay history.now) at.now) }
{
    let mut there = false;
    for entry in history {
        there = is_there_after(there, entry.writes.as_slice(), at);
    }
    there
}

/// Whether there is a row at a table key after writes, from whether there was one before.
fn is_there_after(before: bool, writes: &[Write], at: &TableKey) -> bool
    ensures { (s : State) → is_some (get s at.now) ≡ before
        → is_some (get (after_writes s writes.now) at.now) ≡ result }
{
    let mut there = before;
    for write in writes {
        if is_at(write, at) {
            there = write.row.is_some();
        }
    }
    there
}

/// Whether a write is to this table key.
fn is_at(write: &Write, at: &TableKey) -> bool
    ensures { result ≡ eq_by_cmp table_key_cmp at.now (table_key_of write.now) }
{
    at.table == write.table && at.key == write.key
}
