//! The last writes of the entries that a turn takes up.
ghost use Rattle.std.specs.Prelude.{◌≡◌, ◌↔◌, ◌+◌, ◌<◌, ◌≤◌, true, false, length, map, IfOk, IsTrue};
ghost use Rattle.std.specs.List.{All};
ghost use Rattle.std.specs.List.Sorted.{IsStrictlySortedBy, IsPartitionPoint};
ghost use Rattle.std.specs.Option.{option_copied};
ghost use Rattle.odb_codec.specs.Image.{IsStorable};
ghost use Rattle.odb_model.specs.State.{table_key_cmp, table_key_of};
ghost use Rattle.odb_model.specs.Transaction.{table_keys};
ghost use Rattle.odb_bank.specs.Additions.{record_of, IsAddition, last_key, IsNarrow};
ghost use Rattle.odb_bank.specs.Latest.{AreLatest};
ghost use Rattle.odb_bank.specs.LeastAbove.{is_passed, ArePassed, IsAbove, IsFirstAbove, IsLeast};

use odb_model::{Entry, TableKey, Write};
use odb_values::{Duplicate, Key, Row, cmp_key};
use std::alloc::{AllocError, Global};
use std::cmp::Ordering;

/// A record that a turn adds.
#[derive(Debug, Drop)]
pub(crate) struct Addition {
    pub(crate) key: TableKey,
    /// None of a deletion mark.
    pub(crate) row: Option<Row>,
    /// The number of the entry that wrote it.
    pub(crate) stamp: u64,
}

/// Of each key of the databank that the entries write the last write, in the order of the keys.
///
/// A search in each entry for each key. Memory is taken for the keys and rows; the error is want of
/// it.
pub(crate) fn latest(
    alloc: Global,
    entries: &[Entry],
    bank: u32,
) -> Result<Vec<Addition>, AllocError>
    requires { All IsStorable entries.now }
    ensures all { IfOk result
        (λ found. AreLatest bank entries.now (map record_of found.items)) }
    ensures narrow { IfOk result (λ found. All IsNarrow found.items) }
{
    let mut found: Vec<Addition> = Vec::new(alloc);
    'keys: for _ in 0..u64::MAX {
        match least_above(entries, bank, last_key(found.as_slice())) {
            None => return Ok(found),
            Some((place, write)) => found.push(copy_of(alloc, &entries[place], write)?)?,
        }
    }
    Err(AllocError)
}

/// The key of the last one.
fn last_key(found: &[Addition]) -> Option<&TableKey>
    ensures { option_copied result ≡ last_key found.now }
{
    match found.last() {
        None => None,
        Some(addition) => Some(&addition.key),
    }
}

/// A copy of the write at a place of an entry. The error is want of memory.
fn copy_of(alloc: Global, entry: &Entry, place: usize) -> Result<Addition, AllocError>
    requires { place < length entry.now.writes }
    ensures { IfOk result (λ found. IsAddition entry.now place found) }
{
    let write = &entry.writes.as_slice()[place];
    let row = match &write.row {
        None => None,
        Some(row) => Some(row.copy(alloc)?),
    };
    Ok(Addition {
        key: TableKey::of(alloc, write)?,
        row,
        stamp: entry.number,
    })
}

/// The write of the least key behind another one, where that is given: the place of its entry, and
/// its place there. Of writes of one key it is that of the last entry.
fn least_above(entries: &[Entry], bank: u32, above: Option<&TableKey>) -> Option<(usize, usize)>
    requires { All IsStorable entries.now }
    ensures { IsLeast bank (option_copied above.entry) entries.now (length entries.now) result }
{
    let mut least: Option<(usize, usize)> = None;
    for i in 0..entries.len() {
        least = lesser(entries, least, i, bank, above);
    }
    least
}

/// The lesser one of a write so far and the first one of this entry that is behind.
fn lesser(
    entries: &[Entry],
    least: Option<(usize, usize)>,
    i: usize,
    bank: u32,
    above: Option<&TableKey>,
) -> Option<(usize, usize)>
    requires storable { All IsStorable entries.now }
    requires inside { i < length entries.now }
    requires least { IsLeast bank (option_copied above) entries.now i least }
    ensures { IsLeast bank (option_copied above.entry) entries.now (i + 1) result }
{
    let Some(place) = first_above(entries[i].writes.as_slice(), bank, above) else {
        return least;
    };
    let Some((entry, write)) = least else {
        return Some((i, place));
    };
    let this = &entries[i].writes.as_slice()[place];
    let before = &entries[entry].writes.as_slice()[write];
    match cmp_writes(this, before) {
        Ordering::Greater => least,
        Ordering::Equal => Some((i, place)),
        Ordering::Less => Some((i, place)),
    }
}

/// The first of some writes that is in the databank and has a key behind another one, where that is
/// given: a binary search, and a pass over the writes of other databanks that follow.
fn first_above(writes: &[Write], bank: u32, above: Option<&TableKey>) -> Option<usize>
    requires { IsStrictlySortedBy table_key_cmp (table_keys writes.now) }
    ensures { IsFirstAbove bank (option_copied above.entry) writes.now
        (length writes.now) result }
{
    for i in place_above(writes, above)..writes.len() {
        if is_above(&writes[i], bank, above) {
            return Some(i);
        }
    }
    None
}

/// The place of the first write that has a key behind another one, where that is given.
fn place_above(writes: &[Write], above: Option<&TableKey>) -> usize
    requires { IsStrictlySortedBy table_key_cmp (table_keys writes.now) }
    ensures within { result ≤ length writes.now }
    ensures passed { ArePassed (option_copied above.entry) writes.now result }
{
    match above {
        None => 0,
        Some(before) => place_behind(writes, before),
    }
}

/// The place of the first write that has a key behind this one, by a binary search.
fn place_behind(writes: &[Write], before: &TableKey) -> usize
    requires { IsStrictlySortedBy table_key_cmp (table_keys writes.now) }
    ensures within { result ≤ length writes.now }
    ensures splits { IsPartitionPoint (λ w. is_passed before.now w ≡ true)
        (λ w. is_passed before.now w ≡ false) writes.now result }
{
    writes.partition_point(|write| is_passed(write, before))
}

/// Whether a write has a key that isn't behind this one.
fn is_passed(write: &Write, before: &TableKey) -> bool
    ensures { result ≡ is_passed before.now write.now }
{
    cmp_keys(before.table, &before.key, write.table, &write.key) != Ordering::Less
}

/// Whether a write is in the databank and has a key behind another one, where that is given.
fn is_above(write: &Write, bank: u32, above: Option<&TableKey>) -> bool
    ensures { IsTrue result ↔ IsAbove bank (option_copied above.entry) write.now }
{
    if write.bank != bank {
        return false;
    }
    match above {
        None => true,
        Some(before) => {
            cmp_keys(before.table, &before.key, write.table, &write.key) == Ordering::Less
        }
    }
}

/// The order of two writes' keys.
fn cmp_writes(a: &Write, b: &Write) -> Ordering
    ensures { result ≡ table_key_cmp (table_key_of a.now) (table_key_of b.now) }
{
    cmp_keys(a.table, &a.key, b.table, &b.key)
}

/// The order of two keys of tables.
fn cmp_keys(a_table: u32, a_key: &Key, b_table: u32, b_key: &Key) -> Ordering
    ensures { result ≡ table_key_cmp (record { table = a_table; key = a_key.now })
        (record { table = b_table; key = b_key.now }) }
{
    match a_table.cmp(&b_table) {
        Ordering::Equal => cmp_key(a_key, b_key),
        Ordering::Less => Ordering::Less,
        Ordering::Greater => Ordering::Greater,
    }
}
