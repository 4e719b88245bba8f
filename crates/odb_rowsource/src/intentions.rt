//! What a transaction intends.
ghost use Rattle.std.specs.Prelude.{◌≡◌, Bool, true, false, List, [], ◌+◌, ◌-◌, ◌<◌, ◌≤◌, length, slice_get, vec_len, vec_capacity, Option, Some, IfOk, OnSome, OnOk, OnErr};
ghost use Rattle.std.specs.Ordering.{eq_by_cmp};
ghost use Rattle.std.specs.Option.{option_copied};
ghost use Rattle.std.specs.List.Sorted.{IsPartitionPoint};
ghost use Rattle.odb_values.specs.declared.value.Value.{Value as Cell};
ghost use Rattle.odb_model.specs.declared.table_key.TableKey.{TableKey};
ghost use Rattle.odb_model.specs.State.{table_key_cmp, table_key_of, is_in};
ghost use Rattle.odb_model.specs.Meaning.{most_writes};
ghost use Rattle.odb_model.specs.Intentions.{intended_write, leaves_write, intended};
ghost use Rattle.odb_rowsource.specs.Intentions.{AreAscending, AreIntentions, intention_at, next_intention, intention_of_write, put, put_all, is_before, comes_before, is_passed, where_passes, told_at};

use crate::standing::{cmp_table_keys, is_from};
use odb_model::{Intention, TableKey, Write, Writes};
use odb_values::{Duplicate, Frozen, Key, Range};
use std::alloc::{AllocError, Global};
use std::cmp::Ordering;
use std::marker::Model;

/// What a transaction intends: one intention for each row that it has written, by table and then
/// in key order, and places that are reserved for more. There are at most 4,096. Contracts see the
/// list and the count of places.
///
/// `reserve` is the step that may want memory, and `put` into a reserved place can't fail.
#[derive(Debug, Drop)]
pub struct Intentions {
    items: Vec<Intention>,
    spare: usize,
}

impl Model for Intentions {
    ghost use Rattle.std.specs.Prelude.{◌+◌, ◌≤◌, vec_len, vec_capacity};
    ghost use Rattle.odb_values.specs.Listed.{Listed, listed_code};
    ghost use Rattle.odb_model.specs.declared.intention.Intention.{Intention};
    ghost use Rattle.odb_model.specs.contracts.intention.Intention as intention;

    ghost Value = { Listed Intention };

    ghost coded = { listed_code intention.the_row.coded };

    ghost use Rattle.odb_rowsource.specs.Intentions.{AreIntentions};

    ghost view = { λ a. record { items = a.items.items; spare = a.spare } };

    ghost invariant = { λ a. AreIntentions a.items.items
        × (vec_len a.items + a.spare ≤ vec_capacity a.items) };
}

impl Intentions {
    /// No intention, and no place reserved. It takes no memory, and keeps the allocator.
    pub fn new(alloc: Global) -> Intentions
        ensures { result ≡ record { items = []; spare = 0 } }
    {
        Intentions {
            items: Vec::new(alloc),
            spare: 0,
        }
    }

    /// How many rows are written.
    pub fn len(&self) -> usize
        ensures { result ≡ length self.now.items }
    {
        self.items.len()
    }

    /// The intentions in their order.
    pub fn as_slice(&self) -> &[Intention]
        ensures value { result.now ≡ self.now.items }
        ensures always { AreIntentions self.now.items }
    {
        self.items.as_slice()
    }

    /// What is intended for a table and a key, or None where that row isn't written. It takes no
    /// memory, and looks at about log2 of as many intentions as there are.
    pub fn get(&self, table: u32, key: &Key) -> Option<&Intention>
        ensures found { let at : TableKey = record { table = table; key = key.now } in
            option_copied result ≡ intention_at at self.now.items }
        ensures ascending { AreAscending self.now.items }
    {
        found_among(self.as_slice(), table, key)
    }

    /// The intention with the least key of a range that is above `after`, or the least of the whole
    /// range where that is None; also one that deletes. It costs what `get` costs.
    pub fn next(&self, range: &Range, after: Option<&Key>) -> Option<&Intention>
        ensures found { option_copied result
            ≡ next_intention range.now (option_copied after.entry) self.now.items }
        ensures ascending { AreAscending self.now.items }
    {
        next_among(self.as_slice(), range, after)
    }

    /// Reserves so many places in all, which is how many times `put` may then be called. The error
    /// is want of memory.
    pub fn reserve(&mut self, places: usize) -> Result<(), AllocError>
        ensures ok { OnOk result
            (self.new ≡ record { items = self.old.items; spare = places }) }
        ensures err { OnErr result (self.new ≡ self.old) }
    {
        self.items.reserve(places)?;
        self.spare = places;
        Ok(())
    }

    /// Puts a write into a reserved place, with whether a row was there before the transaction
    /// wrote it; where it has written the row before, that stays as the first write told.
    ///
    /// The condition `few` is that of the statement that writes, which is refused before it would
    /// write more than 4,096 rows. A new row moves the intentions behind it by one place.
    pub fn put(&mut self, write: Write, was_there: bool)
        requires place { 0 < self.old.spare }
        requires few { length (put self.old.items write was_there) ≤ most_writes }
        ensures { self.new ≡ record {
          items = put self.old.items write was_there;
          spare = self.old.spare - 1;
        } }
    {
        self.spare -= 1;
        put_among(&mut self.items, write, was_there);
    }

    /// Puts the writes of a statement into reserved places, the first of them first, with whether
    /// rows were there before it, as of an INSERT none were and of an UPDATE or a DELETE all were.
    ///
    /// The condition `few` is that of the statement, as for `put`. Writes in ascending order that
    /// come behind all intentions move none, and take no search.
    pub fn put_all(&mut self, writes: Writes, was_there: bool)
        requires places { length writes ≤ self.old.spare }
        requires few { length (put_all self.old.items writes (λ _. was_there)) ≤ most_writes }
        ensures { self.new ≡ record {
          items = put_all self.old.items writes (λ _. was_there);
          spare = self.old.spare - length writes;
        } }
    {
        for write in writes.into_vec() {
            self.put(write, was_there);
        }
    }

    /// Copies of the writes that the intentions leave, in their order: none of a row that wasn't
    /// there before and isn't to be there. The error is want of memory.
    pub fn net_writes(&self, alloc: Global) -> Result<Writes, AllocError>
        ensures { IfOk result (λ writes. writes ≡ intended self.now.items) }
    {
        let mut writes = Vec::with_capacity(alloc, self.len())?;
        for intention in self.as_slice() {
            if leaves_write(intention) {
                writes.push(intended_write(alloc, intention)?)?;
            }
        }
        Ok(Frozen::from_vec(writes))
    }
}

/// Whether an intention leaves its write.
fn leaves_write(intention: &Intention) -> bool
    ensures { result ≡ leaves_write intention.now }
{
    intention.was_there || intention.row.is_some()
}

/// A copy of the write that an intention is. The error is want of memory.
fn intended_write(alloc: Global, intention: &Intention) -> Result<Write, AllocError>
    ensures { IfOk result (λ write. write ≡ intended_write intention.now) }
{
    let row = match &intention.row {
        None => None,
        Some(row) => Some(row.copy(alloc)?),
    };
    Ok(Write {
        bank: intention.bank,
        table: intention.table_key.table,
        key: intention.table_key.key.copy(alloc)?,
        row,
    })
}

/// The intention of a write.
fn intention_of_write(write: Write, was_there: bool) -> Intention
    ensures { result ≡ intention_of_write write was_there }
{
    let Write {
        bank,
        table,
        key,
        row,
    } = write;
    Intention {
        table_key: TableKey { table, key },
        bank,
        row,
        was_there,
    }
}

/// What is intended for a table and a key.
fn found_among<'a>(items: &'a [Intention], table: u32, key: &Key) -> Option<&'a Intention>
    requires { AreAscending items.now }
    ensures { let at : TableKey = record { table = table; key = key.now } in
        option_copied result ≡ intention_at at items.now }
{
    let place = place_among(items, table, key);
    where_for(item(items, place), table, key)
}

/// The intention with the least key of a range that is above `after`.
fn next_among<'a>(
    items: &'a [Intention],
    range: &Range,
    after: Option<&Key>,
) -> Option<&'a Intention>
    requires { AreAscending items.now }
    ensures { option_copied result
        ≡ next_intention range.now (option_copied after.entry) items.now }
{
    let place = first_from(items, range, after);
    where_inside(item(items, place), range)
}

/// Puts a write among intentions, into the capacity that is there.
fn put_among(items: &mut Vec<Intention>, write: Write, was_there: bool)
    requires room { vec_len items.old < vec_capacity items.old }
    requires ascending { AreAscending items.old.items }
    ensures items { items.new.items ≡ put items.old.items write was_there }
    ensures ascending { AreAscending items.new.items }
    ensures len { vec_len items.new ≤ vec_len items.old + 1 }
    ensures capacity { vec_capacity items.old ≤ vec_capacity items.new }
{
    let slice = items.as_slice();
    let place = place_to_put(slice, write.table, &write.key);
    match told_at(slice, place, &write) {
        Some(told) => {
            items[place] = intention_of_write(write, told);
        }
        None => {
            items
                .insert(place, intention_of_write(write, was_there))
                .unwrap();
        }
    }
}

/// The intention at a place, where there is one.
fn item(items: &[Intention], place: usize) -> Option<&Intention>
    ensures value { option_copied result ≡ slice_get items.now place }
    ensures within { OnSome result (place < length items.now) }
{
    items.get(place)
}

/// What the intention at a place tells of its row, where it is for the row of a write.
fn told_at(items: &[Intention], place: usize, write: &Write) -> Option<bool>
    ensures told { result ≡ told_at (table_key_of write.now) (slice_get items.now place) }
    ensures within { OnSome result (place < length items.now) }
{
    match item(items, place) {
        None => None,
        Some(i) => told_of(i, write),
    }
}

/// What an intention tells of its row, where it is for the row of a write.
fn told_of(i: &Intention, write: &Write) -> Option<bool>
    ensures { result ≡ told_at (table_key_of write.now) (Some i.now) }
{
    if cmp_table_keys(write.table, &write.key, i.table_key.table, &i.table_key.key)
        == Ordering::Equal
    {
        Some(i.was_there)
    } else {
        None
    }
}

/// At which place a table key is or would be: behind all where the last one is before it, so that
/// writes in ascending order take no search, else by a binary search.
fn place_to_put(items: &[Intention], table: u32, key: &Key) -> usize
    requires { AreAscending items.now }
    ensures within { result ≤ length items.now }
    ensures splits { let at : TableKey = record { table = table; key = key.now } in
        IsPartitionPoint (λ i. is_before at i ≡ true) (λ i. is_before at i ≡ false)
        items.now result }
{
    let count = items.len();
    if comes_before(item(items, count.saturating_sub(1)), table, key) {
        return count;
    }
    place_among(items, table, key)
}

/// Whether there is an intention and it comes before a table key.
fn comes_before(found: Option<&Intention>, table: u32, key: &Key) -> bool
    ensures { let at : TableKey = record { table = table; key = key.now } in
        result ≡ comes_before at (option_copied found.entry) }
{
    match found {
        None => false,
        Some(i) => {
            cmp_table_keys(i.table_key.table, &i.table_key.key, table, key) == Ordering::Less
        }
    }
}

/// At which place a table key is or would be, by a binary search.
fn place_among(items: &[Intention], table: u32, key: &Key) -> usize
    requires { AreAscending items.now }
    ensures within { result ≤ length items.now }
    ensures splits { let at : TableKey = record { table = table; key = key.now } in
        IsPartitionPoint (λ i. is_before at i ≡ true) (λ i. is_before at i ≡ false)
        items.now result }
{
    items.partition_point(|i| {
        cmp_table_keys(i.table_key.table, &i.table_key.key, table, key) == Ordering::Less
    })
}

/// The place of the first intention that isn't before a range, nor at or before `after`, by a
/// binary search.
fn first_from(items: &[Intention], range: &Range, after: Option<&Key>) -> usize
    requires { AreAscending items.now }
    ensures { let last : Option (List Cell) = option_copied after.entry in
        IsPartitionPoint (λ i. is_passed range.now last i ≡ true)
        (λ i. is_passed range.now last i ≡ false) items.now result }
{
    items.partition_point(|i| !is_from(range, after, i.table_key.table, &i.table_key.key))
}

/// An intention, where it is for this table and key.
fn where_for<'a>(found: Option<&'a Intention>, table: u32, key: &Key) -> Option<&'a Intention>
    ensures { let at : TableKey = record { table = table; key = key.now } in option_copied result
        ≡ where_passes (λ i. eq_by_cmp table_key_cmp at i.table_key) (option_copied found.entry) }
{
    match found {
        None => None,
        Some(i) => {
            if cmp_table_keys(table, key, i.table_key.table, &i.table_key.key) == Ordering::Equal {
                Some(i)
            } else {
                None
            }
        }
    }
}

/// An intention, where it is inside a range.
fn where_inside<'a>(found: Option<&'a Intention>, range: &Range) -> Option<&'a Intention>
    ensures { option_copied result
        ≡ where_passes (λ i. is_in range.now i.table_key) (option_copied found.entry) }
{
    match found {
        None => None,
        Some(i) => {
            if range.contains(i.table_key.table, &i.table_key.key) {
                Some(i)
            } else {
                None
            }
        }
    }
}
