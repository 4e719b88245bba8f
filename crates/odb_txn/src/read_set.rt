//! What a transaction has read.
ghost use Rattle.std.specs.Prelude.{◌≡◌, [], ◌+◌, ◌-◌, ◌<◌, ◌≤◌, min, true, false, length, slice_get, slice_set, Option, OnSome, OnOk, OnErr};
ghost use Rattle.std.specs.Option.{option_copied};
ghost use Rattle.std.specs.List.Sorted.{IsPartitionPoint};
ghost use Rattle.odb_model.specs.declared.outcome.Read.{Read};
ghost use Rattle.odb_model.specs.Transaction.{read_at};
ghost use Rattle.smallvec.specs.SmallVec.{small_vec_len, HasRoomFor};
ghost use Rattle.odb_model.specs.Window.{least_with, oldest_number};
ghost use Rattle.odb_txn.specs.ReadSet.{AreOrdered, keep, keep_all, is_before, number_at};

use crate::range_order::cmp_range;
use odb_model::{Ranges, Read};
use odb_values::Range;
use smallvec::SmallVec;
use std::alloc::{AllocError, Global};
use std::cmp::Ordering;
use std::marker::Model;

/// The ranges that a transaction has read, each once, with the least number of entries that the
/// history had when it was read; and places that are reserved for more. They stand in an order of
/// ranges that tells nothing of their keys. Contracts see the list and the count of places.
///
/// A range that is read again takes no place of its own: the earlier read covers the later one,
/// since each entry that is later than the later read is later than the earlier one too. The first
/// 8 ranges take no memory but that of their values.
#[derive(Debug, Drop)]
pub struct ReadSet {
    items: SmallVec<Read, 8>,
    spare: usize,
    oldest: Option<u64>,
}

impl Model for ReadSet {
    ghost use Rattle.std.specs.Prelude.{◌≡◌, ◌+◌, ◌≤◌};
    ghost use Rattle.odb_values.specs.Listed.{Listed, listed_code};
    ghost use Rattle.odb_model.specs.declared.outcome.Read.{Read};
    ghost use Rattle.odb_model.specs.contracts.outcome.Read as read;

    ghost Value = { Listed Read };

    ghost coded = { listed_code read.the_row.coded };

    ghost use Rattle.smallvec.specs.SmallVec.{small_vec_len};
    ghost use Rattle.odb_model.specs.Window.{oldest_number};
    ghost use Rattle.odb_txn.specs.ReadSet.{AreOrdered};

    ghost view = { λ a. record { items = a.items.items; spare = a.spare } };

    ghost invariant = { λ a. AreOrdered a.items.items × (a.oldest ≡ oldest_number a.items.items)
        × (small_vec_len a.items + a.spare ≤ a.items.capacity) };
}

impl ReadSet {
    /// No range, and no place reserved. It takes no memory, and keeps the allocator.
    pub fn new(alloc: Global) -> ReadSet
        ensures { result ≡ record { items = []; spare = 0 } }
    {
        ReadSet {
            items: SmallVec::new(alloc),
            spare: 0,
            oldest: None,
        }
    }

    /// How many different ranges were read.
    pub fn len(&self) -> usize
        ensures { result ≡ length self.now.items }
    {
        self.items.len()
    }

    /// The ranges in their order, each with the least number at which it was read.
    pub fn as_slice(&self) -> &[Read]
        ensures value { result.now ≡ self.now.items }
        ensures always { AreOrdered self.now.items }
    {
        self.items.as_slice()
    }

    /// The least number at which a range was read, or None where none was. It costs nothing.
    pub fn oldest(&self) -> Option<u64>
        ensures { result ≡ oldest_number self.now.items }
    {
        self.oldest
    }

    /// Reserves so many places in all, which is how many times `put` may then be called. The error
    /// is want of memory.
    pub fn reserve(&mut self, places: usize) -> Result<(), AllocError>
        ensures ok { OnOk result
            (self.new ≡ record { items = self.old.items; spare = places }) }
        ensures err { OnErr result (self.new ≡ self.old) }
    {
        self.items.reserve(places)?;
        self.spare = places;
        Ok(())
    }

    /// Puts a range into a reserved place, read where the history had so many entries; where it was
    /// read before, the lesser number stays with it.
    ///
    /// It looks at about log2 of as many ranges as there are, and moves those behind a new one by
    /// one place.
    pub fn put(&mut self, range: Range, number: u64)
        requires { 0 < self.old.spare }
        ensures { self.new ≡ record {
          items = keep self.old.items (record { range = range; number = number });
          spare = self.old.spare - 1;
        } }
    {
        self.spare -= 1;
        self.oldest = Some(least_with(number, self.oldest));
        put_among(&mut self.items, Read { range, number });
    }

    /// Puts the ranges that a statement read into reserved places, the first of them first.
    pub fn put_all(&mut self, ranges: Ranges, number: u64)
        requires { length ranges ≤ self.old.spare }
        ensures { self.new ≡ record {
          items = keep_all self.old.items (read_at number ranges);
          spare = self.old.spare - length ranges;
        } }
    {
        for range in ranges.into_vec() {
            self.put(range, number);
        }
    }
}

/// The lesser of a number and another, where there is another.
fn least_with(number: u64, other: Option<u64>) -> u64
    ensures { Some result ≡ least_with number other }
{
    match other {
        None => number,
        Some(other) => number.min(other),
    }
}

/// Puts a read among those of other ranges, into the capacity that is there.
fn put_among(items: &mut SmallVec<Read, 8>, read: Read)
    requires room { HasRoomFor items.old 1 }
    requires ordered { AreOrdered items.old.items }
    ensures items { items.new.items ≡ keep items.old.items read }
    ensures ordered { AreOrdered items.new.items }
    ensures len { small_vec_len items.new ≤ small_vec_len items.old + 1 }
    ensures capacity { items.old.capacity ≤ items.new.capacity }
{
    let slice = items.as_slice();
    let place = place_among(slice, &read.range);
    match number_at(slice, place, &read.range) {
        Some(number) => {
            let number = number.min(read.number);
            replace(
                items,
                place,
                Read {
                    range: read.range,
                    number,
                },
            );
        }
        None => {
            items.insert(place, read).unwrap();
        }
    }
}

/// Puts a read into the place of another.
fn replace(items: &mut SmallVec<Read, 8>, place: usize, read: Read)
    requires { place < small_vec_len items.old }
    ensures items { items.new.items ≡ slice_set items.old.items place read }
    ensures capacity { items.new.capacity ≡ items.old.capacity }
{
    if let Some(item) = items.get_mut(place) {
        *item = read;
    }
}

/// At which place a range is or would be, by a binary search.
fn place_among(items: &[Read], range: &Range) -> usize
    requires { AreOrdered items.now }
    ensures within { result ≤ length items.now }
    ensures splits { IsPartitionPoint (λ q. is_before range.now q ≡ true)
        (λ q. is_before range.now q ≡ false) items.now result }
{
    items.partition_point(|read| cmp_range(&read.range, range) == Ordering::Less)
}

/// The number of the read at a place, where it is of this range.
fn number_at(items: &[Read], place: usize, range: &Range) -> Option<u64>
    ensures told { result ≡ number_at range.now (slice_get items.now place) }
    ensures within { OnSome result (place < length items.now) }
{
    match items.get(place) {
        None => None,
        Some(read) => number_of(read, range),
    }
}

/// The number of a read, where it is of this range.
fn number_of(read: &Read, range: &Range) -> Option<u64>
    ensures { result ≡ number_at range.now (Some read.now) }
{
    if cmp_range(range, &read.range) == Ordering::Equal {
        Some(read.number)
    } else {
        None
    }
}
