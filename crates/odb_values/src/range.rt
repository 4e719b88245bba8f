//! Ranges of keys.
ghost use Rattle.std.specs.Prelude.{◌≡◌, ◌≤◌, length};
ghost use Rattle.std.specs.Bool.{OnTrue};
ghost use Rattle.std.specs.List.{starts_with};
ghost use Rattle.std.specs.Ordering.{eq_by_cmp};
ghost use Rattle.odb_values.specs.Value.{value_cmp};
ghost use Rattle.odb_values.specs.Range.{passes_low, passes_high, in_range};

use crate::value::cmp_value;
use crate::{Duplicate, Edge, Key, Value, Values};
use std::alloc::{AllocError, Global};
use std::cmp::Ordering;

/// The keys of a table that start with `prefix` and go on with a value between two edges.
///
/// With an empty prefix and both edges Free it is the whole table; with a whole key as its prefix
/// and both edges Free it is that key and every longer one that starts with it.
#[derive(Clone, Debug, Drop)]
pub struct Range {
    /// The number of the table.
    pub table: u32,
    /// The values that a key starts with.
    pub prefix: Values,
    /// The bound from below on the value after the prefix.
    pub low: Edge,
    /// The bound from above on the value after the prefix.
    pub high: Edge,
}

impl Range {
    /// Whether a key of a table is in the range.
    pub fn contains(&self, table: u32, key: &Key) -> bool
        ensures { result ≡ in_range self.now table key.now }
    {
        let prefix = self.prefix.as_slice();
        let key = key.as_slice();
        if self.table != table || !has_prefix(key, prefix) {
            return false;
        }
        let rest = &key[prefix.len()..];
        passes_low(&self.low, rest) && passes_high(&self.high, rest)
    }
}

/// Whether a key starts with these values.
fn has_prefix(key: &[Value], prefix: &[Value]) -> bool
    ensures value { result ≡ starts_with (eq_by_cmp value_cmp) key.now prefix.now }
    ensures fits { OnTrue result (length prefix.now ≤ length key.now) }
{
    match prefix {
        [] => true,
        [first, prefix @ ..] => match key {
            [] => false,
            [next, key @ ..] => cmp_value(first, next) == Ordering::Equal
                && has_prefix(key, prefix),
        },
    }
}

/// Whether the values after the prefix begin inside the low edge.
fn passes_low(low: &Edge, rest: &[Value]) -> bool
    ensures { result ≡ passes_low low.now rest.now }
{
    match (low, rest) {
        (Edge::Free, _) => true,
        (_, []) => false,
        (Edge::Closed(value), [next, ..]) => cmp_value(value, next) != Ordering::Greater,
        (Edge::Beyond(value), [next, ..]) => cmp_value(value, next) == Ordering::Less,
    }
}

/// Whether the values after the prefix begin inside the high edge.
fn passes_high(high: &Edge, rest: &[Value]) -> bool
    ensures { result ≡ passes_high high.now rest.now }
{
    match (high, rest) {
        (Edge::Free, _) => true,
        (_, []) => false,
        (Edge::Closed(value), [next, ..]) => cmp_value(next, value) != Ordering::Greater,
        (Edge::Beyond(value), [next, ..]) => cmp_value(next, value) == Ordering::Less,
    }
}

impl Duplicate for Range {
    fn copy(&self, alloc: Global) -> Result<Range, AllocError> {
        Ok(Range {
            table: self.table,
            prefix: self.prefix.copy(alloc)?,
            low: self.low.copy(alloc)?,
            high: self.high.copy(alloc)?,
        })
    }
}
