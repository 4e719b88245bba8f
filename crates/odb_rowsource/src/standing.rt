//! How keys stand to a range.
ghost use Rattle.std.specs.Prelude.{◌≡◌, ◌≤◌};
ghost use Rattle.std.specs.declared.cmp.Ordering.TheVariants.{Less};
ghost use Rattle.std.specs.Ordering.{is_eq, ordering_index};
ghost use Rattle.std.specs.Option.{option_copied};
ghost use Rattle.odb_values.specs.declared.range.Range.{Range};
ghost use Rattle.odb_model.specs.declared.table_key.TableKey.{TableKey};
ghost use Rattle.odb_model.specs.State.{table_key_cmp, is_in};
ghost use Rattle.odb_rowsource.specs.Stand.{reaches, stays_under, rest_stand, key_stand, stand, is_from};

use odb_values::{Edge, Key, Range, Value, cmp_key, cmp_value};
use std::cmp::Ordering;

/// How a key of a table stands to a range: Less before all of it, Equal inside, Greater behind all
/// of it. It takes no memory.
pub fn stand(range: &Range, table: u32, key: &Key) -> Ordering
    ensures { result ≡ stand range.now (record { table = table; key = key.now }) }
{
    match table.cmp(&range.table) {
        Ordering::Equal => key_stand(
            range.prefix.as_slice(),
            &range.low,
            &range.high,
            key.as_slice(),
        ),
        other => other,
    }
}

/// Whether a key of a table is neither before the range nor at or before `after`, a key of the
/// range's table. In the order of table keys the first such one is the next of the range, or the
/// range has none. It takes no memory.
pub fn is_from(range: &Range, after: Option<&Key>, table: u32, key: &Key) -> bool
    ensures { result ≡ is_from range.now (option_copied after.entry)
        (record { table = table; key = key.now }) }
{
    if stand(range, table, key) == Ordering::Less {
        return false;
    }
    match after {
        None => true,
        Some(last) => cmp_table_keys(range.table, last, table, key) == Ordering::Less,
    }
}

/// How two table keys stand, without taking memory for them.
pub fn cmp_table_keys(table: u32, key: &Key, other_table: u32, other_key: &Key) -> Ordering
    ensures { result ≡ table_key_cmp (record { table = table; key = key.now })
        (record { table = other_table; key = other_key.now }) }
{
    match table.cmp(&other_table) {
        Ordering::Equal => cmp_key(key, other_key),
        other => other,
    }
}

/// How the values of a key stand to a prefix and two edges.
fn key_stand(prefix: &[Value], low: &Edge, high: &Edge, key: &[Value]) -> Ordering
    ensures { result ≡ key_stand prefix.now low.now high.now key.now }
{
    match prefix {
        [] => rest_stand(low, high, key),
        [first, prefix @ ..] => match key {
            [] => Ordering::Less,
            [next, key @ ..] => match cmp_value(next, first) {
                Ordering::Equal => key_stand(prefix, low, high, key),
                other => other,
            },
        },
    }
}

/// How the values behind the prefix stand to the edges.
fn rest_stand(low: &Edge, high: &Edge, rest: &[Value]) -> Ordering
    ensures { result ≡ rest_stand low.now high.now rest.now }
{
    match rest {
        [] => match (low, high) {
            (Edge::Free, Edge::Free) => Ordering::Equal,
            _ => Ordering::Less,
        },
        [next, ..] => {
            if !reaches(low, next) {
                Ordering::Less
            } else if stays_under(high, next) {
                Ordering::Equal
            } else {
                Ordering::Greater
            }
        }
    }
}

/// Whether a value is at or above a low edge.
fn reaches(low: &Edge, value: &Value) -> bool
    ensures { result ≡ reaches low.now value.now }
{
    match low {
        Edge::Free => true,
        Edge::Closed(bound) => cmp_value(bound, value) != Ordering::Greater,
        Edge::Beyond(bound) => cmp_value(bound, value) == Ordering::Less,
    }
}

/// Whether a value is at or below a high edge.
fn stays_under(high: &Edge, value: &Value) -> bool
    ensures { result ≡ stays_under high.now value.now }
{
    match high {
        Edge::Free => true,
        Edge::Closed(bound) => cmp_value(value, bound) != Ordering::Greater,
        Edge::Beyond(bound) => cmp_value(value, bound) == Ordering::Less,
    }
}

/// A range has no gap in the order of table keys: those inside are those that stand Equal, and a
/// greater table key doesn't stand lower.
pub fn stands_without_gap()
    ensures inside { (range : Range) (at : TableKey) → is_in range at ≡ is_eq (stand range at) }
    ensures rises { (range : Range) (a b : TableKey) → table_key_cmp a b ≡ Less
        → ordering_index (stand range a) ≤ ordering_index (stand range b) }
{}
