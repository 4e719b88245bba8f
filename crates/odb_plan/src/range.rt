//! The range of a WHERE.
ghost use Rattle.std.specs.Prelude.{◌≡◌, ◌++◌, length, reverse, slice_get, OnOk, IfOk};
ghost use Rattle.odb_model.specs.Where.{prefix_of, range_by, range_of};

use crate::edge::Side;
use crate::tests_of::{Test, edge_at, equal_to, tests_backward};
use odb_catalog::TableDef;
use odb_model::Predicate;
use odb_values::{Duplicate, Frozen, Range, Value, Values};
use std::alloc::{AllocError, Global};

/// Puts the values of the longest row of columns, from the first of these places on, that have to be
/// equal to one. The error is want of memory.
fn put_prefix(
    alloc: Global,
    prefix: &mut Vec<Value>,
    backward: &[Test],
    places: &[u32],
) -> Result<(), AllocError>
    ensures { OnOk result (prefix.new.items ≡ prefix.old.items
        ++ prefix_of (reverse backward.now) places.now) }
{
    match places {
        [] => Ok(()),
        [place, rest @ ..] => {
            let Some(value) = equal_to(backward, *place) else {
                return Ok(());
            };
            prefix.push(value.copy(alloc)?)?;
            put_prefix(alloc, prefix, backward, rest)
        }
    }
}

/// The values that the leading key columns have to be equal to. The error is want of memory.
fn prefix_by(alloc: Global, table: &TableDef, backward: &[Test]) -> Result<Values, AllocError>
    ensures { IfOk result
        (λ prefix. prefix ≡ prefix_of (reverse backward.now) table.now.key) }
{
    let mut prefix = Vec::new(alloc);
    put_prefix(alloc, &mut prefix, backward, table.key())?;
    Ok(Frozen::from_vec(prefix))
}

/// The place of the key column behind a prefix.
fn next_place(table: &TableDef, prefix: &Values) -> Option<u32>
    ensures { result ≡ slice_get table.now.key (length prefix.now) }
{
    table.key().get(prefix.len()).copied()
}

/// The range of these comparisons. The error is want of memory.
fn range_by(alloc: Global, table: &TableDef, backward: &[Test]) -> Result<Range, AllocError>
    ensures { IfOk result (λ range. range ≡ range_by table.now (reverse backward.now)) }
{
    let prefix = prefix_by(alloc, table, backward)?;
    let next = next_place(table, &prefix);
    let low = edge_at(alloc, Side::Low, backward, next)?;
    let high = edge_at(alloc, Side::High, backward, next)?;
    Ok(Range {
        table: table.number(),
        prefix,
        low,
        high,
    })
}

/// The range of keys that a statement with this WHERE reads of a table: its prefix is the values that
/// the leading key columns have to be equal to, its edges are the tightest for the next key column.
/// Without WHERE it is the whole table.
///
/// It goes over the comparisons once for each key column, and takes memory for them. The error is
/// want of memory.
pub fn range_of(
    alloc: Global,
    table: &TableDef,
    filter: &Option<Predicate>,
) -> Result<Range, AllocError>
    ensures { IfOk result (λ range. range ≡ range_of table.now filter.now) }
{
    let backward = tests_backward(alloc, table, filter)?;
    range_by(alloc, table, backward.as_slice())
}
