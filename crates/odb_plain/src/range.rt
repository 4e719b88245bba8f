//! The range of a WHERE.
ghost use Rattle.std.specs.Prelude.{◌≡◌, ◌++◌, length, slice_get, OnOk, IfOk};
ghost use Rattle.odb_model.specs.Where.{prefix_of, range_by, range_of};

use crate::edge::{Side, edge_at};
use crate::tests_of::{Test, equal_to, tests_of};
use odb_catalog::TableDef;
use odb_model::Predicate;
use odb_values::{Duplicate, Frozen, Range, Value, Values};
use std::alloc::{AllocError, Global};

/// Puts the values of the longest row of columns, from the first of these places on, that have to be
/// equal to one. The error is want of memory.
fn put_prefix(
    alloc: Global,
    prefix: &mut Vec<Value>,
    tests: &[Test],
    places: &[u32],
) -> Result<(), AllocError>
    ensures { OnOk result
        (prefix.new.items ≡ prefix.old.items ++ prefix_of tests.now places.now) }
{
    match places {
        [] => Ok(()),
        [place, rest @ ..] => {
            let Some(value) = equal_to(tests, *place) else {
                return Ok(());
            };
            prefix.push(value.copy(alloc)?)?;
            put_prefix(alloc, prefix, tests, rest)
        }
    }
}

/// The values that the leading key columns have to be equal to. The error is want of memory.
fn prefix_of(alloc: Global, tests: &[Test], places: &[u32]) -> Result<Values, AllocError>
    ensures { IfOk result (λ prefix. prefix ≡ prefix_of tests.now places.now) }
{
    let mut prefix = Vec::new(alloc);
    put_prefix(alloc, &mut prefix, tests, places)?;
    Ok(Frozen::from_vec(prefix))
}

/// The place of the key column behind a prefix.
fn next_place(table: &TableDef, prefix: &Values) -> Option<u32>
    ensures { result ≡ slice_get table.now.key (length prefix.now) }
{
    table.key().get(prefix.len()).copied()
}

/// The range of these comparisons. The error is want of memory.
fn range_by(alloc: Global, table: &TableDef, tests: &[Test]) -> Result<Range, AllocError>
    ensures { IfOk result (λ range. range ≡ range_by table.now tests.now) }
{
    let prefix = prefix_of(alloc, tests, table.key())?;
    let next = next_place(table, &prefix);
    let low = edge_at(alloc, Side::Low, tests, next)?;
    let high = edge_at(alloc, Side::High, tests, next)?;
    Ok(Range {
        table: table.number(),
        prefix,
        low,
        high,
    })
}

/// The range of keys that a statement with this WHERE reads of a table: its prefix is the values that
/// the leading key columns have to be equal to, its edges are the tightest for the next key column.
/// Without WHERE it is the whole table. The error is want of memory.
pub(crate) fn range_of(
    alloc: Global,
    table: &TableDef,
    filter: &Option<Predicate>,
) -> Result<Range, AllocError>
    ensures { IfOk result (λ range. range ≡ range_of table.now filter.now) }
{
    let tests = tests_of(alloc, table, filter)?;
    range_by(alloc, table, tests.as_slice())
}
