//! The ranges that a statement reads of its table.
ghost use Rattle.std.specs.Prelude.{◌≡◌, [], ◌∷◌, map, IfOk};
ghost use Rattle.odb_model.specs.Where.{range_of};
ghost use Rattle.odb_model.specs.Reads.{point, full_keys, table_reads};

use crate::columns::key_of;
use crate::fitting::has_null;
use crate::range::range_of;
use odb_catalog::TableDef;
use odb_model::{Predicate, Statement};
use odb_values::{Edge, Range, Values};
use std::alloc::{AllocError, Global};

/// The range of a whole key. It takes no memory.
fn point(table: u32, key: Values) -> Range
    ensures { result ≡ point table key }
{
    Range {
        table,
        prefix: key,
        low: Edge::Free,
        high: Edge::Free,
    }
}

/// The points of the tuples' keys that hold no Null. The error is want of memory.
fn points(alloc: Global, table: &TableDef, tuples: &[Values]) -> Result<Vec<Range>, AllocError>
    ensures { IfOk result (λ ranges. ranges.items
        ≡ map (point table.now.number) (full_keys table.now tuples.now)) }
{
    let mut ranges = Vec::new(alloc);
    for tuple in tuples {
        let key = key_of(alloc, table, tuple.as_slice())?;
        if !has_null(key.as_slice()) {
            ranges.push(point(table.number(), key))?;
        }
    }
    Ok(ranges)
}

/// The range of a WHERE alone. The error is want of memory.
fn range_alone(
    alloc: Global,
    table: &TableDef,
    filter: &Option<Predicate>,
) -> Result<Vec<Range>, AllocError>
    ensures { IfOk result (λ ranges. ranges.items ≡ range_of table.now filter.now ∷ []) }
{
    Ok(vec![in alloc; range_of(alloc, table, filter)?]?)
}

/// The ranges that a statement that binds reads of its table. The error is want of memory.
pub(crate) fn table_reads(
    alloc: Global,
    table: &TableDef,
    statement: &Statement,
) -> Result<Vec<Range>, AllocError>
    ensures { IfOk result (λ ranges. ranges.items ≡ table_reads table.now statement.now) }
{
    match statement {
        Statement::Select {
            what: _,
            table: _,
            filter,
        } => range_alone(alloc, table, filter),
        Statement::Insert { table: _, tuples } => points(alloc, table, tuples.as_slice()),
        Statement::Update {
            table: _,
            sets: _,
            filter,
        } => range_alone(alloc, table, filter),
        Statement::Delete { table: _, filter } => range_alone(alloc, table, filter),
        _ => Ok(Vec::new(alloc)),
    }
}
