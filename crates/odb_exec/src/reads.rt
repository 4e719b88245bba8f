//! The ranges that a statement reads.
ghost use Rattle.std.specs.Prelude.{◌≡◌, ◌++◌, map, IfOk, OnOk};
ghost use Rattle.odb_model.specs.Reads.{point, dictionary_row, full_keys};

use crate::fitting::has_null;
use crate::placing::key_of;
use odb_catalog::TableDef;
use odb_values::{Duplicate, Edge, Frozen, Range, Text, Value, Values};
use std::alloc::{AllocError, Global};

/// The number of the dictionary's table.
const DICTIONARY: u32 = 6;

/// The first value of the key of a dictionary's row that tells of a table.
const KIND_TABLE: i64 = 2;

/// The range of a whole key. It takes no memory.
fn point(table: u32, key: Values) -> Range
    ensures { result ≡ point table key }
{
    Range {
        table,
        prefix: key,
        low: Edge::Free,
        high: Edge::Free,
    }
}

/// The range of the dictionary's row that tells of the table of this name. The error is want of
/// memory.
pub fn dictionary_row(alloc: Global, name: &Text) -> Result<Range, AllocError>
    ensures { IfOk result (λ range. range ≡ dictionary_row name.now) }
{
    let name = name.copy(alloc)?;
    let key = vec![in alloc; Value::Int(KIND_TABLE), Value::Text(name)]?;
    Ok(point(DICTIONARY, Frozen::from_vec(key)))
}

/// Puts the points of the tuples' keys that hold no Null behind other ranges. The error is want of
/// memory.
pub fn put_points(
    alloc: Global,
    reads: &mut Vec<Range>,
    table: &TableDef,
    tuples: &[Values],
) -> Result<(), AllocError>
    ensures { OnOk result (reads.new.items ≡ reads.old.items
        ++ map (point table.now.number) (full_keys table.now tuples.now)) }
{
    for tuple in tuples {
        let key = key_of(alloc, table, tuple.as_slice())?;
        if !has_null(key.as_slice()) {
            reads.push(point(table.number(), key))?;
        }
    }
    Ok(())
}
