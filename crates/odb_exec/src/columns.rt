//! What an UPDATE leaves of a row.
ghost use Rattle.std.specs.Prelude.{◌≡◌, ◌<◌, length, map, IfOk, IfSome};
ghost use Rattle.odb_model.specs.Table.{places};
ghost use Rattle.odb_eval.specs.Bound.{bound_value};
ghost use Rattle.odb_exec.specs.Columns.{set_place, new_column, column_after, columns_after};

use crate::copying::copied;
use odb_catalog::{TableDef, is_named};
use odb_eval::{EvalError, Source, value_of};
use odb_model::Assignment;
use odb_plan::Set;
use odb_values::{Duplicate, Frozen, Key, Row, Text, Value, Values};
use std::alloc::{AllocError, Global};

/// What an UPDATE leaves of a column.
#[derive(Debug, Drop)]
pub enum NewColumn {
    /// The value that is there.
    Kept(Source),
    /// That of the assignment at this place, from 0.
    Set(usize),
}

/// What an UPDATE leaves of each column, in their order.
pub type NewColumns = Frozen<NewColumn>;

/// The place of the first assignment to the column of this name, from 0.
fn set_place(assigned: &[Assignment], name: &Text) -> Option<usize>
    ensures place { result ≡ set_place assigned.now name.now }
    ensures within { IfSome result (λ place. place < length assigned.now) }
{
    match assigned {
        [] => None,
        [first, rest @ ..] => {
            if is_named(&first.column, name) {
                return Some(0);
            }
            let place = set_place(rest, name)?;
            Some(place + 1)
        }
    }
}

/// What an UPDATE with these assignments leaves of each column of a table. Where it leaves a column
/// as it is the value is taken from where it lies. The error is want of memory.
pub fn new_columns(
    alloc: Global,
    table: &TableDef,
    assigned: &[Assignment],
) -> Result<NewColumns, AllocError>
    ensures { IfOk result
        (λ columns. columns ≡ map (new_column table.now assigned.now) (places table.now)) }
{
    let count = table.columns().len();
    let mut columns = Vec::with_capacity(alloc, count)?;
    for place in 0..count as u32 {
        columns.push(new_column(table, assigned, place))?;
    }
    Ok(Frozen::from_vec(columns))
}

/// What an UPDATE with these assignments leaves of the column at a place.
fn new_column(table: &TableDef, assigned: &[Assignment], place: u32) -> NewColumn
    requires { place < length table.now.columns }
    ensures { result ≡ new_column table.now assigned.now place }
{
    match set_place(assigned, table.columns()[place as usize].name()) {
        Some(at) => NewColumn::Set(at),
        None => NewColumn::Kept(Source::of_place(table, place)),
    }
}

/// The value that an UPDATE leaves of a column, or None on an overflow. The error is want of memory.
fn column_after(
    alloc: Global,
    sets: &[Set],
    key: &Key,
    row: &Row,
    column: &NewColumn,
) -> Result<Option<Value>, AllocError>
    ensures { IfOk result (λ value. value ≡ column_after sets.now key.now row.now column.now) }
{
    match column {
        NewColumn::Kept(source) => Ok(Some(copied(alloc, source, key.as_slice(), row.as_slice())?)),
        NewColumn::Set(at) => match sets.get(*at) {
            Some(set) => set_value(alloc, set, key, row),
            None => Ok(None),
        },
    }
}

/// The value of an assignment on a row, or None on an overflow. The error is want of memory.
fn set_value(alloc: Global, set: &Set, key: &Key, row: &Row) -> Result<Option<Value>, AllocError>
    ensures { IfOk result (λ value. value ≡ bound_value key.now row.now set.now.value) }
{
    match value_of(alloc, &set.value, key, row) {
        Ok(value) => Ok(Some(value)),
        Err(EvalError::Overflow) => Ok(None),
        Err(EvalError::NoMemory) => Err(AllocError),
    }
}

/// The values that an UPDATE leaves of a row, in column order, or None on an overflow. The error is
/// want of memory.
pub fn columns_after(
    alloc: Global,
    sets: &[Set],
    columns: &[NewColumn],
    key: &Key,
    row: &Row,
) -> Result<Option<Values>, AllocError>
    ensures { IfOk result
        (λ values. values ≡ columns_after sets.now columns.now key.now row.now) }
{
    let mut values = Vec::with_capacity(alloc, columns.len())?;
    for column in columns {
        match column_after(alloc, sets, key, row, column)? {
            Some(value) => values.push(value)?,
            None => return Ok(None),
        }
    }
    Ok(Some(Frozen::from_vec(values)))
}
