//! The values that an UPDATE leaves of a row.
ghost use Rattle.std.specs.Prelude.{◌≡◌, ◌++◌, map, option_map, IfOk};
ghost use Rattle.std.specs.Option.{option_copied};
ghost use Rattle.std.specs.List.{zip, find};
ghost use Rattle.odb_model.specs.Table.{is_named};
ghost use Rattle.odb_model.specs.Meaning.{new_value, all_some, new_values};

use crate::sums::value_of;
use odb_catalog::{ColumnDef, TableDef, is_named};
use odb_model::Assignment;
use odb_values::{Duplicate, Frozen, Text, Value, Values};
use std::alloc::{AllocError, Global};

/// The first assignment to the column of this name.
fn set_of<'a>(sets: &'a [Assignment], name: &Text) -> Option<&'a Assignment>
    ensures { option_copied result ≡ find (λ a. is_named a.column name.now) sets.now }
{
    for set in sets {
        if is_named(&set.column, name) {
            return Some(set);
        }
    }
    None
}

/// The value that an UPDATE leaves of a column with this one, of a row with these values in column
/// order; None is an overflow. The error is want of memory.
fn new_value(
    alloc: Global,
    table: &TableDef,
    sets: &[Assignment],
    values: &[Value],
    column: &ColumnDef,
    value: &Value,
) -> Result<Option<Value>, AllocError>
    ensures { IfOk result (λ new. new
        ≡ new_value table.now.columns sets.now values.now (column.now, value.now)) }
{
    match set_of(sets, column.name()) {
        Some(set) => value_of(alloc, table, values, &set.value),
        None => Ok(Some(value.copy(alloc)?)),
    }
}

/// Values, and behind them those that an UPDATE leaves of these columns with these values; None is an
/// overflow. The error is want of memory.
fn with_new_values(
    alloc: Global,
    mut new: Vec<Value>,
    table: &TableDef,
    sets: &[Assignment],
    values: &[Value],
    columns: &[ColumnDef],
    of_columns: &[Value],
) -> Result<Option<Vec<Value>>, AllocError>
    ensures { IfOk result (λ found. option_map (λ all. all.items) found
        ≡ option_map (λ more. new.items ++ more)
        (all_some (map (new_value table.now.columns sets.now values.now)
        (zip columns.now of_columns.now)))) }
{
    match columns {
        [] => Ok(Some(new)),
        [column, columns @ ..] => match of_columns {
            [] => Ok(Some(new)),
            [value, of_columns @ ..] => {
                let Some(value) = new_value(alloc, table, sets, values, column, value)? else {
                    return Ok(None);
                };
                new.push(value)?;
                with_new_values(alloc, new, table, sets, values, columns, of_columns)
            }
        },
    }
}

/// The values that an UPDATE leaves of a row's, both in column order; None is an overflow. The error
/// is want of memory.
pub(crate) fn new_values(
    alloc: Global,
    table: &TableDef,
    sets: &[Assignment],
    values: &[Value],
) -> Result<Option<Values>, AllocError>
    ensures { IfOk result (λ new. new ≡ new_values table.now sets.now values.now) }
{
    let none = Vec::new(alloc);
    match with_new_values(alloc, none, table, sets, values, table.columns(), values)? {
        None => Ok(None),
        Some(new) => Ok(Some(Frozen::from_vec(new))),
    }
}
