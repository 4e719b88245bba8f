//! What a SELECT tells.
ghost use Rattle.std.specs.Prelude.{◌≡◌, [], ◌∷◌, pos, map, length, IfOk};
ghost use Rattle.odb_model.specs.Table.{column_value};
ghost use Rattle.odb_model.specs.Meaning.{told, single_or_overflow};

use crate::columns::{column_value, copied};
use crate::sums::total_of;
use odb_catalog::TableDef;
use odb_model::{Reply, What};
use odb_values::{Frozen, Text, Value, Values};
use std::alloc::{AllocError, Global};

/// A row of one value. The error is want of memory.
fn single(alloc: Global, value: Value) -> Result<Reply, AllocError>
    ensures { IfOk result (λ reply. reply ≡ Reply.Rows ((value ∷ []) ∷ [])) }
{
    let row = Frozen::from_vec(vec![in alloc; value]?);
    Ok(Reply::Rows(Frozen::from_vec(vec![in alloc; row]?)))
}

fn single_or_overflow(alloc: Global, value: Option<Value>) -> Result<Reply, AllocError>
    ensures { IfOk result (λ reply. reply ≡ single_or_overflow value) }
{
    match value {
        Some(value) => single(alloc, value),
        None => Ok(Reply::Overflow),
    }
}

/// The number of rows as a value. No memory holds so many that it has more than 63 bits.
fn count(rows: &[Values]) -> Result<Value, AllocError>
    ensures { IfOk result (λ value. value ≡ Value.Int (pos (length rows.now))) }
{
    match i64::try_from(rows.len()) {
        Ok(count) => Ok(Value::Int(count)),
        Err(_) => Err(AllocError),
    }
}

/// The values of the columns of these names, of one row in column order. The error is want of memory.
fn named(
    alloc: Global,
    table: &TableDef,
    names: &[Text],
    values: &[Value],
) -> Result<Values, AllocError>
    ensures { IfOk result
        (λ given. given ≡ map (column_value table.now.columns values.now) names.now) }
{
    let mut given = Vec::new(alloc);
    for name in names {
        given.push(copied(alloc, column_value(table, values, name))?)?;
    }
    Ok(Frozen::from_vec(given))
}

/// The values of the columns of these names, of each row. The error is want of memory.
fn all_named(
    alloc: Global,
    table: &TableDef,
    names: &[Text],
    rows: &[Values],
) -> Result<Vec<Values>, AllocError>
    ensures { IfOk result (λ given. given.items
        ≡ map (λ values. map (column_value table.now.columns values) names.now) rows.now) }
{
    let mut given = Vec::new(alloc);
    for row in rows {
        given.push(named(alloc, table, names, row.as_slice())?)?;
    }
    Ok(given)
}

/// The values of the column of this name, of each row. The error is want of memory.
fn of_column(
    alloc: Global,
    table: &TableDef,
    name: &Text,
    rows: &[Values],
) -> Result<Vec<Value>, AllocError>
    ensures { IfOk result (λ given. given.items
        ≡ map (λ values. column_value table.now.columns values name.now) rows.now) }
{
    let mut given = Vec::new(alloc);
    for row in rows {
        given.push(copied(alloc, column_value(table, row.as_slice(), name))?)?;
    }
    Ok(given)
}

/// What a SELECT tells of the rows that it keeps, each in column order. The error is want of memory.
pub(crate) fn told(
    alloc: Global,
    table: &TableDef,
    what: &What,
    rows: Vec<Values>,
) -> Result<Reply, AllocError>
    ensures { IfOk result (λ reply. reply ≡ told table.now.columns what.now rows.items) }
{
    match what {
        What::All => Ok(Reply::Rows(Frozen::from_vec(rows))),
        What::Columns(names) => {
            let given = all_named(alloc, table, names.as_slice(), rows.as_slice())?;
            Ok(Reply::Rows(Frozen::from_vec(given)))
        }
        What::Count => single(alloc, count(rows.as_slice())?),
        What::Sum(name) => {
            let given = of_column(alloc, table, name, rows.as_slice())?;
            single_or_overflow(alloc, total_of(given.as_slice()))
        }
    }
}
