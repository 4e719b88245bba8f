//! Values in the order of a table's columns, and how they lie in key and row.
ghost use Rattle.std.specs.Prelude.{◌≡◌, ◌+◌, ◌++◌, ◌≤◌, map, filter, is_none, length, unwrap_or, IfOk, OnOk};
ghost use Rattle.std.specs.Option.{option_copied};
ghost use Rattle.std.specs.List.{range_with_len};
ghost use Rattle.odb_values.specs.declared.value.Value.TheVariants.{Null};
ghost use Rattle.odb_model.specs.Table.{IsTable, value_at, column_value, key_of, row_of, place_in, stored_value, in_columns};
ghost use Rattle.odb_model.specs.Truth.{operand_value};

use odb_catalog::TableDef;
use odb_model::Operand;
use odb_values::{Duplicate, Frozen, Text, Value, Values};
use std::alloc::{AllocError, Global};

/// A copy of a value, where None stands for Null. The error is want of memory.
pub(crate) fn copied(alloc: Global, value: Option<&Value>) -> Result<Value, AllocError>
    ensures { IfOk result (λ copy. copy ≡ unwrap_or (option_copied value.entry) Null) }
{
    match value {
        Some(value) => value.copy(alloc),
        None => Ok(Value::Null),
    }
}

/// A copy of the value at a place, from 0; Null where there is none. The error is want of memory.
fn value_at(alloc: Global, values: &[Value], place: usize) -> Result<Value, AllocError>
    ensures { IfOk result (λ value. value ≡ value_at values.now place) }
{
    match values.get(place) {
        Some(value) => value.copy(alloc),
        None => Ok(Value::Null),
    }
}

/// The value of the column of this name, among the values in column order; None, which stands for
/// Null, where there is no such column or value.
pub(crate) fn column_value<'a>(
    table: &TableDef,
    values: &'a [Value],
    name: &Text,
) -> Option<&'a Value>
    ensures { unwrap_or (option_copied result) Null
        ≡ column_value table.now.columns values.now name.now }
{
    match table.column_place(name) {
        Some(place) => values.get(place as usize),
        None => None,
    }
}

/// The value of an operand on a row, whose values are given in column order; None stands for Null.
pub(crate) fn operand_value<'a>(
    table: &TableDef,
    values: &'a [Value],
    operand: &'a Operand,
) -> Option<&'a Value>
    ensures { unwrap_or (option_copied result) Null
        ≡ operand_value table.now.columns values.now operand.now }
{
    match operand {
        Operand::Column(name) => column_value(table, values, name),
        Operand::Literal(value) => Some(value),
    }
}

/// A copy of the value of the column at a place, from a key and a row. The error is want of memory.
fn stored_value(
    alloc: Global,
    table: &TableDef,
    key: &[Value],
    row: &[Value],
    place: u32,
) -> Result<Value, AllocError>
    ensures { IfOk result (λ value. value ≡ stored_value table.now key.now row.now place) }
{
    match table.place_in_key(place) {
        Some(at) => value_at(alloc, key, at),
        None => match table.place_in_row(place) {
            Some(at) => value_at(alloc, row, at),
            None => Ok(Value::Null),
        },
    }
}

/// The values of a key and a row in column order. The error is want of memory.
pub(crate) fn in_columns(
    alloc: Global,
    table: &TableDef,
    key: &[Value],
    row: &[Value],
) -> Result<Values, AllocError>
    ensures { IfOk result (λ values. values ≡ in_columns table.now key.now row.now) }
{
    let mut values = Vec::new(alloc);
    for place in 0..table.columns().len() as u32 {
        values.push(stored_value(alloc, table, key, row, place)?)?;
    }
    Ok(Frozen::from_vec(values))
}

/// The key of a row that is given in column order. The error is want of memory.
pub(crate) fn key_of(
    alloc: Global,
    table: &TableDef,
    values: &[Value],
) -> Result<Values, AllocError>
    ensures key { IfOk result (λ key. key ≡ key_of table.now values.now) }
    ensures table { IsTable table.now }
{
    let mut key = Vec::new(alloc);
    for place in table.key() {
        key.push(value_at(alloc, values, *place as usize)?)?;
    }
    Ok(Frozen::from_vec(key))
}

/// Puts the values outside the key, of so many columns from this place on, behind others. The error
/// is want of memory.
fn put_outside(
    alloc: Global,
    row: &mut Vec<Value>,
    table: &TableDef,
    values: &[Value],
    from: u32,
    count: u32,
) -> Result<(), AllocError>
    requires { from + count ≤ 15 }
    ensures { OnOk result (row.new.items ≡ row.old.items ++ map (value_at values.now)
        (filter (λ place. is_none (place_in table.now.key place)) (range_with_len from count))) }
{
    if count == 0 {
        return Ok(());
    }
    if table.place_in_key(from).is_some() {
        return put_outside(alloc, row, table, values, from + 1, count - 1);
    }
    row.push(value_at(alloc, values, from as usize)?)?;
    put_outside(alloc, row, table, values, from + 1, count - 1)
}

/// The values outside the key, in column order. The error is want of memory.
pub(crate) fn row_of(
    alloc: Global,
    table: &TableDef,
    values: &[Value],
) -> Result<Values, AllocError>
    ensures { IfOk result (λ row. row ≡ row_of table.now values.now) }
{
    let mut row = Vec::new(alloc);
    put_outside(
        alloc,
        &mut row,
        table,
        values,
        0,
        table.columns().len() as u32,
    )?;
    Ok(Frozen::from_vec(row))
}
