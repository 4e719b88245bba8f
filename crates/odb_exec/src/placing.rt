//! Keys and rows of values that are given in column order.
ghost use Rattle.std.specs.Prelude.{◌≡◌, [], ◌∷◌, ◌++◌, map, filter, IfOk, OnOk};
ghost use Rattle.odb_model.specs.Table.{IsTable, value_at, key_of, row_of};
ghost use Rattle.odb_exec.specs.Outside.{is_outside};

use odb_catalog::TableDef;
use odb_values::{Duplicate, Frozen, Value, Values};
use std::alloc::{AllocError, Global};

/// A copy of the value at a place; Null where there is none. The error is want of memory.
fn value_at(alloc: Global, values: &[Value], place: u32) -> Result<Value, AllocError>
    ensures { IfOk result (λ value. value ≡ value_at values.now place) }
{
    match values.get(place as usize) {
        Some(value) => value.copy(alloc),
        None => Ok(Value::Null),
    }
}

/// The values of the key, in key order. The error is want of memory.
pub fn key_of(alloc: Global, table: &TableDef, values: &[Value]) -> Result<Values, AllocError>
    ensures key { IfOk result (λ key. key ≡ key_of table.now values.now) }
    ensures table { IsTable table.now }
{
    let mut key = Vec::with_capacity(alloc, table.key().len())?;
    for place in table.key() {
        key.push(value_at(alloc, values, *place)?)?;
    }
    Ok(Frozen::from_vec(key))
}

/// Puts the value of the column at a place behind others, where it is outside the key. The error is
/// want of memory.
fn put_outside(
    alloc: Global,
    row: &mut Vec<Value>,
    table: &TableDef,
    values: &[Value],
    place: u32,
) -> Result<(), AllocError>
    ensures { OnOk result (row.new.items ≡ row.old.items
        ++ map (value_at values.now) (filter (is_outside table.now) (place ∷ []))) }
{
    if table.place_in_key(place).is_some() {
        return Ok(());
    }
    row.push(value_at(alloc, values, place)?)?;
    Ok(())
}

/// The values outside the key, in column order. The error is want of memory.
pub fn row_of(alloc: Global, table: &TableDef, values: &[Value]) -> Result<Values, AllocError>
    ensures { IfOk result (λ row. row ≡ row_of table.now values.now) }
{
    let count = table.columns().len();
    let mut row = Vec::with_capacity(alloc, count.saturating_sub(table.key().len()))?;
    for place in 0..count as u32 {
        put_outside(alloc, &mut row, table, values, place)?;
    }
    Ok(Frozen::from_vec(row))
}
