//! What a CREATE TABLE asks for, and the row that tells of it.
ghost use Rattle.std.specs.Prelude.{◌≡◌, ◌<◌, ◌≤◌, ◌^◌, ◌++◌, false, true, length, flat_map, IfOk, IfSome, OnOk};
ghost use Rattle.std.specs.List.{All, list_any, list_all};
ghost use Rattle.odb_model.specs.Table.{is_named};
ghost use Rattle.odb_model.specs.Dictionary.{names_differ};
ghost use Rattle.odb_model.specs.Definitions.{text_names, is_among, is_out_of_range, asked_kind, name_place, key_place, column_values, table_row};

use crate::is_named;
use odb_model::ColumnText;
use odb_values::{Duplicate, Frozen, Row, Text, Value};
use std::alloc::{AllocError, Global};

/// Whether one of these names is this one.
fn is_among(names: &[Text], name: &Text) -> bool
    ensures { result ≡ is_among names.now name.now }
{
    names.iter().any(|other| is_named(name, other))
}

/// Whether no two names are one. Each is compared with each.
pub(crate) fn names_differ(names: &[Text]) -> bool
    ensures { result ≡ names_differ names.now }
{
    for place in 0..names.len() {
        if is_among(&names[place + 1..], &names[place]) {
            return false;
        }
    }
    true
}

/// Whether one of these columns has this name.
fn is_some_of(columns: &[ColumnText], name: &Text) -> bool
    ensures { result ≡ list_any (λ c. is_named name.now c.name) columns.now }
{
    columns.iter().any(|column| is_named(name, &column.name))
}

/// Whether this name is one of those of these columns.
fn is_column(columns: &[ColumnText], name: &Text) -> bool
    ensures { result ≡ is_among (text_names columns.now) name.now }
{
    is_some_of(columns, name)
}

/// Whether no two columns have one name. Each is compared with each.
pub(crate) fn columns_differ(columns: &[ColumnText]) -> bool
    ensures { result ≡ names_differ (text_names columns.now) }
{
    for place in 0..columns.len() {
        if is_column(&columns[place + 1..], &columns[place].name) {
            return false;
        }
    }
    true
}

/// Whether each of these names is that of a column.
pub(crate) fn are_columns(columns: &[ColumnText], names: &[Text]) -> bool
    ensures { result ≡ list_all (is_among (text_names columns.now)) names.now }
{
    names.iter().all(|name| is_column(columns, name))
}

/// Whether the length of a text is none of 1 to 200.
fn is_out_of_range(length: Option<u64>) -> bool
    ensures { result ≡ is_out_of_range length }
{
    match length {
        None => false,
        Some(most) => most < 1 || 200 < most,
    }
}

/// Whether a column is a VARCHAR of other than 1 to 200 characters.
pub(crate) fn has_length_out_of_range(columns: &[ColumnText]) -> bool
    ensures { result ≡ list_any (λ c. is_out_of_range c.length) columns.now }
{
    columns.iter().any(|column| is_out_of_range(column.length))
}

/// The kind of a column as it is asked for: 0 for INTEGER, n for VARCHAR(n).
fn asked_kind(length: Option<u64>) -> u64
    requires { is_out_of_range length ≡ false }
    ensures kind { result ≡ asked_kind length }
    ensures small { result ≤ 200 }
{
    match length {
        None => 0,
        Some(most) => most,
    }
}

/// The place of the first of these names that is this one, from 0.
fn name_place(names: &[Text], name: &Text) -> Option<u32>
    requires { length names.now ≤ 15 }
    ensures place { result ≡ name_place names.now name.now }
    ensures within { IfSome result (λ place. place < length names.now) }
{
    match names {
        [] => None,
        [first, rest @ ..] => {
            if is_named(name, first) {
                return Some(0);
            }
            let place = name_place(rest, name)?;
            Some(place + 1)
        }
    }
}

/// The place of a column in the primary key, from 1, or 0 where it isn't in it.
fn key_place(key: &[Text], name: &Text) -> u32
    requires { length key.now ≤ 15 }
    ensures { result ≡ key_place key.now name.now }
{
    match name_place(key, name) {
        None => 0,
        Some(place) => place + 1,
    }
}

/// Puts the values that tell of a column behind others. The error is want of memory.
fn put_column(
    alloc: Global,
    values: &mut Vec<Value>,
    key: &[Text],
    column: &ColumnText,
) -> Result<(), AllocError>
    requires range { is_out_of_range column.now.length ≡ false }
    requires few { length key.now ≤ 15 }
    ensures { OnOk result (values.new.items
        ≡ values.old.items ++ column_values key.now column.now) }
{
    values.push(Value::Text(column.name.copy(alloc)?))?;
    values.push(Value::Int(asked_kind(column.length) as i64))?;
    values.push(Value::Int(i64::from(column.not_null)))?;
    values.push(Value::Int(key_place(key, &column.name) as i64))?;
    Ok(())
}

/// The row of a table with these numbers, as it is asked for. The error is want of memory.
pub(crate) fn table_row(
    alloc: Global,
    number: u32,
    bank: u32,
    columns: &[ColumnText],
    key: &[Text],
) -> Result<Row, AllocError>
    requires range { list_any (λ c. is_out_of_range c.length) columns.now ≡ false }
    requires few { length columns.now ≤ 15 }
    requires short { length key.now ≤ 15 }
    ensures { IfOk result (λ row. row ≡ table_row number bank columns.now key.now) }
{
    let mut values = vec![in alloc;
        Value::Int(number as i64),
        Value::Int(bank as i64),
        Value::Int(columns.len() as i64),
    ]?;
    for column in columns {
        put_column(alloc, &mut values, key, column)?;
    }
    Ok(Row::new(Frozen::from_vec(values)))
}
