//! Columns as a row of the dictionary tells them.
ghost use Rattle.std.specs.Prelude.{◌≡◌, ◌<◌, ◌≤◌, ◌+◌, ◌^◌, ◌++◌, map, option_map, length, is_some, IfOk, IfSome, OnOk};
ghost use Rattle.std.specs.List.{list_any, list_all, range_with_len, filter_map};
ghost use Rattle.odb_model.specs.Table.{is_named, place_in};
ghost use Rattle.odb_model.specs.Dictionary.{names_differ, key_length, is_key, key_in, are_columns, columns_in};
ghost use Rattle.odb_catalog.specs.Rows.{column_of, column_by};

use crate::ColumnDef;
use crate::name::has_name_form;
use crate::number::natural_of;
use odb_values::{Duplicate, Text, Value};
use std::alloc::{AllocError, Global};
use std::marker::Model;

/// A column as a row of the dictionary tells it, with its place in the primary key from 1, or 0.
/// Contracts see it as the definitions' `Described`.
#[derive(Drop)]
pub struct Described {
    column: ColumnDef,
    key_place: u64,
}

impl Model for Described {
    ghost use Rattle.odb_model.specs.Dictionary.{Described as Told};

    ghost Value = { Told };

    ghost view = { λ a. record { column = a.column; key_place = a.key_place } };
}

impl Described {
    /// The column.
    pub fn into_column(self) -> ColumnDef
        ensures { result ≡ self.column }
    {
        let Described {
            column,
            key_place: _,
        } = self;
        column
    }

    fn is_named(&self, name: &Text) -> bool
        ensures { result ≡ is_named name.now self.now.column.name }
    {
        self.column.is_named(name)
    }

    fn name(&self) -> &Text
        ensures { result.now ≡ self.now.column.name }
    {
        self.column.name()
    }

    fn key_place(&self) -> u64
        ensures { result ≡ self.now.key_place }
    {
        self.key_place
    }
}

/// The column of this name and these numbers, where they are those of one: a kind of at most 200, 1
/// for NOT NULL or 0, and a place in the primary key from 1, or 0. The error is want of memory.
fn column_of(
    alloc: Global,
    name: &Text,
    kind: Option<u64>,
    flag: Option<u64>,
    place: Option<u64>,
) -> Result<Option<Described>, AllocError>
    ensures { IfOk result (λ found. found ≡ column_of name.now kind flag place) }
{
    let (Some(kind), Some(flag), Some(place)) = (kind, flag, place) else {
        return Ok(None);
    };
    if !has_name_form(name.as_bytes()) || kind > 200 || flag > 1 {
        return Ok(None);
    }
    let not_null = flag == 1 || 0 < place;
    Ok(Some(Described {
        column: ColumnDef::new(name.copy(alloc)?, kind as u32, not_null),
        key_place: place,
    }))
}

/// The column that four values of a row tell of. The error is want of memory.
fn column_by(
    alloc: Global,
    name: &Value,
    kind: Option<u64>,
    flag: Option<u64>,
    place: Option<u64>,
) -> Result<Option<Described>, AllocError>
    ensures { IfOk result (λ found. found ≡ column_by name.now kind flag place) }
{
    match name {
        Value::Text(name) => column_of(alloc, name, kind, flag, place),
        Value::Null | Value::Int(_) => Ok(None),
    }
}

/// These columns, and behind them those that these values tell of; None where the values aren't
/// those of columns. It calls itself for each column: a row has at most some 250, by its width. The
/// error is want of memory.
pub fn with_columns(
    alloc: Global,
    mut columns: Vec<Described>,
    values: &[Value],
) -> Result<Option<Vec<Described>>, AllocError>
    ensures { IfOk result (λ found. option_map (λ all. all.items) found
        ≡ option_map (λ more. columns.items ++ more) (columns_in values.now)) }
{
    match values {
        [] => Ok(Some(columns)),
        [_] | [_, _] | [_, _, _] => Ok(None),
        [name, kind, flag, place, rest @ ..] => {
            let kind = natural_of(kind);
            let flag = natural_of(flag);
            let Some(column) = column_by(alloc, name, kind, flag, natural_of(place))? else {
                return Ok(None);
            };
            columns.push(column)?;
            with_columns(alloc, columns, rest)
        }
    }
}

/// Whether a column has this name.
fn is_some_named(columns: &[Described], name: &Text) -> bool
    ensures { result
        ≡ list_any (is_named name.now) (map (λ d. d.column.name) columns.now) }
{
    match columns {
        [] => false,
        [first, rest @ ..] => first.is_named(name) || is_some_named(rest, name),
    }
}

/// Whether no two columns have one name.
fn names_differ(columns: &[Described]) -> bool
    ensures { result ≡ names_differ (map (λ d. d.column.name) columns.now) }
{
    match columns {
        [] => true,
        [first, rest @ ..] => !is_some_named(rest, first.name()) && names_differ(rest),
    }
}

/// How many columns are in the primary key.
fn key_length(columns: &[Described]) -> u64
    ensures count { result ≡ key_length (map (λ d. d.key_place) columns.now) }
    ensures most { result ≤ length columns.now }
{
    match columns {
        [] => 0,
        [first, rest @ ..] => {
            let more = key_length(rest);
            if 0 < first.key_place() {
                more + 1
            } else {
                more
            }
        }
    }
}

/// The place in the table of the first column with this place in the key.
fn place_with(columns: &[Described], key_place: u64) -> Option<u64>
    ensures place { result ≡ place_in (map (λ d. d.key_place) columns.now) key_place }
    ensures within { IfSome result (λ place. place < length columns.now) }
{
    match columns {
        [] => None,
        [first, rest @ ..] => {
            if first.key_place() == key_place {
                return Some(0);
            }
            let place = place_with(rest, key_place)?;
            Some(place + 1)
        }
    }
}

/// Whether so many places in the key, from this one on, are those of columns.
fn has_places(columns: &[Described], from: u64, count: u64) -> bool
    requires { from + count < 2 ^ 64 }
    ensures { result
        ≡ list_all (λ n. is_some (place_in (map (λ d. d.key_place) columns.now) n))
        (range_with_len from count) }
{
    if count == 0 {
        return true;
    }
    place_with(columns, from).is_some() && has_places(columns, from + 1, count - 1)
}

/// Whether the columns are 1 to 15 of different names, and the places in the key other than 0 are 1
/// to some number of at least 1, each once. It takes no memory.
pub fn are_columns(columns: &[Described]) -> bool
    ensures { result ≡ are_columns columns.now }
{
    if columns.is_empty() || 15 < columns.len() {
        return false;
    }
    names_differ(columns) && is_key(columns)
}

fn is_key(columns: &[Described]) -> bool
    requires { length columns.now ≤ 15 }
    ensures { result ≡ is_key (map (λ d. d.key_place) columns.now) }
{
    let count = key_length(columns);
    0 < count && has_places(columns, 1, count)
}

/// Puts the places in the table of the key's columns, so many from this place in the key on, behind
/// the others. The error is want of memory.
fn put_key(
    alloc: Global,
    key: &mut Vec<u32>,
    columns: &[Described],
    from: u64,
    count: u64,
) -> Result<(), AllocError>
    requires few { length columns.now ≤ 15 }
    requires range { from + count < 2 ^ 64 }
    ensures { OnOk result (key.new.items ≡ key.old.items
        ++ filter_map (place_in (map (λ d. d.key_place) columns.now))
        (range_with_len from count)) }
{
    if count == 0 {
        return Ok(());
    }
    match place_with(columns, from) {
        None => put_key(alloc, key, columns, from + 1, count - 1),
        Some(place) => {
            key.push(place as u32)?;
            put_key(alloc, key, columns, from + 1, count - 1)
        }
    }
}

/// The places in the table of the key's columns, in key order. The error is want of memory.
pub fn key_in(alloc: Global, columns: &[Described]) -> Result<Vec<u32>, AllocError>
    requires { length columns.now ≤ 15 }
    ensures { IfOk result (λ key. key.items ≡ key_in (map (λ d. d.key_place) columns.now)) }
{
    let mut key = Vec::new(alloc);
    put_key(alloc, &mut key, columns, 1, key_length(columns))?;
    Ok(key)
}
