//! The table that a row of the dictionary tells of.
ghost use Rattle.std.specs.Prelude.{◌≡◌, ◌≤◌, map, length, IfOk, IsTrue};
ghost use Rattle.std.specs.Bool.{OnTrue};
ghost use Rattle.odb_model.specs.Dictionary.{table_by, table_in_row, dictionary_key, has_name_form};
ghost use Rattle.odb_model.specs.Reads.{dictionary_row};
ghost use Rattle.odb_catalog.specs.Rows.{is_table, table_from, IsTableOf};

use crate::described::{Described, are_columns, key_in, with_columns};
use crate::name::has_name_form;
use crate::number::{is_number_from, natural_of};
use crate::row::{DICTIONARY, KIND_TABLE, key_values, row_key};
use crate::{ColumnDef, TableDef};
use odb_values::{Edge, Frozen, Key, Range, Row, Text, Value};
use std::alloc::{AllocError, Global};

/// The columns alone.
fn columns_of(alloc: Global, described: Vec<Described>) -> Result<Vec<ColumnDef>, AllocError>
    ensures { IfOk result (λ columns. columns.items ≡ map (λ d. d.column) described.items) }
{
    let mut columns = Vec::new(alloc);
    for one in described {
        columns.push(one.into_column())?;
    }
    Ok(columns)
}

/// Whether these numbers and columns are those of a table.
fn is_table(number: u64, bank: u64, count: u64, columns: &[Described]) -> bool
    ensures value { result ≡ is_table number bank count columns.now }
    ensures few { OnTrue result (length columns.now ≤ 15) }
{
    is_number_from(16, number)
        && is_number_from(2, bank)
        && count == columns.len() as u64
        && are_columns(columns)
}

/// The table with these numbers and columns, where they are those of one. The error is want of
/// memory.
fn table_by(
    alloc: Global,
    number: u64,
    bank: u64,
    count: u64,
    columns: Vec<Described>,
) -> Result<Option<TableDef>, AllocError>
    ensures { IfOk result (λ found. found ≡ table_by number bank count columns.items) }
{
    if !is_table(number, bank, count, columns.as_slice()) {
        return Ok(None);
    }
    let key = key_in(alloc, columns.as_slice())?;
    let columns = columns_of(alloc, columns)?;
    Ok(Some(TableDef::new(
        number as u32,
        bank as u32,
        Frozen::from_vec(columns),
        Frozen::from_vec(key),
    )))
}

/// The table of a row that begins with these numbers. The error is want of memory.
fn table_from(
    alloc: Global,
    number: Option<u64>,
    bank: Option<u64>,
    count: Option<u64>,
    values: &[Value],
) -> Result<Option<TableDef>, AllocError>
    ensures { IfOk result (λ found. found ≡ table_from number bank count values.now) }
{
    let (Some(number), Some(bank), Some(count)) = (number, bank, count) else {
        return Ok(None);
    };
    match with_columns(alloc, Vec::new(alloc), values)? {
        None => Ok(None),
        Some(columns) => table_by(alloc, number, bank, count, columns),
    }
}

/// The table that a row of the dictionary tells of; None where the row hasn't the form of one. It
/// takes memory for the table; the error is want of it.
pub fn table_in_row(alloc: Global, row: &Row) -> Result<Option<TableDef>, AllocError>
    ensures { IfOk result (λ found. found ≡ table_in_row row.now) }
{
    match row.as_slice() {
        [] | [_] | [_, _] => Ok(None),
        [number, bank, count, columns @ ..] => {
            let number = natural_of(number);
            let bank = natural_of(bank);
            table_from(alloc, number, bank, natural_of(count), columns)
        }
    }
}

/// The table of this name, where the dictionary has this row for it: KV is fixed, a name of another
/// form than a name's has no table, and neither has one without a row, or with a row of another form
/// than a table's. The error is want of memory.
pub fn table_of(
    alloc: Global,
    name: &Text,
    row: &Option<Row>,
) -> Result<Option<TableDef>, AllocError>
    ensures { IfOk result (IsTableOf name.now row.now) }
{
    if name.as_bytes() == b"KV".as_slice() {
        return Ok(Some(TableDef::kv(alloc)?));
    }
    if !has_name_form(name.as_bytes()) {
        return Ok(None);
    }
    match row {
        None => Ok(None),
        Some(row) => table_in_row(alloc, row),
    }
}

/// The key of the dictionary's row that tells of a table, in table 6. The error is want of memory.
pub fn dictionary_key(alloc: Global, name: &Text) -> Result<Key, AllocError>
    requires { IsTrue (has_name_form name.now) }
    ensures { IfOk result (λ key. key ≡ dictionary_key name.now) }
{
    row_key(alloc, KIND_TABLE, name)
}

/// The range of that row, which each statement on rows of the table reads. The error is want of
/// memory.
pub fn dictionary_range(alloc: Global, name: &Text) -> Result<Range, AllocError>
    ensures { IfOk result (λ range. range ≡ dictionary_row name.now) }
{
    Ok(Range {
        table: DICTIONARY,
        prefix: key_values(alloc, KIND_TABLE, name)?,
        low: Edge::Free,
        high: Edge::Free,
    })
}
