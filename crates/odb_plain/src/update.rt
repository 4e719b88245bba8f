//! UPDATE and DELETE.
ghost use Rattle.std.specs.Prelude.{◌≡◌, [], ◌∷◌, map, length, Some, IfOk};
ghost use Rattle.std.specs.List.{flat_map};
ghost use Rattle.odb_model.specs.Table.{row_of};
ghost use Rattle.odb_model.specs.Fitting.{row_refusal};
ghost use Rattle.odb_model.specs.Binding.{first_refusal};
ghost use Rattle.odb_model.specs.Meaning.{write_at, update_refusal, update_writes, updated, delete_writes, deleted, kept_rows};
ghost use Rattle.odb_model.specs.Transaction.{table_keys};
ghost use Rattle.odb_plain.specs.Changes.{IsChangeOf, AreChangesOf};

use crate::Rows;
use crate::changes::{Change, Changes};
use crate::columns::row_of;
use crate::effect::Effect;
use crate::effect_of::effect_of;
use crate::fitting::row_refusal;
use crate::kept::{KeptRow, kept_rows};
use crate::new_values::new_values;
use odb_catalog::TableDef;
use odb_model::{Assignment, Predicate, Reply, TableKey, Write, Writes};
use odb_values::{Duplicate, Frozen, Row, Values};
use std::alloc::{AllocError, Global};

/// The write to a table key. The error is want of memory.
fn write_at(
    alloc: Global,
    table: &TableDef,
    at: &TableKey,
    row: Option<Row>,
) -> Result<Write, AllocError>
    ensures { IfOk result (λ write. write ≡ write_at table.now at.now row) }
{
    Ok(Write {
        bank: table.bank(),
        table: at.table,
        key: at.key.copy(alloc)?,
        row,
    })
}

/// The write that puts these values, in column order, at a table key, where they fit. The error is
/// want of memory.
fn values_change(
    alloc: Global,
    format: u16,
    table: &TableDef,
    at: &TableKey,
    values: &Values,
) -> Result<Change, AllocError>
    ensures { IfOk result (IsChangeOf (row_refusal format table.now at.now.key values.now)
        (write_at table.now at.now (Some (row_of table.now values.now)) ∷ [])) }
{
    let key = at.key.as_slice();
    let row = row_of(alloc, table, values.as_slice())?;
    match row_refusal(format, table, key, values.as_slice(), row.as_slice()) {
        Some(reply) => Ok(Change::Refused(reply)),
        None => Ok(Change::Made(write_at(alloc, table, at, Some(Row::new(row)))?)),
    }
}

/// What an UPDATE makes of a row. The error is want of memory.
fn row_change(
    alloc: Global,
    format: u16,
    table: &TableDef,
    sets: &[Assignment],
    row: &KeptRow,
) -> Result<Change, AllocError>
    ensures { IfOk result (IsChangeOf (update_refusal format table.now sets.now row.now)
        (update_writes table.now sets.now row.now)) }
{
    let values = row.values(alloc, table)?;
    match new_values(alloc, table, sets, values.as_slice())? {
        None => Ok(Change::Refused(Reply::Overflow)),
        Some(values) => values_change(alloc, format, table, row.at(), &values),
    }
}

/// What an UPDATE makes of rows, in their order. The error is want of memory.
fn rows_changes(
    alloc: Global,
    format: u16,
    table: &TableDef,
    sets: &[Assignment],
    rows: &[KeptRow],
) -> Result<Changes, AllocError>
    ensures { IfOk result (AreChangesOf
        (first_refusal (update_refusal format table.now sets.now) rows.now)
        (flat_map (update_writes table.now sets.now) rows.now)) }
{
    let mut writes = Vec::new(alloc);
    for row in rows {
        match row_change(alloc, format, table, sets, row)? {
            Change::Refused(reply) => return Ok(Changes::Refused(reply)),
            Change::Made(write) => writes.push(write)?,
        }
    }
    Ok(Changes::Made(Frozen::from_vec(writes)))
}

/// What an UPDATE of the rows that a WHERE keeps does. It goes over all rows once. The error is want
/// of memory.
pub(crate) fn updated(
    alloc: Global,
    table: &TableDef,
    sets: &[Assignment],
    filter: &Option<Predicate>,
    rows: &Rows,
    write_set: &[Write],
    format: u16,
) -> Result<Effect, AllocError>
    ensures { IfOk result (λ effect. effect ≡ updated table.now sets.now
        (kept_rows table.now filter.now rows.now) (table_keys write_set.now) format) }
{
    let kept = kept_rows(alloc, table, filter, rows)?;
    let changes = rows_changes(alloc, format, table, sets, kept.as_slice())?;
    effect_of(alloc, write_set, kept.len(), changes)
}

/// The writes that delete rows, in their order. The error is want of memory.
fn deletions(alloc: Global, table: &TableDef, rows: &[KeptRow]) -> Result<Writes, AllocError>
    ensures { IfOk result (λ writes. writes ≡ flat_map (delete_writes table.now) rows.now) }
{
    let mut writes = Vec::new(alloc);
    for row in rows {
        writes.push(write_at(alloc, table, row.at(), None)?)?;
    }
    Ok(Frozen::from_vec(writes))
}

/// What a DELETE of the rows that a WHERE keeps does. It goes over all rows once. The error is want
/// of memory.
pub(crate) fn deleted(
    alloc: Global,
    table: &TableDef,
    filter: &Option<Predicate>,
    rows: &Rows,
    write_set: &[Write],
) -> Result<Effect, AllocError>
    ensures { IfOk result (λ effect. effect ≡ deleted table.now
        (kept_rows table.now filter.now rows.now) (table_keys write_set.now)) }
{
    let kept = kept_rows(alloc, table, filter, rows)?;
    let writes = deletions(alloc, table, kept.as_slice())?;
    Effect::done(alloc, write_set, kept.len(), writes)
}
