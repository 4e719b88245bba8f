//! The rows of a table that a WHERE keeps.
ghost use Rattle.std.specs.Prelude.{◌≡◌, ◌==◌, ◌&&◌, map, IfOk};
ghost use Rattle.odb_model.specs.Truth.{matches};
ghost use Rattle.odb_model.specs.Meaning.{values_of, kept_rows, kept_values};

use crate::Rows;
use crate::columns::in_columns;
use crate::truth::matches;
use odb_catalog::TableDef;
use odb_model::{Predicate, TableKey};
use odb_values::{Duplicate, Row, Values};
use std::alloc::{AllocError, Global};
use std::marker::Model;

/// A row with its table key. Contracts see it as the pair of both.
#[derive(Drop)]
pub(crate) struct KeptRow {
    at: TableKey,
    row: Row,
}

impl Model for KeptRow {
    ghost use Rattle.std.specs.Prelude.{List};
    ghost use Rattle.odb_values.specs.declared.value.Value.{Value as Cell};
    ghost use Rattle.odb_model.specs.declared.table_key.TableKey.{TableKey as Place};

    ghost Value = { Place × List Cell };

    ghost view = { λ a. (a.at, a.row) };
}

impl KeptRow {
    /// Where it stands.
    pub(crate) fn at(&self) -> &TableKey
        ensures { result.now ≡ self.now.0 }
    {
        &self.at
    }

    /// Its values in column order. The error is want of memory.
    pub(crate) fn values(&self, alloc: Global, table: &TableDef) -> Result<Values, AllocError>
        ensures { IfOk result (λ values. values ≡ values_of table.now self.now) }
    {
        in_columns(alloc, table, self.at.key.as_slice(), self.row.as_slice())
    }
}

/// A copy of a row with its table key. The error is want of memory.
fn copied(alloc: Global, at: &TableKey, row: &Row) -> Result<KeptRow, AllocError>
    ensures { IfOk result (λ kept. kept ≡ (at.now, row.now)) }
{
    Ok(KeptRow {
        at: TableKey {
            table: at.table,
            key: at.key.copy(alloc)?,
        },
        row: row.copy(alloc)?,
    })
}

/// Whether a row is one of the table, and the WHERE has it. The error is want of memory.
fn is_kept(
    alloc: Global,
    table: &TableDef,
    filter: &Option<Predicate>,
    at: &TableKey,
    row: &Row,
) -> Result<bool, AllocError>
    ensures { IfOk result (λ kept. kept ≡ ((table.now.number == at.now.table)
        && matches table.now.columns filter.now (values_of table.now (at.now, row.now)))) }
{
    if table.number() != at.table {
        return Ok(false);
    }
    let values = in_columns(alloc, table, at.key.as_slice(), row.as_slice())?;
    Ok(matches(table, filter, values.as_slice()))
}

/// The rows of a table that a WHERE keeps, in key order. It goes over all rows once. The error is
/// want of memory.
pub(crate) fn kept_rows(
    alloc: Global,
    table: &TableDef,
    filter: &Option<Predicate>,
    rows: &Rows,
) -> Result<Vec<KeptRow>, AllocError>
    ensures { IfOk result (λ kept. kept.items ≡ kept_rows table.now filter.now rows.now) }
{
    let mut kept = Vec::new(alloc);
    for (at, row) in rows.iter() {
        if is_kept(alloc, table, filter, at, row)? {
            kept.push(copied(alloc, at, row)?)?;
        }
    }
    Ok(kept)
}

/// The same rows, each as its values in column order. The error is want of memory.
pub(crate) fn kept_values(
    alloc: Global,
    table: &TableDef,
    filter: &Option<Predicate>,
    rows: &Rows,
) -> Result<Vec<Values>, AllocError>
    ensures { IfOk result (λ kept. kept.items ≡ kept_values table.now filter.now rows.now) }
{
    let mut values = Vec::new(alloc);
    for row in &kept_rows(alloc, table, filter, rows)? {
        values.push(row.values(alloc, table)?)?;
    }
    Ok(values)
}
