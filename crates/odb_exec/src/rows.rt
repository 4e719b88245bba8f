//! What a statement makes of one row.
ghost use Rattle.std.specs.Prelude.{◌≡◌, IfOk};
ghost use Rattle.odb_values.specs.Key.{IsKey};
ghost use Rattle.odb_model.specs.declared.table_key.TableKey.{TableKey};
ghost use Rattle.odb_model.specs.Meaning.{new_row_refusal, new_row_writes};
ghost use Rattle.odb_exec.specs.Rows.{IsChangeOf};

use crate::fitting::row_refusal;
use crate::placing::row_of;
use odb_catalog::TableDef;
use odb_model::{Reply, Write};
use odb_values::{Duplicate, Key, Row, Values};
use std::alloc::{AllocError, Global};

/// What a statement makes of one row.
#[derive(Drop)]
pub enum RowChange {
    /// It is put, or deleted.
    Put(Write),
    /// The statement is refused.
    Refused(Reply),
}

/// What an UPDATE makes of a row with this key, from the values that it leaves in column order, where
/// they don't overflow. The error is want of memory.
pub fn row_change(
    alloc: Global,
    format: u16,
    table: &TableDef,
    number: u32,
    key: &Key,
    values: Option<Values>,
) -> Result<RowChange, AllocError>
    ensures { let at : TableKey = record { table = number; key = key.now } in IfOk result
        (IsChangeOf (new_row_refusal format table.now at values)
        (new_row_writes table.now at values)) }
{
    let Some(values) = values else {
        return Ok(RowChange::Refused(Reply::Overflow));
    };
    let row = row_of(alloc, table, values.as_slice())?;
    let refusal = row_refusal(
        format,
        table,
        key.as_slice(),
        values.as_slice(),
        row.as_slice(),
    );
    match refusal {
        Some(reply) => Ok(RowChange::Refused(reply)),
        None => Ok(RowChange::Put(Write {
            bank: table.bank(),
            table: number,
            key: key.copy(alloc)?,
            row: Some(Row::new(row)),
        })),
    }
}
