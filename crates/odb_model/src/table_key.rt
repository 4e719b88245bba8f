//! Which row: a table and a key of it.
ghost use Rattle.std.specs.Prelude.{◌≡◌, IfOk};
ghost use Rattle.odb_model.specs.State.{table_key_of};

use crate::Write;
use odb_values::{Duplicate, Key};
use std::alloc::{AllocError, Global};

/// A table's number and a key of it. The order is that of the tables' numbers, and then of the
/// keys.
#[derive(Debug, Drop, PartialEq, Eq, PartialOrd, Ord)]
pub struct TableKey {
    /// The number of the table.
    pub table: u32,
    /// The primary key of a row.
    pub key: Key,
}

impl TableKey {
    /// The row that a write puts or deletes, with a copy of the key. The error is want of memory.
    pub fn of(alloc: Global, write: &Write) -> Result<TableKey, AllocError>
        ensures { IfOk result (λ at. at ≡ table_key_of write.now) }
    {
        Ok(TableKey {
            table: write.table,
            key: write.key.copy(alloc)?,
        })
    }
}
