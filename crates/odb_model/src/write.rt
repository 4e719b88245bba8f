//! One change of a transaction.
use odb_values::{Duplicate, Frozen, Key, Row};
use std::alloc::{AllocError, Global};

/// One change of a committed transaction: a row that is put, or a key that is deleted.
#[derive(Debug, Drop)]
pub struct Write {
    /// The number of the databank that has the table.
    pub bank: u32,
    /// The number of the table.
    pub table: u32,
    /// The primary key of the row.
    pub key: Key,
    /// The values outside the key, or None where the key is deleted.
    pub row: Option<Row>,
}

/// Writes in an order that their owner states.
pub type Writes = Frozen<Write>;

impl Duplicate for Write {
    fn copy(&self, alloc: Global) -> Result<Write, AllocError> {
        let row = match &self.row {
            None => None,
            Some(row) => Some(row.copy(alloc)?),
        };
        Ok(Write {
            bank: self.bank,
            table: self.table,
            key: self.key.copy(alloc)?,
            row,
        })
    }
}
