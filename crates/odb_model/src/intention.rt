//! What a transaction intends.
use crate::TableKey;
use odb_values::Row;

/// What a transaction intends for one row that it has written.
#[derive(Debug, Drop)]
pub struct Intention {
    /// The table of the row and its primary key.
    pub table_key: TableKey,
    /// The number of the databank that has the table.
    pub bank: u32,
    /// The values outside the key, as the last write put them, or None where it deleted the row.
    pub row: Option<Row>,
    /// Whether a row was there before the transaction wrote it first.
    pub was_there: bool,
}
