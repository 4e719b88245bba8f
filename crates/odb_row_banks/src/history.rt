//! The history of which the lines of a row tell.

use crate::calls::lined;
use odb_model::Write;
use odb_row_disks::{StepError, number};
use odb_row_values::{key_of, number_in, values_of};
use odb_rowfile::split_word;
use odb_values::{Key, Row, Same};
use std::alloc::Global;

/// A write of an entry of the history.
#[derive(Drop)]
pub(crate) struct Written {
    /// The number of its entry.
    pub(crate) number: u64,
    pub(crate) write: Write,
}

/// The write of a text: `NUMBER put BANK TABLE KEY ROW`, `NUMBER delete BANK TABLE KEY`.
pub(crate) fn written_of(alloc: Global, text: &str) -> Result<Written, StepError> {
    let (entry, rest) = split_word(text);
    let (word, rest) = split_word(rest);
    let number = number(entry)?;
    let write = write_of(alloc, word, rest)?;
    Ok(Written { number, write })
}

fn write_of(alloc: Global, word: &str, rest: &str) -> Result<Write, StepError> {
    let (bank, rest) = lined(number_in(rest))?;
    let (table, rest) = lined(number_in(rest))?;
    let (key, rest) = split_word(rest);
    let key = lined(key_of(alloc, key))?;
    let row = row_of(alloc, word, rest)?;
    Ok(Write {
        bank,
        table,
        key,
        row,
    })
}

/// The row that a write puts; None where it deletes.
fn row_of(alloc: Global, word: &str, text: &str) -> Result<Option<Row>, StepError> {
    match word {
        "put" => Ok(Some(Row::new(lined(values_of(alloc, text))?))),
        "delete" => Ok(None),
        _ => Err(StepError::Unreadable),
    }
}

/// The number of the last entry; 0 where there is none.
pub(crate) fn last_number(history: &[Written]) -> u64 {
    match history.last() {
        Some(written) => written.number,
        None => 0,
    }
}

/// Whether a write is to this key.
fn is_to(write: &Write, bank: u32, table: u32, key: &Key) -> bool {
    write.bank == bank && write.table == table && write.key.same(key)
}

/// Whether both have one row, or none.
fn is_same(a: &Option<Row>, b: &Option<Row>) -> bool {
    match (a, b) {
        (None, None) => true,
        (Some(a), Some(b)) => a.same(b),
        _ => false,
    }
}

/// Whether a file with this mark may have this row at a key, gone over plainly: that of the last
/// write up to the mark, or of a later one.
pub(crate) fn may_have(history: &[Written], mark: u64, of: &Write, row: &Option<Row>) -> bool {
    let mut may = row.is_none();
    for written in history {
        if is_to(&written.write, of.bank, of.table, &of.key) {
            let is_same = is_same(&written.write.row, row);
            may = is_same || (may && mark < written.number);
        }
    }
    may
}
