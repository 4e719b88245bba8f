//! What the lines of a row have set up: a history, a transaction's own writes, its reads and its
//! statements.
use crate::calls::outcome;
use odb_model::{Entry, Outcome, Ranges, Read, Statement, Write};
use odb_row_values::{LineError, key_of, number_in, parsed, push, values_of};
use odb_rowfile::split_word;
use odb_values::{Frozen, Row};
use std::alloc::Global;

/// The format of the database on whose history the statements run.
pub(crate) const FORMAT: u16 = 1;

/// What the lines of one row have set up so far.
#[derive(Drop)]
pub struct Scene {
    pub history: Vec<Entry>,
    pub write_set: Vec<Write>,
    pub reads: Vec<Read>,
    pub statements: Vec<Statement>,
}

impl Scene {
    /// Nothing.
    pub fn new(alloc: Global) -> Scene {
        Scene {
            history: Vec::new(alloc),
            write_set: Vec::new(alloc),
            reads: Vec::new(alloc),
            statements: Vec::new(alloc),
        }
    }

    /// Does what a line asks for that wants nothing.
    pub fn set(&mut self, alloc: Global, kind: &str, given: &str) -> Result<(), LineError> {
        match kind {
            "put" => self.write(alloc, given, true),
            "delete" => self.write(alloc, given, false),
            "read" => self.read(alloc, given),
            "statement" => push(&mut self.statements, statement_of(alloc, given)?),
            _ => Err(LineError::Unreadable("no such line sets anything")),
        }
    }

    /// `put WHERE BANK TABLE KEY ROW`, `delete WHERE BANK TABLE KEY`: a write of the transaction,
    /// where WHERE is `own`, or of the entry of this number, which is the last one or the next.
    fn write(&mut self, alloc: Global, given: &str, puts: bool) -> Result<(), LineError> {
        let (place, rest) = split_word(given);
        let write = write_of(alloc, rest, puts)?;
        if place == "own" {
            return push(&mut self.write_set, write);
        }
        let (number, _) = number_in(place)?;
        self.write_entry(alloc, u64::from(number), write)
    }

    fn write_entry(&mut self, alloc: Global, number: u64, write: Write) -> Result<(), LineError> {
        let mut writes = self.take_writes(alloc, number);
        push(&mut writes, write)?;
        let entry = Entry {
            number,
            by: 1,
            writes: Frozen::from_vec(writes),
        };
        push(&mut self.history, entry)
    }

    /// Takes the writes of the last entry off the history, where it has this number.
    fn take_writes(&mut self, alloc: Global, number: u64) -> Vec<Write> {
        if number != self.history.len() as u64 {
            return Vec::new(alloc);
        }
        match self.history.pop() {
            Some(entry) => writes_of(entry),
            None => Vec::new(alloc),
        }
    }

    /// `read NUMBER STATEMENT`: the ranges that a statement reads on the first entries, as reads at
    /// that number.
    fn read(&mut self, alloc: Global, given: &str) -> Result<(), LineError> {
        let (number, rest) = number_in(given)?;
        let Some(history) = self.history.as_slice().get(..number as usize) else {
            return Err(LineError::Unreadable("the history has fewer entries"));
        };
        let ranges = ranges_of(alloc, rest, history)?;
        push_reads(&mut self.reads, ranges, u64::from(number))
    }
}

/// The writes of an entry.
fn writes_of(entry: Entry) -> Vec<Write> {
    let Entry {
        number: _number,
        by: _by,
        writes,
    } = entry;
    writes.into_vec()
}

/// The ranges that the statement of a text reads on a history.
fn ranges_of(alloc: Global, text: &str, history: &[Entry]) -> Result<Ranges, LineError> {
    let statement = statement_of(alloc, text)?;
    Ok(reads_of(outcome(alloc, &statement, history, &[])?))
}

/// The ranges that were read.
fn reads_of(outcome: Outcome) -> Ranges {
    let Outcome {
        reply: _reply,
        writes: _writes,
        reads,
    } = outcome;
    reads
}

/// Puts ranges behind reads, all read at one number.
fn push_reads(reads: &mut Vec<Read>, ranges: Ranges, number: u64) -> Result<(), LineError> {
    for range in ranges.into_vec() {
        push(reads, Read { range, number })?;
    }
    Ok(())
}

/// The statement of a text.
pub fn statement_of(alloc: Global, text: &str) -> Result<Statement, LineError> {
    match parsed(alloc, text.as_bytes()) {
        Ok(statement) => Ok(statement),
        Err(_) => Err(LineError::Unreadable("this is no statement")),
    }
}

/// The write of a text: `4 5 (1) (10)`, or `4 5 (1)` where it deletes.
fn write_of(alloc: Global, text: &str, puts: bool) -> Result<Write, LineError> {
    let (bank, rest) = number_in(text)?;
    let (table, rest) = number_in(rest)?;
    let (key, row) = split_word(rest);
    let key = key_of(alloc, key)?;
    let row = row_of(alloc, row, puts)?;
    Ok(Write {
        bank,
        table,
        key,
        row,
    })
}

/// The row of a text, or None where a write has none.
fn row_of(alloc: Global, text: &str, puts: bool) -> Result<Option<Row>, LineError> {
    if !puts {
        return Ok(None);
    }
    Ok(Some(Row::new(values_of(alloc, text)?)))
}
