//! What a crash left of file 0.

use crate::Banks;
use crate::calls::{open_bank, row_of};
use crate::extents::{MOST, tell_extents};
use crate::history::{Written, last_number, may_have};
use crate::reading::{is_walked, tell_rows};
use crate::slots::tell_slots;
use crate::telling::{tell_opened, tell_refusal};
use odb_bank::{Bank, BankError};
use odb_model::Write;
use odb_row_disks::{StepError, Untold};
use odb_row_values::{part, tell_tuple};
use odb_values::Row;
use std::alloc::{AllocError, Global};

/// How many bytes an extent has, and how many stand before the first one.
const EXTENT: usize = 1_048_576;

const FRONT: usize = 1024;

/// What is to be told of what a crash left.
#[derive(Clone, Copy)]
pub enum Left {
    /// What opening its extents finds.
    Extents,
    /// The records in its slots.
    Slots,
    /// The rows of a table, as a databank file.
    Rows(u32),
    /// What opening it as a databank file finds.
    Bank,
    /// Whether it is a databank file that stands for the history.
    Stands,
}

impl Banks {
    /// Tells what a crash left.
    pub fn tell_left(
        &self,
        alloc: Global,
        store: &mut Untold,
        out: &mut String,
        left: Left,
    ) -> Result<(), StepError> {
        match left {
            Left::Extents => tell_extents(out, store),
            Left::Slots => tell_whole(alloc, store, out),
            _ => self.tell_left_bank(alloc, store, out, left),
        }
    }

    /// Tells what a crash left as a databank file.
    fn tell_left_bank(
        &self,
        alloc: Global,
        store: &mut Untold,
        out: &mut String,
        left: Left,
    ) -> Result<(), StepError> {
        let opened = self.opened(alloc, store)?;
        match left {
            Left::Rows(table) => tell_left_rows(alloc, opened, store, out, table),
            Left::Stands => tell_standing(alloc, opened, store, out, &self.history),
            _ => tell_opened(out, &opened),
        }
    }

    /// Opens what was left, for the databank of the file in memory and the whole history.
    fn opened(
        &self,
        alloc: Global,
        store: &mut Untold,
    ) -> Result<Result<Bank, BankError>, StepError> {
        let Some(bank) = &self.bank else {
            return Err(StepError::NothingThere);
        };
        let number = last_number(&self.history);
        Ok(open_bank(alloc, store, bank.bank(), number))
    }
}

/// The records of all extents that the file has whole.
fn tell_whole(alloc: Global, store: &mut Untold, out: &mut String) -> Result<(), StepError> {
    let extents = store.file(0).len().saturating_sub(FRONT) / EXTENT;
    match u32::try_from(extents) {
        Ok(limit) if limit <= MOST => tell_slots(alloc, out, store, limit),
        _ => Err(StepError::Unreadable),
    }
}

fn tell_left_rows(
    alloc: Global,
    opened: Result<Bank, BankError>,
    store: &mut Untold,
    out: &mut String,
    table: u32,
) -> Result<(), StepError> {
    match opened {
        Ok(bank) => tell_rows(alloc, &bank, store, out, table),
        Err(error) => tell_refusal(out, error),
    }
}

fn tell_standing(
    alloc: Global,
    opened: Result<Bank, BankError>,
    store: &mut Untold,
    out: &mut String,
    history: &[Written],
) -> Result<(), StepError> {
    match opened {
        Ok(bank) => tell_bank(alloc, &bank, store, out, history),
        Err(error) => tell_refusal(out, error),
    }
}

/// Tells `yes` where the file stands for the history, else each key at which it doesn't.
fn tell_bank(
    alloc: Global,
    bank: &Bank,
    store: &mut Untold,
    out: &mut String,
    history: &[Written],
) -> Result<(), StepError> {
    tell_wrong_keys(alloc, bank, store, out, history)?;
    if out.is_empty() {
        out.push_str("yes")?;
    }
    Ok(())
}

/// Tells each key at which the file doesn't stand for the history.
fn tell_wrong_keys(
    alloc: Global,
    bank: &Bank,
    store: &mut Untold,
    out: &mut String,
    history: &[Written],
) -> Result<(), StepError> {
    for written in history {
        if written.write.bank == bank.bank()
            && !stands_at(alloc, bank, store, history, &written.write)?
        {
            tell_wrong(out, bank.mark(), &written.write)?;
        }
    }
    Ok(())
}

fn tell_wrong(out: &mut String, mark: u64, write: &Write) -> Result<(), AllocError> {
    let table = write.table;
    part(out)?;
    write!(out, "not by mark {mark}, at the key {table} ")?;
    tell_tuple(out, write.key.as_slice())
}

/// Whether the file may have the row that it has at the key of a write, and walks to it if it has.
fn stands_at(
    alloc: Global,
    bank: &Bank,
    store: &mut Untold,
    history: &[Written],
    write: &Write,
) -> Result<bool, StepError> {
    let row = found_row(alloc, bank, store, write)?;
    let is_walked = is_walked(alloc, bank, write.table, &write.key)?;
    Ok(is_walked == row.is_some() && may_have(history, bank.mark(), write, &row))
}

/// The row at the key of a write, which a store whose calls don't fail gives.
fn found_row(
    alloc: Global,
    bank: &Bank,
    store: &mut Untold,
    write: &Write,
) -> Result<Option<Row>, StepError> {
    match row_of(alloc, bank, store, write.table, &write.key) {
        Ok(row) => Ok(row),
        Err(BankError::NoMemory) => Err(StepError::NoMemory),
        Err(_) => Err(StepError::NothingThere),
    }
}
