//! What the lines of a row have made of file 0, and what they tell of it.

use crate::calls::{format_bank, open_bank, open_run, put_mark};
use crate::extents::extents_line;
use crate::history::{Written, written_of};
use crate::reading::{get_line, next_line, rows_line};
use crate::slots::slots_line;
use crate::telling::{phase_name, tell_done, tell_number, tell_opened};
use odb_bank::Bank;
use odb_extent::Extents;
use odb_row_disks::{StepError, Untold, number, short_number};
use odb_rowfile::split_word;
use std::alloc::{AllocError, Global};

/// What the lines of a row have made of file 0, and the history of which they tell.
#[derive(Drop)]
pub struct Banks {
    pub(crate) extents: Option<Extents>,
    pub(crate) bank: Option<Bank>,
    pub(crate) history: Vec<Written>,
}

impl Banks {
    /// Nothing is made yet, and the history is empty.
    pub fn new(alloc: Global) -> Banks {
        Banks {
            extents: None,
            bank: None,
            history: Vec::new(alloc),
        }
    }

    /// `entry NUMBER put BANK TABLE KEY ROW`, `entry NUMBER delete BANK TABLE KEY`, behind its
    /// first word.
    pub fn enter(&mut self, alloc: Global, rest: &str) -> Result<(), StepError> {
        let written = written_of(alloc, rest)?;
        self.history.push(written).map_err(AllocError::from)?;
        Ok(())
    }

    /// A line that begins with `extents`, `slots` or `bank`: tells what it gives, and answers what
    /// it wants.
    pub fn line<'a>(
        &mut self,
        alloc: Global,
        store: &mut Untold,
        out: &mut String,
        word: &str,
        rest: &'a str,
    ) -> Result<&'a str, StepError> {
        let (call, rest) = split_word(rest);
        match word {
            "extents" => extents_line(&mut self.extents, store, out, call, rest),
            "slots" => slots_line(alloc, store, out, call, rest),
            _ => self.bank_line(alloc, store, out, call, rest),
        }
    }

    fn bank_line<'a>(
        &mut self,
        alloc: Global,
        store: &mut Untold,
        out: &mut String,
        call: &str,
        rest: &'a str,
    ) -> Result<&'a str, StepError> {
        match call {
            "format" => format_line(store, out, rest),
            "open" => self.open_line(alloc, store, out, rest),
            _ => self.use_bank(alloc, store, out, call, rest),
        }
    }

    /// `bank open BANK NUMBER FOUND`
    fn open_line<'a>(
        &mut self,
        alloc: Global,
        store: &mut Untold,
        out: &mut String,
        rest: &'a str,
    ) -> Result<&'a str, StepError> {
        let (bank, rest) = split_word(rest);
        let (last, wanted) = split_word(rest);
        let bank = short_number(bank)?;
        let last = number(last)?;
        let opened = open_bank(alloc, store, bank, last);
        let told = tell_opened(out, &opened);
        self.bank = opened.ok();
        told?;
        Ok(wanted)
    }

    /// A line about the databank file in memory.
    fn use_bank<'a>(
        &mut self,
        alloc: Global,
        store: &mut Untold,
        out: &mut String,
        call: &str,
        rest: &'a str,
    ) -> Result<&'a str, StepError> {
        let Some(bank) = &mut self.bank else {
            return Err(StepError::NothingThere);
        };
        match call {
            "gates" => gates_line(bank, store, out, rest),
            "mark" => mark_line(bank, store, out, rest),
            "is" => is_line(bank, out, rest),
            "get" => get_line(alloc, bank, store, out, rest),
            "next" => next_line(alloc, bank, out, rest),
            "rows" => rows_line(alloc, bank, store, out, rest),
            _ => Err(StepError::Unreadable),
        }
    }
}

/// `bank format BANK MARK ANSWER`
fn format_line<'a>(
    store: &mut Untold,
    out: &mut String,
    rest: &'a str,
) -> Result<&'a str, StepError> {
    let (bank, rest) = split_word(rest);
    let (mark, wanted) = split_word(rest);
    let bank = short_number(bank)?;
    let mark = number(mark)?;
    tell_done(out, format_bank(store, bank, mark))?;
    Ok(wanted)
}

/// `bank gates ANSWER`
fn gates_line<'a>(
    bank: &mut Bank,
    store: &mut Untold,
    out: &mut String,
    wanted: &'a str,
) -> Result<&'a str, StepError> {
    tell_done(out, open_run(bank, store))?;
    Ok(wanted)
}

/// `bank mark ANSWER`
fn mark_line<'a>(
    bank: &mut Bank,
    store: &mut Untold,
    out: &mut String,
    wanted: &'a str,
) -> Result<&'a str, StepError> {
    tell_number(out, put_mark(bank, store))?;
    Ok(wanted)
}

/// `bank is NAME MARK REACHED`
fn is_line<'a>(bank: &Bank, out: &mut String, wanted: &'a str) -> Result<&'a str, StepError> {
    let name = phase_name(bank.phase());
    let mark = bank.mark();
    let reached = bank.reached();
    write!(out, "{name} {mark} {reached}")?;
    Ok(wanted)
}
