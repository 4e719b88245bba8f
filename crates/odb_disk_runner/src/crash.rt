//! Lines about what a crash leaves.

use crate::bench::Bench;
use crate::log::found_list;
use crate::pair::found_by_opening;
use odb_row_banks::Left;
use odb_row_disks::{StepError, Untold, hex_of, picks_of, short_number};
use odb_rowfile::split_word;
use std::alloc::{AllocError, Global};

/// What is to be found in what a crash leaves.
#[derive(Clone, Copy)]
enum Found {
    Opens,
    Holds,
    Leaves(u32),
    Left(Left),
}

impl Bench {
    /// `crash CALLS PICK .. FOUND`
    pub(crate) fn crash(&mut self, alloc: Global, rest: &str) -> Result<(), StepError> {
        let (calls, rest) = split_word(rest);
        let (first, last) = self.call_range(calls)?;
        let (picks, found, wanted) = read_found(rest)?;
        let picks = picks_of(alloc, picks)?;
        for calls in first..=last {
            self.crash_behind(alloc, calls, picks.as_slice(), found, wanted)?;
        }
        Ok(())
    }

    /// A number of calls, or a range of them, both ends included.
    fn call_range(&self, text: &str) -> Result<(u32, u32), StepError> {
        let (first, last) = match text.split_once("..") {
            Some((first, last)) => (self.call_number(first)?, self.call_number(last)?),
            None => (self.call_number(text)?, self.call_number(text)?),
        };
        if first > last || last > self.store.calls() {
            return Err(StepError::Unreadable);
        }
        Ok((first, last))
    }

    /// Crashes behind so many calls, by each pick.
    fn crash_behind(
        &mut self,
        alloc: Global,
        calls: u32,
        picks: &[u64],
        found: Found,
        wanted: &str,
    ) -> Result<(), StepError> {
        for pick in picks {
            let got = self.found_behind(alloc, calls, *pick, found)?;
            if got.as_str() != wanted {
                return Err(differs_after(alloc, calls, *pick, wanted, got)?);
            }
            self.checks = self.checks.saturating_add(1);
        }
        Ok(())
    }

    /// What is found in what a crash behind so many calls leaves.
    fn found_behind(
        &self,
        alloc: Global,
        calls: u32,
        pick: u64,
        found: Found,
    ) -> Result<String, StepError> {
        match self.store.crash(alloc, calls, pick)? {
            Some(left) => self.found_in(alloc, left, found),
            None => Err(StepError::Unreadable),
        }
    }

    /// What is found in what a crash left.
    fn found_in(&self, alloc: Global, left: Untold, found: Found) -> Result<String, StepError> {
        let mut left = left;
        match found {
            Found::Opens => Ok(found_by_opening(alloc, &mut left)?),
            Found::Holds => Ok(found_list(alloc, &mut left, self.payloads.as_slice())?),
            Found::Leaves(file) => Ok(hex_of(alloc, left.file(file))?),
            Found::Left(what) => self.told_left(alloc, &mut left, what),
        }
    }

    /// What is told of extents, slots or a databank file that a crash left.
    fn told_left(&self, alloc: Global, left: &mut Untold, what: Left) -> Result<String, StepError> {
        let mut got = String::new(alloc);
        self.banks.tell_left(alloc, left, &mut got, what)?;
        Ok(got)
    }
}

fn differs_after(
    alloc: Global,
    calls: u32,
    pick: u64,
    wanted: &str,
    got: String,
) -> Result<StepError, AllocError> {
    let wanted = String::from_str(alloc, wanted)?;
    Ok(StepError::DiffersAfter {
        calls,
        pick,
        wanted,
        got,
    })
}

/// The picks, what is to be found, and what it is.
fn read_found(text: &str) -> Result<(&str, Found, &str), StepError> {
    if let Some((picks, wanted)) = text.split_once(" opens ") {
        return Ok((picks, Found::Opens, wanted));
    }
    if let Some((picks, wanted)) = text.split_once(" holds ") {
        return Ok((picks, Found::Holds, wanted));
    }
    if let Some((picks, wanted)) = text.split_once(" leaves ") {
        let (file, wanted) = split_word(wanted);
        return Ok((picks, Found::Leaves(short_number(file)?), wanted));
    }
    let (picks, left, wanted) = read_left(text)?;
    Ok((picks, Found::Left(left), wanted))
}

/// The picks, what is to be told of extents, slots or a databank file, and what that is.
fn read_left(text: &str) -> Result<(&str, Left, &str), StepError> {
    if let Some((picks, wanted)) = text.split_once(" extents ") {
        return Ok((picks, Left::Extents, wanted));
    }
    if let Some((picks, wanted)) = text.split_once(" slots ") {
        return Ok((picks, Left::Slots, wanted));
    }
    if let Some((picks, wanted)) = text.split_once(" bank ") {
        return Ok((picks, Left::Bank, wanted));
    }
    if let Some((picks, wanted)) = text.split_once(" stands ") {
        return Ok((picks, Left::Stands, wanted));
    }
    let Some((picks, wanted)) = text.split_once(" rows ") else {
        return Err(StepError::Unreadable);
    };
    let (table, wanted) = split_word(wanted);
    Ok((picks, Left::Rows(short_number(table)?), wanted))
}
