//! What a row works on, and which part of it a line speaks of.

use crate::log::UsableLog;
use odb_pair::Pair;
use odb_row_banks::Banks;
use odb_row_disks::{StepError, Untold, fewer, number, short, short_number};
use odb_rowfile::split_word;
use std::alloc::{AllocError, Global};

/// How much room the store of a row has that doesn't say it: 4 MiB.
const ROOM: u64 = 1 << 22;

/// How many places for calls it has.
const CALLS: u32 = 1024;

/// A name that a row gave to bytes.
#[derive(Drop)]
pub(crate) struct Payload {
    pub(crate) name: String,
    pub(crate) bytes: Vec<u8>,
}

/// A name that a row gave to a number of calls.
#[derive(Drop)]
struct Mark {
    name: String,
    calls: u32,
}

/// What a row works on: its store, the pair, the log and the rest in memory, and its names.
#[derive(Drop)]
pub(crate) struct Bench {
    pub(crate) store: Untold,
    pub(crate) pair: Option<Pair>,
    pub(crate) log: Option<UsableLog>,
    /// Extents, a databank file, and the history of which the row tells.
    pub(crate) banks: Banks,
    pub(crate) payloads: Vec<Payload>,
    marks: Vec<Mark>,
    /// How many things were compared with what a line says.
    pub(crate) checks: u64,
}

impl Bench {
    /// An empty store, and nothing made on it yet.
    pub(crate) fn new(alloc: Global) -> Result<Bench, StepError> {
        Ok(Bench {
            store: Untold::new(alloc, ROOM, CALLS)?,
            pair: None,
            log: None,
            banks: Banks::new(alloc),
            payloads: Vec::new(alloc),
            marks: Vec::new(alloc),
            checks: 0,
        })
    }

    /// Does what a line says.
    pub(crate) fn step(&mut self, alloc: Global, text: &str) -> Result<(), StepError> {
        let (word, rest) = split_word(text.trim_end_matches(' '));
        match word {
            "store" | "fill" | "at" | "cut" | "first" | "second" => self.prepare(alloc, word, rest),
            "write" | "sync" | "read" | "faults" => self.call_store(alloc, word, rest),
            "format" | "put" | "settle" | "opens" | "keeps" => self.use_pair(alloc, word, rest),
            "payload" | "log" | "add" | "body" | "room" | "next" | "place" | "holds" => {
                self.use_log(alloc, word, rest)
            }
            "extents" | "slots" | "bank" => self.use_banks(alloc, word, rest),
            "entry" => self.banks.enter(alloc, rest),
            "crash" => self.crash(alloc, rest),
            _ => self.count_calls(alloc, word, rest),
        }
    }

    /// A line about extents, slots or a databank file.
    fn use_banks(&mut self, alloc: Global, word: &str, rest: &str) -> Result<(), StepError> {
        let mut got = String::new(alloc);
        let wanted = self
            .banks
            .line(alloc, &mut self.store, &mut got, word, rest)?;
        self.compare(alloc, wanted, got.as_str())
    }

    /// A line about the numbers of calls.
    fn count_calls(&mut self, alloc: Global, word: &str, rest: &str) -> Result<(), StepError> {
        match word {
            "fail" => self.fail(alloc, rest),
            "mark" => self.mark(alloc, rest),
            "calls" => self.compare_calls(alloc, rest),
            _ => Err(StepError::Unreadable),
        }
    }

    /// `fail C`
    fn fail(&mut self, alloc: Global, rest: &str) -> Result<(), StepError> {
        let call = self.call_number(rest)?;
        Ok(self.store.fail(alloc, call)?)
    }

    /// `calls C`
    fn compare_calls(&mut self, alloc: Global, rest: &str) -> Result<(), StepError> {
        let wanted = self.call_number(rest)?;
        let wanted = format!(in alloc; "{wanted}")?;
        let calls = self.store.calls();
        self.compare_number(alloc, wanted.as_str(), u64::from(calls))
    }

    /// Gives the number of calls so far a name.
    fn mark(&mut self, alloc: Global, name: &str) -> Result<(), StepError> {
        if name.is_empty() {
            return Err(StepError::Unreadable);
        }
        let calls = self.store.calls();
        let name = String::from_str(alloc, name)?;
        self.marks
            .push(Mark { name, calls })
            .map_err(AllocError::from)?;
        Ok(())
    }

    /// The number of calls that a text names.
    pub(crate) fn call_number(&self, text: &str) -> Result<u32, StepError> {
        if let Some((name, more)) = text.split_once('+') {
            let calls = self.named_calls(name)?;
            return short(u64::from(calls).saturating_add(number(more)?));
        }
        if let Some((name, less)) = text.split_once('-') {
            let calls = self.named_calls(name)?;
            return fewer(calls, number(less)?);
        }
        self.named_calls(text)
    }

    /// The number of calls that a name or a decimal stands for.
    fn named_calls(&self, name: &str) -> Result<u32, StepError> {
        if name == "now" {
            return Ok(self.store.calls());
        }
        for mark in &self.marks {
            if mark.name.as_str() == name {
                return Ok(mark.calls);
            }
        }
        short_number(name)
    }

    /// Compares what was found with what the line says.
    pub(crate) fn compare(
        &mut self,
        alloc: Global,
        wanted: &str,
        got: &str,
    ) -> Result<(), StepError> {
        if wanted != got {
            return Err(differs(alloc, wanted, got)?);
        }
        self.checks = self.checks.saturating_add(1);
        Ok(())
    }

    /// Compares a number with the one that the line says.
    pub(crate) fn compare_number(
        &mut self,
        alloc: Global,
        wanted: &str,
        got: u64,
    ) -> Result<(), StepError> {
        let got = format!(in alloc; "{got}")?;
        self.compare(alloc, wanted, got.as_str())
    }
}

fn differs(alloc: Global, wanted: &str, got: &str) -> Result<StepError, AllocError> {
    let wanted = String::from_str(alloc, wanted)?;
    let got = String::from_str(alloc, got)?;
    Ok(StepError::Differs { wanted, got })
}
