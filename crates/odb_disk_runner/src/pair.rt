//! Lines about a pair in file 0.

use crate::bench::Bench;
use odb_pair::{Pair, PairError, value_of};
use odb_row_disks::{StepError, Untold, byte_number};
use odb_rowfile::split_word;
use std::alloc::{AllocError, Global};

impl Bench {
    /// A line about a pair.
    pub(crate) fn use_pair(
        &mut self,
        alloc: Global,
        word: &str,
        rest: &str,
    ) -> Result<(), StepError> {
        match word {
            "format" => self.format(alloc, rest),
            "put" => self.put(alloc, rest),
            "settle" => self.settle(alloc, rest),
            "opens" => self.open_pair(alloc, rest),
            _ => self.keeps(alloc, rest),
        }
    }

    /// `format VALUE ANSWER`
    fn format(&mut self, alloc: Global, rest: &str) -> Result<(), StepError> {
        let (value, wanted) = split_word(rest);
        let value = byte_number(value)?;
        let answer = format_all(&mut self.store, value);
        let word = formatted_word(&answer);
        self.pair = answer.ok();
        self.compare(alloc, wanted, word)
    }

    /// `put VALUE ANSWER`
    fn put(&mut self, alloc: Global, rest: &str) -> Result<(), StepError> {
        let (value, wanted) = split_word(rest);
        let value = byte_number(value)?;
        let Some(pair) = &mut self.pair else {
            return Err(StepError::NothingThere);
        };
        let answer = put_all(pair, &mut self.store, value);
        self.compare(alloc, wanted, done_word(answer))
    }

    /// `settle ANSWER`
    fn settle(&mut self, alloc: Global, wanted: &str) -> Result<(), StepError> {
        let Some(pair) = &mut self.pair else {
            return Err(StepError::NothingThere);
        };
        let answer = settle(pair, &mut self.store);
        self.compare(alloc, wanted, done_word(answer))
    }

    /// `opens FOUND`
    fn open_pair(&mut self, alloc: Global, wanted: &str) -> Result<(), StepError> {
        let answer = open(&mut self.store);
        let found = found_in(alloc, &answer, self.store.file(0));
        self.pair = answer.ok();
        let found = found?;
        self.compare(alloc, wanted, found.as_str())
    }

    /// `keeps VALUE settled`, `keeps VALUE unsettled`
    fn keeps(&mut self, alloc: Global, wanted: &str) -> Result<(), StepError> {
        let Some(pair) = &self.pair else {
            return Err(StepError::NothingThere);
        };
        let got = kept_text(alloc, pair)?;
        self.compare(alloc, wanted, got.as_str())
    }
}

// The calls of a pair, with no clause: what it promises isn't among what is known behind them.

fn format_all(store: &mut Untold, value: u8) -> Result<Pair, PairError> {
    Pair::format(store, 0, &[value; 40])
}

fn put_all(pair: &mut Pair, store: &mut Untold, value: u8) -> Result<(), PairError> {
    pair.put(store, &[value; 40])
}

fn settle(pair: &mut Pair, store: &mut Untold) -> Result<(), PairError> {
    pair.settle(store)
}

fn open(store: &mut Untold) -> Result<Pair, PairError> {
    Pair::open(store, 0)
}

fn kept_text(alloc: Global, pair: &Pair) -> Result<String, AllocError> {
    let value = pair.value()[0];
    if pair.settled() {
        return format!(in alloc; "{value} settled");
    }
    format!(in alloc; "{value} unsettled")
}

fn formatted_word(answer: &Result<Pair, PairError>) -> &'static str {
    match answer {
        Ok(_) => "ok",
        Err(error) => fault_word(*error),
    }
}

/// What opening a pair from its bytes finds.
pub(crate) fn found_by_opening(alloc: Global, store: &mut Untold) -> Result<String, AllocError> {
    let answer = open(store);
    found_in(alloc, &answer, store.file(0))
}

/// What was found in these bytes, which is what the definition says of them.
fn found_in(
    alloc: Global,
    answer: &Result<Pair, PairError>,
    bytes: &[u8],
) -> Result<String, AllocError> {
    let found = match answer {
        Ok(pair) => Ok(pair.value()),
        Err(error) => Err(*error),
    };
    if found != Err(PairError::Fault) && found != value_of(bytes) {
        return String::from_str(alloc, "not what the definition says");
    }
    match found {
        Ok(value) => first_text(alloc, value[0]),
        Err(error) => String::from_str(alloc, fault_word(error)),
    }
}

fn first_text(alloc: Global, value: u8) -> Result<String, AllocError> {
    format!(in alloc; "{value}")
}

fn done_word(answer: Result<(), PairError>) -> &'static str {
    match answer {
        Ok(()) => "ok",
        Err(error) => fault_word(error),
    }
}

fn fault_word(error: PairError) -> &'static str {
    match error {
        PairError::Fault => "fault",
        PairError::NoOpenPlace => "no open place",
        PairError::Malformed => "malformed",
    }
}
