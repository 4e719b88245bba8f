//! The words and numbers of a line.

use crate::stop::{Stop, unread, wrong};
use odb_rowfile::{bytes_of_hex, number_of, split_word, unescape};
use std::alloc::Global;

/// What is left to be read of a line.
#[derive(Clone, Copy)]
pub struct Line<'a> {
    /// The line's number in its file.
    pub number: u64,
    pub rest: &'a str,
}

impl<'a> Line<'a> {
    /// That the line doesn't hold, or can't be read.
    pub fn wrong(&self, alloc: Global, why: &str) -> Stop {
        wrong(alloc, self.number, why)
    }

    /// The next word, which is empty at the end.
    pub fn word(&mut self) -> &'a str {
        let (word, rest) = split_word(self.rest);
        self.rest = rest;
        word
    }

    /// The next word, which has to be a number.
    pub fn count(&mut self, alloc: Global) -> Result<u64, Stop> {
        match number_of(self.word()) {
            Some(number) => Ok(number),
            None => Err(self.wrong(alloc, "no number where one is wanted")),
        }
    }

    /// The next word, which has to be a number below 2^32.
    pub fn small(&mut self, alloc: Global) -> Result<u32, Stop> {
        match u32::try_from(self.count(alloc)?) {
            Ok(number) => Ok(number),
            Err(_) => Err(self.wrong(alloc, "a number of 2^32 or more")),
        }
    }

    /// Nothing may be left.
    pub fn end(&self, alloc: Global) -> Result<(), Stop> {
        if self.rest.trim_end_matches(' ').is_empty() {
            return Ok(());
        }
        Err(self.wrong(alloc, "more words than are read"))
    }

    /// The bytes that the rest spells with escapes.
    pub fn text(&self, alloc: Global) -> Result<Vec<u8>, Stop> {
        match unescape(alloc, self.rest) {
            Ok(bytes) => Ok(bytes),
            Err(error) => Err(unread(alloc, self.number, error)),
        }
    }

    /// The bytes that the rest spells as pairs of hexadecimal digits.
    pub fn hex(&self, alloc: Global) -> Result<Vec<u8>, Stop> {
        match bytes_of_hex(alloc, self.rest) {
            Ok(bytes) => Ok(bytes),
            Err(error) => Err(unread(alloc, self.number, error)),
        }
    }
}
