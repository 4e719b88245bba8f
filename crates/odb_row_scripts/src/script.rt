//! A script with the replies that are wanted, as the lines of a row say it.

use crate::canonical::compare_canonical;
use crate::line::Line;
use crate::replies::{Wanted, compare, joined};
use crate::serial::compare_alone;
use crate::stop::Stop;
use odb_model::Entry;
use std::alloc::{AllocError, Global};

/// A script, the words and the failing calls that it is played with, and the replies to it that are
/// wanted.
#[derive(Drop)]
pub struct Script {
    /// The words of the command line.
    pub words: Vec<String>,
    /// The calls on the host that fail, counted from 0.
    pub failing: Vec<u32>,
    pub text: Vec<u8>,
    pub wanted: Vec<Wanted>,
}

impl Script {
    /// One without a line, to be played by the word `play`.
    pub fn new(alloc: Global) -> Result<Script, AllocError> {
        let mut words = Vec::new(alloc);
        add_word(alloc, &mut words, "play")?;
        Ok(Script {
            words,
            failing: Vec::new(alloc),
            text: Vec::new(alloc),
            wanted: Vec::new(alloc),
        })
    }

    /// Has a line say a part of it, or answers that the line's first word is none of that.
    pub fn read(&mut self, alloc: Global, word: &str, line: Line<'_>) -> Result<bool, Stop> {
        match word {
            "fail" => read_call(alloc, &mut self.failing, line)?,
            "words" => read_words(alloc, &mut self.words, line)?,
            "word" => read_word(alloc, &mut self.words, line)?,
            "<" | "<|" | "<*" => read_text(alloc, &mut self.text, word, line)?,
            ">" | ">|" | ">*" | ">.." => read_wanted(alloc, &mut self.wanted, word, line)?,
            _ => return Ok(false),
        }
        Ok(true)
    }

    /// Compares what was said with what is wanted, and answers how many comparisons that were.
    pub fn compare(&self, alloc: Global, line: u64, said: &[u8]) -> Result<u64, Stop> {
        compare(alloc, line, said, self.wanted.as_slice())
    }

    /// Compares replies to the script with those of its transactions, each run alone behind the
    /// entries before it, and answers how many transactions there were.
    pub fn compare_alone(
        &self,
        alloc: Global,
        line: u64,
        said: &[u8],
        entries: &[Entry],
    ) -> Result<u64, Stop> {
        compare_alone(alloc, line, self.text.as_slice(), said, entries)
    }

    /// The replies that are wanted, one after another.
    pub fn wanted_text(&self, alloc: Global) -> Result<Vec<u8>, AllocError> {
        joined(alloc, self.wanted.as_slice())
    }

    /// The script is the text of a statement, whose copy has the canonical text that is wanted, and
    /// that is its own.
    pub fn compare_canonical(&self, alloc: Global, line: Line<'_>) -> Result<(), Stop> {
        let wanted = self.wanted_text(alloc)?;
        compare_canonical(alloc, line, self.text.as_slice(), wanted.as_slice())
    }
}

/// Puts a word behind others.
fn add_word(alloc: Global, words: &mut Vec<String>, word: &str) -> Result<(), AllocError> {
    let word = String::from_str(alloc, word)?;
    words.push(word).map_err(AllocError::from)
}

fn read_call(alloc: Global, calls: &mut Vec<u32>, mut line: Line<'_>) -> Result<(), Stop> {
    let call = line.small(alloc)?;
    line.end(alloc)?;
    calls.push(call).map_err(AllocError::from)?;
    Ok(())
}

fn read_words(alloc: Global, words: &mut Vec<String>, mut line: Line<'_>) -> Result<(), Stop> {
    words.clear();
    for _ in 0..line.rest.len() {
        let word = line.word();
        if word.is_empty() {
            break;
        }
        add_word(alloc, words, word)?;
    }
    Ok(())
}

fn read_word(alloc: Global, words: &mut Vec<String>, line: Line<'_>) -> Result<(), Stop> {
    let text = line.text(alloc)?;
    match str::from_utf8(text.as_slice()) {
        Ok(word) => Ok(add_word(alloc, words, word)?),
        Err(_) => Err(line.wrong(alloc, "no UTF-8")),
    }
}

/// Puts the text of a line behind a script: as a line of it, as it is, or so many times.
fn read_text(alloc: Global, script: &mut Vec<u8>, sign: &str, line: Line<'_>) -> Result<(), Stop> {
    let text = spelled(alloc, sign, line)?;
    Ok(script.extend_from_slice(text.as_slice())?)
}

/// Puts what a line wants behind what is wanted.
fn read_wanted(
    alloc: Global,
    wanted: &mut Vec<Wanted>,
    sign: &str,
    line: Line<'_>,
) -> Result<(), Stop> {
    let one = wanted_by(alloc, sign, line)?;
    wanted.push(one).map_err(AllocError::from)?;
    Ok(())
}

/// What a line wants to be said.
fn wanted_by(alloc: Global, sign: &str, line: Line<'_>) -> Result<Wanted, Stop> {
    if sign == ">.." {
        line.end(alloc)?;
        return Ok(Wanted {
            line: line.number,
            text: None,
        });
    }
    Ok(Wanted {
        line: line.number,
        text: Some(spelled(alloc, sign, line)?),
    })
}

/// The bytes that a line spells behind its sign: a line with its LF; behind `<|` and `>|` without
/// it; behind `<*` and `>*` a text so many times.
fn spelled(alloc: Global, sign: &str, line: Line<'_>) -> Result<Vec<u8>, Stop> {
    if sign.ends_with('*') {
        return repeated(alloc, line);
    }
    if sign.ends_with('|') {
        return line.text(alloc);
    }
    ended(line.text(alloc)?)
}

/// A text with an LF behind it.
fn ended(mut text: Vec<u8>) -> Result<Vec<u8>, Stop> {
    text.extend_from_slice(b"\n")?;
    Ok(text)
}

/// The text behind a line's number, so many times.
fn repeated(alloc: Global, mut line: Line<'_>) -> Result<Vec<u8>, Stop> {
    let count = line.small(alloc)?;
    let text = line.text(alloc)?;
    Ok(times(alloc, text.as_slice(), count)?)
}

/// A text so many times.
fn times(alloc: Global, text: &[u8], count: u32) -> Result<Vec<u8>, AllocError> {
    let mut bytes = Vec::new(alloc);
    for _ in 0..count {
        bytes.extend_from_slice(text)?;
    }
    Ok(bytes)
}
