//! The lines of a file with each `for` written out.

use crate::{RowError, RowLine, number_of, split_word};
use std::alloc::{AllocError, Global};

/// How many lines a file may have once each `for` is written out.
const MOST_LINES: usize = 1 << 20;

/// A `for` whose `end` wasn't read yet.
#[derive(Drop)]
struct Repeat {
    /// The line of the `for`.
    number: u64,
    /// What the number stands in the place of, as `{i}`.
    place: String,
    first: u64,
    last: u64,
    /// How many `for` inside it have no `end` yet.
    open: u64,
    body: Vec<RowLine>,
}

/// Lines, with each outermost `for` before them written out.
#[derive(Drop)]
struct Expansion {
    lines: Vec<RowLine>,
    open: Option<Repeat>,
}

/// The lines with each `for` written out.
pub(crate) fn expand(alloc: Global, lines: Vec<RowLine>) -> Result<Vec<RowLine>, RowError> {
    let once = expand_outermost(alloc, lines)?;
    let twice = expand_outermost(alloc, once)?;
    for line in &twice {
        if split_word(line.text.as_str()).0 == "for" {
            return Err(RowError::TooDeep { line: line.number });
        }
    }
    Ok(twice)
}

/// The lines with each `for` written out that stands in no other.
fn expand_outermost(alloc: Global, lines: Vec<RowLine>) -> Result<Vec<RowLine>, RowError> {
    let mut expansion = Expansion {
        lines: Vec::new(alloc),
        open: None,
    };
    for line in lines {
        expansion.take(alloc, line)?;
    }
    let Expansion { lines, open } = expansion;
    match open {
        Some(repeat) => Err(RowError::NoEnd {
            line: repeat.number,
        }),
        None => Ok(lines),
    }
}

impl Expansion {
    fn take(&mut self, alloc: Global, line: RowLine) -> Result<(), RowError> {
        match self.open.take() {
            Some(repeat) => self.take_inside(alloc, repeat, line),
            None => self.take_outside(alloc, line),
        }
    }

    /// A line that stands in no `for`.
    fn take_outside(&mut self, alloc: Global, line: RowLine) -> Result<(), RowError> {
        let (word, rest) = split_word(line.text.as_str());
        if word == "end" {
            return Err(RowError::EndAlone { line: line.number });
        }
        if word == "for" {
            self.open = Some(read_for(alloc, line.number, rest)?);
            return Ok(());
        }
        self.push(line)
    }

    /// A line that stands behind a `for`.
    fn take_inside(
        &mut self,
        alloc: Global,
        mut repeat: Repeat,
        line: RowLine,
    ) -> Result<(), RowError> {
        let word = split_word(line.text.as_str()).0;
        if word == "end" && repeat.open == 0 {
            return self.repeat(alloc, &repeat);
        }
        if word == "end" {
            repeat.open = repeat.open.saturating_sub(1);
        }
        if word == "for" {
            repeat.open = repeat.open.saturating_add(1);
        }
        repeat.body.push(line).map_err(AllocError::from)?;
        self.open = Some(repeat);
        Ok(())
    }

    /// Writes a `for` out.
    fn repeat(&mut self, alloc: Global, repeat: &Repeat) -> Result<(), RowError> {
        for value in repeat.first..=repeat.last {
            let value = format!(in alloc; "{value}")?;
            self.write_body(alloc, repeat, value.as_str())?;
        }
        Ok(())
    }

    /// Writes what a `for` repeats, once.
    fn write_body(&mut self, alloc: Global, repeat: &Repeat, value: &str) -> Result<(), RowError> {
        for line in &repeat.body {
            let text = line.text.replace(alloc, repeat.place.as_str(), value)?;
            self.push(RowLine {
                number: line.number,
                text,
            })?;
        }
        Ok(())
    }

    fn push(&mut self, line: RowLine) -> Result<(), RowError> {
        if self.lines.len() >= MOST_LINES {
            return Err(RowError::TooLong);
        }
        self.lines.push(line).map_err(AllocError::from)?;
        Ok(())
    }
}

/// Reads what follows a `for`: `NAME FIRST..LAST`, with at most so many numbers as a file may have
/// lines.
fn read_for(alloc: Global, number: u64, text: &str) -> Result<Repeat, RowError> {
    let (name, range) = split_word(text);
    let Some((first, last)) = read_range(range) else {
        return Err(RowError::BadFor { line: number });
    };
    if name.is_empty() || last.saturating_sub(first) >= MOST_LINES as u64 {
        return Err(RowError::BadFor { line: number });
    }
    Ok(Repeat {
        number,
        place: format!(in alloc; "{{{name}}}")?,
        first,
        last,
        open: 0,
        body: Vec::new(alloc),
    })
}

/// Two numbers with `..` between them, the first not above the last.
fn read_range(text: &str) -> Option<(u64, u64)> {
    let (first, last) = text.trim_end_matches(' ').split_once("..")?;
    let first = number_of(first)?;
    let last = number_of(last)?;
    if first > last {
        return None;
    }
    Some((first, last))
}
