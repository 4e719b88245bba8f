//! A file's bytes, read as rows.
ghost use Rattle.std.specs.Prelude.{◌<◌, vec_len, IfOk};

use crate::expanding::expand;
use crate::{RowError, split_word};
use std::alloc::{AllocError, Global};

/// A line of a row.
#[derive(Debug, Drop)]
pub struct RowLine {
    /// Its number in the file, from 1.
    pub number: u64,
    /// What it says, without blanks at its front.
    pub text: String,
}

/// A row: a name, and lines for a runner to read.
#[derive(Debug, Drop)]
pub struct Row {
    pub name: String,
    /// The row has to be found wrong.
    pub is_wrong: bool,
    /// Neither empty lines nor comments are among them.
    pub lines: Vec<RowLine>,
}

/// The rows of a file, in their order; there is one at least.
pub fn read_rows(alloc: Global, text: &[u8]) -> Result<Vec<Row>, RowError>
    ensures some { IfOk result (λ rows. 0 < vec_len rows) }
{
    let lines = expand(alloc, read_lines(alloc, text)?)?;
    let mut rows = Vec::new(alloc);
    for line in lines {
        take_line(alloc, &mut rows, line)?;
    }
    if rows.is_empty() {
        return Err(RowError::NoRow);
    }
    Ok(rows)
}

/// The lines of a file that say something.
fn read_lines(alloc: Global, text: &[u8]) -> Result<Vec<RowLine>, RowError> {
    let Ok(text) = str::from_utf8(text) else {
        return Err(RowError::NotText);
    };
    let mut lines = Vec::new(alloc);
    let mut number = 0u64;
    for line in text.lines() {
        number = number.saturating_add(1);
        add_line(alloc, &mut lines, number, line.trim_start_matches(' '))?;
    }
    Ok(lines)
}

/// Puts a line behind the others, if it says something.
fn add_line(
    alloc: Global,
    lines: &mut Vec<RowLine>,
    number: u64,
    text: &str,
) -> Result<(), AllocError> {
    if text.is_empty() || text.starts_with('#') {
        return Ok(());
    }
    let text = String::from_str(alloc, text)?;
    lines.push(RowLine { number, text })?;
    Ok(())
}

/// Puts a line into the last row, or begins a row with it.
fn take_line(alloc: Global, rows: &mut Vec<Row>, line: RowLine) -> Result<(), RowError> {
    let (word, rest) = split_word(line.text.as_str());
    if word == "row" {
        return begin_row(alloc, rows, line.number, rest, false);
    }
    let (second, name) = split_word(rest);
    if word == "wrong" && second == "row" {
        return begin_row(alloc, rows, line.number, name, true);
    }
    let number = line.number;
    match rows.last_mut() {
        Some(row) => {
            row.lines.push(line).map_err(AllocError::from)?;
            Ok(())
        }
        None => Err(RowError::OutsideRow { line: number }),
    }
}

/// Begins a row.
fn begin_row(
    alloc: Global,
    rows: &mut Vec<Row>,
    line: u64,
    name: &str,
    is_wrong: bool,
) -> Result<(), RowError> {
    if name.is_empty() {
        return Err(RowError::NoName { line });
    }
    if rows.iter().any(|row| row.name.as_str() == name) {
        return Err(RowError::NameTwice { line });
    }
    let row = Row {
        name: String::from_str(alloc, name)?,
        is_wrong,
        lines: Vec::new(alloc),
    };
    rows.push(row).map_err(AllocError::from)?;
    Ok(())
}
