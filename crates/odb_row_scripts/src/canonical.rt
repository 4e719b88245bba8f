//! Canonical texts of statements.

use crate::line::Line;
use crate::stop::Stop;
use odb_model::Statement;
use odb_parse::{ParseError, parse};
use odb_print::print_statement;
use odb_values::{Bytes, Duplicate};
use std::alloc::Global;

/// A text is that of a statement, whose copy has this canonical text, and that is its own.
pub(crate) fn compare_canonical(
    alloc: Global,
    line: Line<'_>,
    text: &[u8],
    wanted: &[u8],
) -> Result<(), Stop> {
    compare_printed(alloc, line, text, wanted)?;
    compare_printed(alloc, line, wanted, wanted)
}

/// The statement of a text is printed so.
fn compare_printed(alloc: Global, line: Line<'_>, text: &[u8], wanted: &[u8]) -> Result<(), Stop> {
    let printed = canonical(alloc, line, text)?;
    compare_text(alloc, line, printed.as_slice(), wanted)
}

fn compare_text(alloc: Global, line: Line<'_>, text: &[u8], wanted: &[u8]) -> Result<(), Stop> {
    if text == wanted {
        return Ok(());
    }
    Err(another(alloc, line, text))
}

/// That a text is printed otherwise, as this.
fn another(alloc: Global, line: Line<'_>, text: &[u8]) -> Stop {
    match String::from_utf8_lossy(alloc, text) {
        Ok(text) => line.wrong(alloc, text.as_str()),
        Err(_) => Stop::NoMemory,
    }
}

/// What a copy of the statement of a text is printed as.
fn canonical(alloc: Global, line: Line<'_>, text: &[u8]) -> Result<Bytes, Stop> {
    match parsed(alloc, text) {
        Ok(statement) => printed_copy(alloc, &statement),
        Err(ParseError::NoMemory) => Err(Stop::NoMemory),
        Err(_) => Err(line.wrong(alloc, "the script is no statement")),
    }
}

/// The statement of a text. It has no clause, so that none is known of what is made of it.
fn parsed(alloc: Global, text: &[u8]) -> Result<Statement, ParseError> {
    parse(alloc, text)
}

fn printed_copy(alloc: Global, statement: &Statement) -> Result<Bytes, Stop> {
    let copied = statement.copy(alloc)?;
    printed(alloc, &copied)
}

fn printed(alloc: Global, statement: &Statement) -> Result<Bytes, Stop> {
    match print_statement(alloc, statement) {
        Ok(text) => Ok(text),
        Err(_) => Err(Stop::NoMemory),
    }
}
