//! Lines on texts of statements: what they parse to, and what refuses them.
use crate::calls::{parsed, printed};
use crate::error::LineError;
use crate::parts::put;
use crate::telling::tell_statement;
use odb_model::Statement;
use odb_parse::ParseError;
use odb_rowfile::{number_of, split_word};
use odb_values::{Bytes, Duplicate};
use std::alloc::{AllocError, Global};
use std::str;

/// `parse TEXT`: the canonical text of the statement that a text gives, which has to give that text
/// again; or the refusal.
pub fn parse_line(alloc: Global, out: &mut String, text: &[u8]) -> Result<(), LineError> {
    match parsed(alloc, text) {
        Ok(statement) => put_canonical(alloc, out, &statement),
        Err(error) => tell_refusal(out, error),
    }
}

/// Puts the canonical text of a statement, and says where it isn't read back as it is.
pub fn put_canonical(
    alloc: Global,
    out: &mut String,
    statement: &Statement,
) -> Result<(), LineError> {
    let printed = printed_copy(alloc, statement)?;
    put_again(alloc, out, printed.as_slice())
}

/// The canonical text of a copy of a statement.
fn printed_copy(alloc: Global, statement: &Statement) -> Result<Bytes, LineError> {
    let copy = statement.copy(alloc)?;
    printed(alloc, &copy)
}

/// Puts a canonical text, and says where it isn't read back as it is.
fn put_again(alloc: Global, out: &mut String, text: &[u8]) -> Result<(), LineError> {
    put_bytes(out, text)?;
    if is_read_back(alloc, text)? {
        return Ok(());
    }
    put(out, ", which isn't read back")
}

/// Whether a text is the canonical one of the statement that it gives.
fn is_read_back(alloc: Global, text: &[u8]) -> Result<bool, LineError> {
    match parsed(alloc, text) {
        Ok(statement) => is_printed(alloc, &statement, text),
        Err(ParseError::NoMemory) => Err(LineError::Memory(AllocError)),
        Err(_) => Ok(false),
    }
}

/// Whether a statement is printed so.
fn is_printed(alloc: Global, statement: &Statement, text: &[u8]) -> Result<bool, LineError> {
    let printed = printed(alloc, statement)?;
    Ok(printed.as_slice() == text)
}

/// Puts bytes that are UTF-8.
pub fn put_bytes(out: &mut String, bytes: &[u8]) -> Result<(), LineError> {
    match str::from_utf8(bytes) {
        Ok(text) => put(out, text),
        Err(_) => put(out, "bytes that are no UTF-8"),
    }
}

/// `tell TEXT`: the statement that a text gives, by its parts, or the refusal.
pub fn tell_line(alloc: Global, out: &mut String, text: &[u8]) -> Result<(), LineError> {
    match parsed(alloc, text) {
        Ok(statement) => put_statement(out, &statement),
        Err(error) => tell_refusal(out, error),
    }
}

fn put_statement(out: &mut String, statement: &Statement) -> Result<(), LineError> {
    Ok(tell_statement(out, statement)?)
}

/// Tells a refusal as its reply names it, with its place: `SYNTAX 6`.
pub(crate) fn tell_refusal(out: &mut String, error: ParseError) -> Result<(), LineError> {
    match error {
        ParseError::BadCharacter { at } => put_place(out, "CHARACTER", at),
        ParseError::OpenText { at } => put_place(out, "TEXT", at),
        ParseError::NumberTooWide { at } => put_place(out, "NUMBER", at),
        ParseError::Unexpected { at } => put_place(out, "SYNTAX", at),
        ParseError::End => put(out, "END"),
        ParseError::NoMemory => Err(LineError::Memory(AllocError)),
    }
}

fn put_place(out: &mut String, word: &str, at: usize) -> Result<(), LineError> {
    Ok(write!(out, "{word} {at}")?)
}

/// `worded REFUSAL`: the words of a refusal that is given as it is told.
pub fn worded_line(out: &mut String, text: &str) -> Result<(), LineError> {
    let (word, place) = split_word(text);
    let at = number_of(place).unwrap_or(0) as usize;
    match refusal_of(word, at) {
        Some(error) => Ok(write!(out, "{error}")?),
        None => Err(LineError::Unreadable("no refusal has this word")),
    }
}

/// The refusal that is told by a word, at this place if it has one.
fn refusal_of(word: &str, at: usize) -> Option<ParseError> {
    match word {
        "CHARACTER" => Some(ParseError::BadCharacter { at }),
        "TEXT" => Some(ParseError::OpenText { at }),
        "NUMBER" => Some(ParseError::NumberTooWide { at }),
        "SYNTAX" => Some(ParseError::Unexpected { at }),
        "END" => Some(ParseError::End),
        "MEMORY" => Some(ParseError::NoMemory),
        _ => None,
    }
}
