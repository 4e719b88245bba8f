//! A line of a row taken apart, and what its texts stand for.
use crate::error::LineError;
use odb_rowfile::{TextError, bytes_of_hex, number_of, split_word, unescape};
use std::alloc::{AllocError, Global};

/// The parts of a line: `KIND GIVEN => WANTED`. A line that wants nothing has no `=>`.
#[derive(Clone, Copy)]
pub struct Parts<'a> {
    pub kind: &'a str,
    pub given: &'a str,
    pub wanted: Option<&'a str>,
}

/// Takes a line apart at its first ` =>` and behind its first word.
pub fn parts_of(line: &str) -> Parts<'_> {
    let (front, wanted) = match line.split_once(" =>") {
        Some((front, wanted)) => (front, Some(wanted.trim_start())),
        None => (line, None),
    };
    let (kind, given) = split_word(front);
    Parts {
        kind,
        given,
        wanted,
    }
}

/// The most times that a part of a text is repeated.
const MOST_TIMES: u64 = 1_000_000;

/// The bytes that a text of a line stands for: `{repeat 64 TEXT}` stands for TEXT 64 times, and
/// escapes are undone behind that.
pub fn bytes_of(alloc: Global, text: &str) -> Result<Vec<u8>, LineError> {
    let mut whole = String::new(alloc);
    for (at, piece) in text.split("{repeat ").enumerate() {
        if at == 0 {
            whole.push_str(piece)?;
        } else {
            put_repeated(&mut whole, piece)?;
        }
    }
    bytes_in(unescape(alloc, whole.as_str()))
}

/// The bytes that pairs of hexadecimal digits stand for.
pub fn hex_of(alloc: Global, digits: &str) -> Result<Vec<u8>, LineError> {
    bytes_in(bytes_of_hex(alloc, digits))
}

fn bytes_in(bytes: Result<Vec<u8>, TextError>) -> Result<Vec<u8>, LineError> {
    match bytes {
        Ok(bytes) => Ok(bytes),
        Err(TextError::NoMemory) => Err(LineError::Memory(AllocError)),
        Err(TextError::BadEscape) => Err(LineError::Unreadable("no escape")),
        Err(TextError::BadHex) => Err(LineError::Unreadable("no pairs of hexadecimal digits")),
    }
}

/// Puts a piece of the form `64 TEXT}MORE`.
fn put_repeated(whole: &mut String, piece: &str) -> Result<(), LineError> {
    let Some((inside, behind)) = piece.split_once("}") else {
        return Err(LineError::Unreadable("a repeated part has no end"));
    };
    let (times, part) = split_word(inside);
    let times = match number_of(times) {
        Some(times) if times <= MOST_TIMES => times,
        _ => return Err(LineError::Unreadable("how often is a part repeated?")),
    };
    for _ in 0..times {
        whole.push_str(part)?;
    }
    Ok(whole.push_str(behind)?)
}

/// Puts a text behind what is told.
pub fn put(out: &mut String, text: &str) -> Result<(), LineError> {
    Ok(out.push_str(text)?)
}

/// Puts an item behind others.
pub fn push<T: Drop>(items: &mut Vec<T>, item: T) -> Result<(), LineError> {
    match items.push(item) {
        Ok(()) => Ok(()),
        Err(_) => Err(LineError::Memory(AllocError)),
    }
}

/// Parts what is told from what is told next.
pub fn part(out: &mut String) -> Result<(), AllocError> {
    if out.is_empty() {
        return Ok(());
    }
    out.push_str("; ")
}

/// The word for whether something holds.
pub fn answer(holds: bool) -> &'static str {
    if holds { "yes" } else { "no" }
}
