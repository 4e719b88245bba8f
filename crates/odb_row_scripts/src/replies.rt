//! The replies that a play says, line by line.

use crate::stop::{Stop, wrong};
use std::alloc::{AllocError, Global};

/// A line that is wanted among the replies.
#[derive(Drop)]
pub struct Wanted {
    /// The row's line that wants it.
    pub line: u64,
    /// Its bytes with their LF, or None for any number of lines.
    pub text: Option<Vec<u8>>,
}

/// The first line of the bytes, with its LF, and what follows it.
pub(crate) fn first_line(bytes: &[u8]) -> (&[u8], &[u8]) {
    match bytes.iter().position(|byte| *byte == b'\n') {
        Some(at) => bytes.split_at(at + 1),
        None => (bytes, b""),
    }
}

/// Compares what was said with the lines that are wanted, and answers how many comparisons were
/// made: one for each line, and that no more was said.
pub(crate) fn compare(
    alloc: Global,
    line: u64,
    said: &[u8],
    wanted: &[Wanted],
) -> Result<u64, Stop> {
    let mut rest = said;
    let mut skips = false;
    let mut checks = 1u64;
    for one in wanted {
        let Some(text) = &one.text else {
            skips = true;
            continue;
        };
        if skips {
            rest = skip_to(rest, text.as_slice());
        }
        rest = take(alloc, one.line, rest, text.as_slice())?;
        skips = false;
        checks = checks.saturating_add(1);
    }
    if skips || rest.is_empty() {
        return Ok(checks);
    }
    Err(differs(alloc, line, "no more", first_line(rest).0))
}

/// Takes the line that is wanted off what was said.
fn take<'a>(alloc: Global, line: u64, said: &'a [u8], wanted: &[u8]) -> Result<&'a [u8], Stop> {
    let (first, rest) = first_line(said);
    if first == wanted {
        return Ok(rest);
    }
    match shown(alloc, wanted) {
        Ok(wanted) => Err(differs(alloc, line, wanted.as_str(), first)),
        Err(_) => Err(Stop::NoMemory),
    }
}

/// What was said from the first line on that has these bytes; nothing where there is none.
fn skip_to<'a>(said: &'a [u8], wanted: &[u8]) -> &'a [u8] {
    let mut rest = said;
    for _ in 0..said.len() {
        let (first, later) = first_line(rest);
        if first == wanted {
            break;
        }
        rest = later;
    }
    rest
}

/// That another line is wanted than was said.
fn differs(alloc: Global, line: u64, wanted: &str, said: &[u8]) -> Stop {
    match told(alloc, wanted, said) {
        Ok(why) => wrong(alloc, line, why.as_str()),
        Err(_) => Stop::NoMemory,
    }
}

fn told(alloc: Global, wanted: &str, said: &[u8]) -> Result<String, AllocError> {
    let said = shown(alloc, said)?;
    format!(in alloc; "wanted {wanted}, got {said}")
}

/// A line between quotes, without its LF.
fn shown(alloc: Global, line: &[u8]) -> Result<String, AllocError> {
    if line.is_empty() {
        return String::from_str(alloc, "no more");
    }
    let text = String::from_utf8_lossy(alloc, line)?;
    let text = text.trim_end_matches('\n');
    format!(in alloc; "`{text}`")
}

/// The lines that are wanted, one after another.
pub(crate) fn joined(alloc: Global, wanted: &[Wanted]) -> Result<Vec<u8>, AllocError> {
    let mut bytes = Vec::new(alloc);
    for one in wanted {
        if let Some(text) = &one.text {
            bytes.extend_from_slice(text.as_slice())?;
        }
    }
    Ok(bytes)
}
