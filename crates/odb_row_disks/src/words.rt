//! The numbers, bytes and picks that a line spells.

use crate::error::StepError;
use odb_rowfile::{bytes_of_hex, number_of};
use std::alloc::{AllocError, Global};

/// How many digits say what a crash leaves.
const DIGITS: usize = 40;

/// What `*` stands for.
const PICKS: [&str; 5] = ["old", "new", "a5", "210", "012"];

/// A decimal, or the reason why there is none.
pub fn number(text: &str) -> Result<u64, StepError> {
    number_of(text.trim_end_matches(' ')).ok_or(StepError::Unreadable)
}

/// A decimal below 2^32.
pub fn short_number(text: &str) -> Result<u32, StepError> {
    short(number(text)?)
}

/// A number that has to be below 2^32.
pub fn short(number: u64) -> Result<u32, StepError> {
    match u32::try_from(number) {
        Ok(short) => Ok(short),
        Err(_) => Err(StepError::Unreadable),
    }
}

/// A number less another that has to be no greater.
pub fn fewer(number: u32, less: u64) -> Result<u32, StepError> {
    match u64::from(number).checked_sub(less) {
        Some(left) => short(left),
        None => Err(StepError::Unreadable),
    }
}

/// A decimal below 2^8.
pub fn byte_number(text: &str) -> Result<u8, StepError> {
    match u8::try_from(number(text)?) {
        Ok(byte) => Ok(byte),
        Err(_) => Err(StepError::Unreadable),
    }
}

/// Bytes by hexadecimal digits, or none by the word `nothing`; a text without digits spells none.
pub fn bytes_of(alloc: Global, text: &str) -> Result<Vec<u8>, StepError> {
    let text = text.trim_end_matches(' ');
    if text == "nothing" {
        return Ok(Vec::new(alloc));
    }
    let bytes = bytes_of_hex(alloc, text)?;
    if bytes.is_empty() {
        return Err(StepError::Unreadable);
    }
    Ok(bytes)
}

/// One byte by two hexadecimal digits.
pub fn byte_of(alloc: Global, text: &str) -> Result<u8, StepError> {
    match bytes_of(alloc, text)?.as_slice() {
        [byte] => Ok(*byte),
        _ => Err(StepError::Unreadable),
    }
}

/// Bytes as hexadecimal digits; `nothing` where there are none.
pub fn hex_of(alloc: Global, bytes: &[u8]) -> Result<String, AllocError> {
    if bytes.is_empty() {
        return String::from_str(alloc, "nothing");
    }
    let mut text = String::new(alloc);
    for byte in bytes {
        write!(text, "{byte:02x}")?;
    }
    Ok(text)
}

/// The picks of a list of words.
pub fn picks_of(alloc: Global, text: &str) -> Result<Vec<u64>, StepError> {
    let mut picks = Vec::new(alloc);
    for word in text.split_whitespace() {
        if word == "*" {
            add_all(&mut picks)?;
        } else {
            add(&mut picks, pick_of(word).ok_or(StepError::Unreadable)?)?;
        }
    }
    if picks.is_empty() {
        return Err(StepError::Unreadable);
    }
    Ok(picks)
}

fn add_all(picks: &mut Vec<u64>) -> Result<(), AllocError> {
    for word in PICKS {
        add(picks, pick_of(word).unwrap_or(0))?;
    }
    Ok(())
}

fn add(picks: &mut Vec<u64>, pick: u64) -> Result<(), AllocError> {
    picks.push(pick)?;
    Ok(())
}

/// The number whose lowest 40 digits to base 3 are those that a word names, the lowest first.
fn pick_of(word: &str) -> Option<u64> {
    let digits = match word {
        "old" => "0",
        "new" => "1",
        "a5" => "2",
        _ => word,
    };
    let mut pick = 0u64;
    for at in 0..DIGITS {
        let digit = digit_at(digits.as_bytes(), DIGITS - 1 - at)?;
        pick = pick.saturating_mul(3).saturating_add(digit);
    }
    Some(pick)
}

/// A digit of a list of digits that is said over and over.
fn digit_at(digits: &[u8], at: usize) -> Option<u64> {
    if digits.is_empty() {
        return None;
    }
    match digits[at % digits.len()] {
        b'0' => Some(0),
        b'1' => Some(1),
        b'2' => Some(2),
        _ => None,
    }
}
