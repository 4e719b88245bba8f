//! The words, numbers and bytes that a line spells.
ghost use Rattle.std.specs.Prelude.{◌<◌, length, IfOk};

use crate::TextError;
use std::alloc::{AllocError, Global};

/// The first word of a text, and the rest without the blanks before it. Both are empty where there
/// is no word.
pub fn split_word(text: &str) -> (&str, &str) {
    let text = text.trim_start_matches(' ');
    match text.split_once(' ') {
        Some((word, rest)) => (word, rest.trim_start_matches(' ')),
        None => (text, ""),
    }
}

/// The number that a text of decimal digits spells, if it is below 2^64.
pub fn number_of(text: &str) -> Option<u64> {
    if !text.bytes().all(|byte| byte.is_ascii_digit()) {
        return None;
    }
    text.parse().ok()
}

/// The bytes that a text of pairs of hexadecimal digits spells. Blanks may stand between pairs.
pub fn bytes_of_hex(alloc: Global, digits: &str) -> Result<Vec<u8>, TextError> {
    let mut bytes = Vec::new(alloc);
    let mut first = None;
    for digit in digits.bytes() {
        match first {
            None if digit == b' ' => {}
            None => first = Some(digit),
            Some(high) => {
                push(&mut bytes, hex_pair(high, digit).ok_or(TextError::BadHex)?)?;
                first = None;
            }
        }
    }
    match first {
        Some(_) => Err(TextError::BadHex),
        None => Ok(bytes),
    }
}

/// A text's bytes, with each escape in it undone: `\\`, `\n`, `\r`, `\t`, and `\x` with two
/// hexadecimal digits.
pub fn unescape(alloc: Global, text: &str) -> Result<Vec<u8>, TextError> {
    let mut bytes = Vec::new(alloc);
    let mut rest = text.as_bytes();
    while !rest.is_empty() {
        let (byte, others) = first_of(rest)?;
        push(&mut bytes, byte)?;
        rest = others;
    }
    Ok(bytes)
}

/// The byte that a text with escapes begins with, and what follows it.
fn first_of(text: &[u8]) -> Result<(u8, &[u8]), TextError>
    ensures { IfOk result (λ r. length r.1.now < length text.now) }
{
    match text {
        [b'\\', b'\\', rest @ ..] => Ok((b'\\', rest)),
        [b'\\', b'n', rest @ ..] => Ok((b'\n', rest)),
        [b'\\', b'r', rest @ ..] => Ok((b'\r', rest)),
        [b'\\', b't', rest @ ..] => Ok((b'\t', rest)),
        [b'\\', b'x', high, low, rest @ ..] => {
            let byte = hex_pair(*high, *low).ok_or(TextError::BadEscape)?;
            Ok((byte, rest))
        }
        [] | [b'\\', ..] => Err(TextError::BadEscape),
        [byte, rest @ ..] => Ok((*byte, rest)),
    }
}

/// The byte that two hexadecimal digits spell.
fn hex_pair(high: u8, low: u8) -> Option<u8> {
    let high = char::from(high).to_digit(16)?;
    let low = char::from(low).to_digit(16)?;
    u8::try_from(high * 16 + low).ok()
}

fn push(bytes: &mut Vec<u8>, byte: u8) -> Result<(), AllocError> {
    bytes.push(byte)?;
    Ok(())
}
