//! Where a quoted text ends.
ghost use Rattle.std.specs.Prelude.{◌≡◌, ◌+◌, ◌<◌, ◌≤◌, length, drop, IfSome, MatchOption};
ghost use Rattle.std.specs.Str.Lossy.{utf8_valid_len};
ghost use Rattle.odb_lex.specs.Quoted.{text_end, right_len, pair_in};

use crate::LexError;
use crate::runs::{plain_len, unquoted_len};
use std::str;

/// The most bytes of a text's value.
const LONGEST_VALUE: usize = 800;

/// The place behind the quoted text whose first quote stands at `first`.
///
/// It goes over the value in pieces. Each but the last has two quotes behind it, of which the first
/// belongs to the piece.
pub fn text_end(text: &[u8], first: usize) -> Result<usize, LexError>
    requires { first < length text.now }
    ensures { result ≡ text_end first 800 (first + 1) (drop (first + 1) text.now) }
{
    let mut place = first + 1;
    let mut rest = &text[place..];
    let mut most = LONGEST_VALUE;
    while let Some(len) = pair_in(rest) {
        if let Some(wrong) = first_wrong(&rest[..len + 1], most) {
            return Err(LexError::BadCharacter { at: place + wrong });
        }
        most -= len + 1;
        place += len + 2;
        rest = rest.split_at(len + 2).1;
    }
    let len = unquoted_len(rest);
    if let Some(wrong) = first_wrong(&rest[..len], most) {
        return Err(LexError::BadCharacter { at: place + wrong });
    }
    if len == rest.len() {
        return Err(LexError::OpenText { at: first });
    }
    Ok(place + len + 1)
}

/// Where the first quote stands, if another follows it.
pub fn pair_in(bytes: &[u8]) -> Option<usize>
    ensures pair { result ≡ pair_in bytes.now }
    ensures within { IfSome result (λ at. at + 2 ≤ length bytes.now) }
{
    let at = unquoted_len(bytes);
    if bytes[at..].starts_with(b"''") {
        Some(at)
    } else {
        None
    }
}

/// The first wrong byte of a value that may have `most` bytes.
fn first_wrong(value: &[u8], most: usize) -> Option<usize>
    ensures { MatchOption result (right_len most value.now ≡ length value.now)
        (λ at. (at ≡ right_len most value.now) × (at < length value.now)) }
{
    let right = most.min(plain_len(value).min(utf8_len(value)));
    if right < value.len() {
        Some(right)
    } else {
        None
    }
}

/// How long the longest front is that is UTF-8.
fn utf8_len(bytes: &[u8]) -> usize
    ensures { result ≡ utf8_valid_len bytes.now }
{
    match str::from_utf8(bytes) {
        Ok(_) => bytes.len(),
        Err(error) => error.valid_up_to(),
    }
}
