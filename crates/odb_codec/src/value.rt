//! Values from the front of some bytes.
ghost use Rattle.std.specs.Prelude.{◌≡◌, ◌≤◌, length, IfOk, if◌then◌else◌};
ghost use Rattle.odb_codec.specs.Reading.{is_text, text_at, behind_kind, value_at, values_in};
ghost use Rattle.odb_codec.specs.Reader.{Gives};

use crate::fault::ReadError;
use crate::number::{u16_at, u64_at};
use odb_values::{Frozen, Text, Value, Values};
use std::alloc::{AllocError, Global};

/// The text that the bytes are, or None where they are none. The error is want of memory, which
/// only a text asks for.
#[tactic(auto, unfolding(crate::specs::Reading::is_text))]
fn text_of(alloc: Global, bytes: &[u8]) -> Result<Option<Text>, AllocError>
    ensures { IfOk result (λ text. text ≡ (if is_text bytes.now then Some bytes.now else None)) }
{
    match str::from_utf8(bytes) {
        Err(_) => Ok(None),
        Ok(text) => Text::from_str(alloc, text),
    }
}

/// A text behind its length.
#[tactic(auto, unfolding(crate::specs::Reading::text_at))]
fn text_at(alloc: Global, bytes: &[u8]) -> Result<(Text, &[u8]), ReadError>
    ensures { Gives (λ x. (x.0, x.1.now)) result (text_at bytes.now) }
{
    let (len, rest) = u16_at(bytes)?;
    let len = usize::from(len);
    if rest.len() < len {
        return Err(ReadError::Fault(bytes.len()));
    }
    let (text, rest) = rest.split_at(len);
    match text_of(alloc, text)? {
        None => Err(ReadError::Fault(bytes.len())),
        Some(text) => Ok((text, rest)),
    }
}

/// What stands behind the kind of a value.
#[tactic(auto, unfolding(crate::specs::Reading::behind_kind))]
fn behind_kind(alloc: Global, kind: u8, bytes: &[u8]) -> Result<(Value, &[u8]), ReadError>
    ensures { Gives (λ x. (x.0, x.1.now)) result (behind_kind kind bytes.now) }
{
    match kind {
        0 => Ok((Value::Null, bytes)),
        1 => {
            let (bits, rest) = u64_at(bytes)?;
            Ok((Value::Int(bits.cast_signed()), rest))
        }
        2 => {
            let (text, rest) = text_at(alloc, bytes)?;
            Ok((Value::Text(text), rest))
        }
        _ => Err(ReadError::Fault(bytes.len())),
    }
}

/// A value, and the bytes behind it. Where anything of it is at fault, its first byte is.
#[tactic(auto, unfolding(crate::specs::Reading::value_at))]
fn value_at(alloc: Global, bytes: &[u8]) -> Result<(Value, &[u8]), ReadError>
    ensures { Gives (λ x. (x.0, x.1.now)) result (value_at bytes.now) }
{
    match bytes {
        [] => Err(ReadError::Fault(0)),
        [kind, rest @ ..] => match behind_kind(alloc, *kind, rest) {
            Ok(value) => Ok(value),
            Err(ReadError::Memory) => Err(ReadError::Memory),
            Err(ReadError::Fault(_)) => Err(ReadError::Fault(bytes.len())),
        },
    }
}

/// How many values the bytes have, where they are whole, else some number of at most the bytes. It
/// looks at each value's kind and at a text's length alone.
fn value_count(bytes: &[u8]) -> usize
    ensures { result ≤ length bytes.now }
{
    let mut count = 0;
    let mut rest = bytes;
    while let [kind, behind @ ..] = rest {
        rest = behind
            .split_at(len_behind(*kind, behind).min(behind.len()))
            .1;
        count += 1;
    }
    count
}

/// How many bytes of a value stand behind its kind, where it is whole.
fn len_behind(kind: u8, bytes: &[u8]) -> usize {
    match kind {
        1 => 8,
        2 => match u16_at(bytes) {
            Ok((len, _)) => 2 + usize::from(len),
            Err(_) => 0,
        },
        _ => 0,
    }
}

/// The values that take all of the bytes. It costs one pass for the places that they want and one
/// for the values, and memory in their number, which is at most that of the bytes.
pub(crate) fn values_in(alloc: Global, bytes: &[u8]) -> Result<Values, ReadError>
    ensures { Gives (λ values. values) result (values_in bytes.now) }
{
    let mut values = Vec::with_capacity(alloc, value_count(bytes))?;
    let mut rest = bytes;
    while !rest.is_empty() {
        let (value, after) = value_at(alloc, rest)?;
        values.push(value)?;
        rest = after;
    }
    Ok(Frozen::from_vec(values))
}
