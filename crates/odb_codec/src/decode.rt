//! Entries, keys and rows from their images.
ghost use Rattle.std.specs.Prelude.{◌≡◌, ℕ, ◌-◌, ◌≤◌, List, length, IfOk, Err};
ghost use Rattle.odb_values.specs.declared.value.Value.{Value};
ghost use Rattle.odb_model.specs.declared.entry.Entry.{Entry};
ghost use Rattle.odb_codec.specs.Image.{HasImage, KeyHasImage, RowHasImage, IsEntryImage, entry_image, numbered, values_image};
ghost use Rattle.odb_codec.specs.Reading.{IsFirstFault, read_entry, read_key, read_row};
ghost use Rattle.odb_codec.specs.Reader.{Gives, GivesOrNoMemory};

use crate::CodecError;
use crate::fault::ReadError;
use crate::number::{count_at, session_at};
use crate::value::values_in;
use crate::write::{key_of, writes_at};
use odb_model::Entry;
use odb_values::{Key, Row};
use std::alloc::Global;

/// The entry of this number that all of the bytes are the image of.
///
/// Malformed comes exactly where they are no image of an entry, with the place of the first field
/// that is at fault; docs/FORMATS.md has the fields. It costs one pass, up to that place, and
/// memory for the writes as they are read: bytes that spell no entry take no more than a fixed
/// number of bytes for each of theirs.
pub fn decode_entry(alloc: Global, number: u64, bytes: &[u8]) -> Result<Entry, CodecError>
    ensures found { IfOk result (IsEntryImage number bytes.now) }
    ensures only { (e : Entry) → HasImage e → bytes.now ≡ entry_image e →
        GivesOrNoMemory result (numbered number e) }
    ensures malformed { (at : ℕ) → result ≡ Err (CodecError.Malformed at) →
        IsFirstFault (read_entry number bytes.now) bytes.now at }
{
    match read_entry(alloc, number, bytes) {
        Ok(entry) => Ok(entry),
        Err(ReadError::Memory) => Err(CodecError::NoMemory),
        Err(ReadError::Fault(left)) => Err(malformed(bytes, left)),
    }
}

/// The key that all of the bytes are the image of.
///
/// Malformed comes exactly where they are no image of a key: at the first byte of the value that is
/// at fault, or at 0 where all values are whole and are no key. It costs one pass and memory for
/// the values.
pub fn decode_key(alloc: Global, bytes: &[u8]) -> Result<Key, CodecError>
    ensures found { IfOk result (λ key. KeyHasImage key × (bytes.now ≡ values_image key)) }
    ensures only { (key : List Value) → KeyHasImage key → bytes.now ≡ values_image key →
        GivesOrNoMemory result key }
    ensures malformed { (at : ℕ) → result ≡ Err (CodecError.Malformed at) →
        IsFirstFault (read_key bytes.now) bytes.now at }
{
    match read_key(alloc, bytes) {
        Ok(key) => Ok(key),
        Err(ReadError::Memory) => Err(CodecError::NoMemory),
        Err(ReadError::Fault(left)) => Err(malformed(bytes, left)),
    }
}

/// The row that all of the bytes are the image of; of no bytes it is the empty row.
///
/// Malformed comes exactly where they are no image of a row: at the first byte of the value that is
/// at fault, or at 0 where all values are whole and have more than 1,006 bytes. It costs one pass
/// and memory for the values.
pub fn decode_row(alloc: Global, bytes: &[u8]) -> Result<Row, CodecError>
    ensures found { IfOk result (λ row. RowHasImage row × (bytes.now ≡ values_image row)) }
    ensures only { (row : List Value) → RowHasImage row → bytes.now ≡ values_image row →
        GivesOrNoMemory result row }
    ensures malformed { (at : ℕ) → result ≡ Err (CodecError.Malformed at) →
        IsFirstFault (read_row bytes.now) bytes.now at }
{
    match read_row(alloc, bytes) {
        Ok(row) => Ok(row),
        Err(ReadError::Memory) => Err(CodecError::NoMemory),
        Err(ReadError::Fault(left)) => Err(malformed(bytes, left)),
    }
}

/// The refusal of bytes where so many are left from the faulty field on.
fn malformed(bytes: &[u8], left: usize) -> CodecError
    requires { left ≤ length bytes.now }
    ensures { result ≡ CodecError.Malformed (length bytes.now - left) }
{
    CodecError::Malformed {
        at: (bytes.len() - left) as u64,
    }
}

#[tactic(auto, unfolding(crate::specs::Reading::read_entry))]
fn read_entry(alloc: Global, number: u64, bytes: &[u8]) -> Result<Entry, ReadError>
    ensures { Gives (λ e. e) result (read_entry number bytes.now) }
{
    let (by, rest) = session_at(bytes)?;
    let (count, rest) = count_at(rest)?;
    let (writes, rest) = writes_at(alloc, count, rest)?;
    if !rest.is_empty() {
        return Err(ReadError::Fault(rest.len()));
    }
    Ok(Entry {
        number,
        by: u32::from(by),
        writes,
    })
}

#[tactic(auto, unfolding(crate::specs::Reading::read_key))]
fn read_key(alloc: Global, bytes: &[u8]) -> Result<Key, ReadError>
    ensures { Gives (λ key. key) result (read_key bytes.now) }
{
    key_of(values_in(alloc, bytes)?).ok_or(ReadError::Fault(bytes.len()))
}

#[tactic(auto, unfolding(crate::specs::Reading::read_row))]
fn read_row(alloc: Global, bytes: &[u8]) -> Result<Row, ReadError>
    ensures { Gives (λ row. row) result (read_row bytes.now) }
{
    let values = values_in(alloc, bytes)?;
    if bytes.len() > 1006 {
        return Err(ReadError::Fault(bytes.len()));
    }
    Ok(Row::new(values))
}
