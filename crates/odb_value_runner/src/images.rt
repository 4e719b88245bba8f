//! Lines on images of entries, keys and rows: what they are decoded to, and the same image encoded
//! again.
use odb_codec::{
    CodecError, decode_entry, decode_key, decode_row, encode_entry, encode_key, encode_row,
};
use odb_model::{Entry, Write};
use odb_row_values::{LineError, hex_of, part, put, tell_tuple};
use odb_values::{Bytes, Key, Row, Value};
use std::alloc::{AllocError, Global};

/// The number under which images of entries are decoded: it isn't in them.
const NUMBER: u64 = 7;

/// What an image stands for, and the image of that.
#[derive(Drop)]
struct Again<T> {
    found: T,
    image: Bytes,
}

/// `entry-image HEX`: the entry of an image, or the place at which it is malformed.
pub fn entry_image(alloc: Global, out: &mut String, digits: &str) -> Result<(), LineError> {
    let bytes = hex_of(alloc, digits)?;
    match entry_again(alloc, bytes.as_slice()) {
        Ok(again) => tell_entry_again(out, &again, bytes.as_slice()),
        Err(error) => tell_fault(out, error),
    }
}

/// The entry of an image, and its image.
fn entry_again(alloc: Global, bytes: &[u8]) -> Result<Again<Entry>, CodecError> {
    let found = decode_entry(alloc, NUMBER, bytes)?;
    let image = encode_entry(alloc, &found)?;
    Ok(Again { found, image })
}

fn tell_entry_again(out: &mut String, again: &Again<Entry>, bytes: &[u8]) -> Result<(), LineError> {
    tell_entry(out, &again.found)?;
    is_again(out, again.image.as_slice(), bytes)
}

/// `key-image HEX`: the key of an image, or the place at which it is malformed.
pub fn key_image(alloc: Global, out: &mut String, digits: &str) -> Result<(), LineError> {
    let bytes = hex_of(alloc, digits)?;
    match key_again(alloc, bytes.as_slice()) {
        Ok(again) => {
            tell_tuple_again(
                out,
                again.found.as_slice(),
                again.image.as_slice(),
                bytes.as_slice(),
            )
        }
        Err(error) => tell_fault(out, error),
    }
}

/// The key of an image, and its image.
fn key_again(alloc: Global, bytes: &[u8]) -> Result<Again<Key>, CodecError> {
    let found = decode_key(alloc, bytes)?;
    let image = encode_key(alloc, &found)?;
    Ok(Again { found, image })
}

/// `row-image HEX`: the row of an image, or the place at which it is malformed.
pub fn row_image(alloc: Global, out: &mut String, digits: &str) -> Result<(), LineError> {
    let bytes = hex_of(alloc, digits)?;
    match row_again(alloc, bytes.as_slice()) {
        Ok(again) => {
            tell_tuple_again(
                out,
                again.found.as_slice(),
                again.image.as_slice(),
                bytes.as_slice(),
            )
        }
        Err(error) => tell_fault(out, error),
    }
}

/// The row of an image, and its image.
fn row_again(alloc: Global, bytes: &[u8]) -> Result<Again<Row>, CodecError> {
    let found = decode_row(alloc, bytes)?;
    let image = encode_row(alloc, &found)?;
    Ok(Again { found, image })
}

/// Tells values that were decoded from these bytes, and where their image isn't these again.
fn tell_tuple_again(
    out: &mut String,
    values: &[Value],
    image: &[u8],
    bytes: &[u8],
) -> Result<(), LineError> {
    tell_tuple(out, values)?;
    is_again(out, image, bytes)
}

/// Says where what was decoded isn't encoded to the same bytes.
fn is_again(out: &mut String, again: &[u8], bytes: &[u8]) -> Result<(), LineError> {
    if again == bytes {
        return Ok(());
    }
    put(out, ", which is encoded to other bytes")
}

fn tell_fault(out: &mut String, error: CodecError) -> Result<(), LineError> {
    match error {
        CodecError::Malformed { at } => Ok(write!(out, "MALFORMED {at}")?),
        CodecError::NoMemory => Err(LineError::Memory(AllocError)),
    }
}

/// Tells an entry: `7 by 1; put 4 5 (1) (10); delete 4 5 (2)`.
fn tell_entry(out: &mut String, entry: &Entry) -> Result<(), AllocError> {
    let Entry { number, by, writes } = entry;
    write!(out, "{number} by {by}")?;
    tell_writes(out, writes.as_slice())
}

/// Tells writes, each with its databank, its table, its key and its row.
pub fn tell_writes(out: &mut String, writes: &[Write]) -> Result<(), AllocError> {
    for write in writes {
        tell_write(out, write)?;
    }
    Ok(())
}

fn tell_write(out: &mut String, write: &Write) -> Result<(), AllocError> {
    let bank = write.bank;
    let table = write.table;
    let word = if write.row.is_some() { "put" } else { "delete" };
    part(out)?;
    write!(out, "{word} {bank} {table} ")?;
    tell_tuple(out, write.key.as_slice())?;
    match &write.row {
        Some(row) => {
            out.push_str(" ")?;
            tell_tuple(out, row.as_slice())
        }
        None => Ok(()),
    }
}
