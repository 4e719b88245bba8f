//! Keys and rows from the images in slots.
ghost use Rattle.std.specs.Prelude.{◌≡◌, IfOk};
ghost use Rattle.odb_codec.specs.Reading.{read_key, read_row};
ghost use Rattle.odb_bank.specs.Finding.{given};

use odb_codec::{CodecError, decode_key, decode_row};
use odb_values::{Key, Row};
use std::alloc::{AllocError, Global};

/// The key that all of the bytes are the image of; None where they are no key's. The error is want
/// of memory.
pub(crate) fn key_in(alloc: Global, bytes: &[u8]) -> Result<Option<Key>, AllocError>
    ensures { IfOk result (λ found. found ≡ given (read_key bytes.now)) }
{
    match decode_key(alloc, bytes) {
        Ok(key) => Ok(Some(key)),
        Err(CodecError::Malformed { .. }) => Ok(None),
        Err(CodecError::NoMemory) => Err(AllocError),
    }
}

/// The row that all of the bytes are the image of; None where they are no row's. The error is want
/// of memory.
pub(crate) fn row_in(alloc: Global, bytes: &[u8]) -> Result<Option<Row>, AllocError>
    ensures { IfOk result (λ found. found ≡ given (read_row bytes.now)) }
{
    match decode_row(alloc, bytes) {
        Ok(row) => Ok(Some(row)),
        Err(CodecError::Malformed { .. }) => Ok(None),
        Err(CodecError::NoMemory) => Err(AllocError),
    }
}
