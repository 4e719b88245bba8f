//! The images of entries, keys and rows.
ghost use Rattle.std.specs.Prelude.{◌≡◌, ◌≤◌, length, IfErr, IfOk, OnOk};
ghost use Rattle.odb_values.specs.Key.{width_of_all};
ghost use Rattle.odb_codec.specs.Image.{IsStorable, HasImage, KeyHasImage, RowHasImage, AreTyped, entry_image, values_image};

use crate::CodecError;
use crate::put::{len_of_entry, put_u16, put_values, put_write};
use odb_model::Entry;
use odb_values::{Bytes, Frozen, Key, Row, Value, width_of_all};
use std::alloc::{AllocError, Global};

/// The one image of an entry; its number isn't in it.
///
/// The condition is what the types don't say: a session from 1 to 64, and 1 to 4,096 writes in
/// ascending order of table and key, each with a key and a row of at most 1,006 bytes together. It
/// costs two passes, the first for the length, and one buffer of that length. The error is want of
/// memory.
pub fn encode_entry(alloc: Global, e: &Entry) -> Result<Bytes, CodecError>
    requires { IsStorable e.now }
    ensures image { IfOk result (λ bytes. bytes ≡ entry_image e.now) }
    ensures lawful { OnOk result (HasImage e.now) }
    ensures short { IfOk result (λ bytes. length bytes ≤ 4173827) }
    ensures refusal { IfErr result (λ error. error ≡ CodecError.NoMemory) }
{
    let writes = e.writes.as_slice();
    let mut out = Vec::with_capacity(alloc, len_of_entry(writes))?;
    out.push(e.by as u8)?;
    put_u16(&mut out, writes.len() as u16)?;
    for write in writes {
        put_write(&mut out, write)?;
    }
    Ok(Frozen::from_vec(out))
}

/// The one image of a key; each key has one. It costs two passes over the values and one buffer of
/// the image's length. The error is want of memory.
pub fn encode_key(alloc: Global, key: &Key) -> Result<Bytes, CodecError>
    ensures image { IfOk result (λ bytes. bytes ≡ values_image key.now) }
    ensures lawful { OnOk result (KeyHasImage key.now) }
    ensures width { IfOk result (λ bytes. length bytes ≡ width_of_all key.now) }
    ensures refusal { IfErr result (λ error. error ≡ CodecError.NoMemory) }
{
    Ok(encode_values(alloc, key.as_slice())?)
}

/// The one image of a row by itself, which the condition keeps to 1,006 bytes. It costs two passes
/// over the values and one buffer of the image's length. The error is want of memory.
pub fn encode_row(alloc: Global, row: &Row) -> Result<Bytes, CodecError>
    requires { width_of_all row.now ≤ 1006 }
    ensures image { IfOk result (λ bytes. bytes ≡ values_image row.now) }
    ensures lawful { OnOk result (RowHasImage row.now) }
    ensures width { IfOk result (λ bytes. length bytes ≡ width_of_all row.now) }
    ensures refusal { IfErr result (λ error. error ≡ CodecError.NoMemory) }
{
    Ok(encode_values(alloc, row.as_slice())?)
}

/// The images of values, one after another.
fn encode_values(alloc: Global, values: &[Value]) -> Result<Bytes, AllocError>
    requires { width_of_all values.now ≤ 1006 }
    ensures image { IfOk result (λ bytes. bytes ≡ values_image values.now) }
    ensures typed { OnOk result (AreTyped values.now) }
    ensures width { IfOk result (λ bytes. length bytes ≡ width_of_all values.now) }
{
    let mut out = Vec::with_capacity(alloc, width_of_all(values))?;
    put_values(&mut out, values)?;
    Ok(Frozen::from_vec(out))
}
