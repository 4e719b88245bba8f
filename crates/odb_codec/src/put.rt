//! Images, put behind what is there.
ghost use Rattle.std.specs.Prelude.{◌≡◌, ◌+◌, ◌≤◌, length, OnOk};
ghost use Rattle.std.specs.Int.{w16, w32, w64, to_be_bytes, cast_unsigned};
ghost use Rattle.std.specs.List.{All, flat_map};
ghost use Rattle.odb_values.specs.Key.{width_of_all};
ghost use Rattle.odb_codec.specs.Image.{IsTyped, AreTyped, IsTypedWrite, counted, value_image, values_image, write_image};
ghost use Rattle.odb_codec.specs.Written.{Puts};
ghost use Rattle.odb_model.specs.Width.{width_of_write};

use byteorder::{BigEndian, WriteBytesExt};
use odb_model::Write;
use odb_values::{Value, width_of_all};
use std::alloc::AllocError;

/// How many bytes the image of an entry with these writes has.
pub(crate) fn len_of_entry(writes: &[Write]) -> usize
    requires few { length writes.now ≤ 4096 }
    requires narrow { All (λ w. width_of_write w ≤ 1006) writes.now }
    ensures value { result ≡ 3 + length (flat_map write_image writes.now) }
    ensures bound { result ≤ 4173827 }
{
    let mut len = 3;
    for write in writes {
        len += len_of_write(write);
    }
    len
}

/// How many bytes the image of a write has: 11 for its numbers, the length of its key and the flag,
/// 2 for the length of a row, and the key and the row.
fn len_of_write(write: &Write) -> usize
    requires { width_of_write write.now ≤ 1006 }
    ensures value { result ≡ length (write_image write.now) }
    ensures bound { result ≤ 1019 }
{
    let key = width_of_all(write.key.as_slice());
    match &write.row {
        None => 11 + key,
        Some(row) => 13 + key + width_of_all(row.as_slice()),
    }
}

/// Puts the image of a write behind what is there. The error is want of memory.
pub(crate) fn put_write(out: &mut Vec<u8>, write: &Write) -> Result<(), AllocError>
    requires { width_of_write write.now ≤ 1006 }
    ensures image { Puts result out.old.items out.new.items (write_image write.now) }
    ensures typed { OnOk result (IsTypedWrite write.now) }
{
    put_u32(out, write.bank)?;
    put_u32(out, write.table)?;
    put_counted(out, write.key.as_slice())?;
    match &write.row {
        None => out.push(0)?,
        Some(row) => {
            out.push(1)?;
            put_counted(out, row.as_slice())?;
        }
    }
    Ok(())
}

/// Puts a length in 2 bytes, and the images of values.
fn put_counted(out: &mut Vec<u8>, values: &[Value]) -> Result<(), AllocError>
    requires { width_of_all values.now ≤ 1006 }
    ensures image { Puts result out.old.items out.new.items (counted (values_image values.now)) }
    ensures typed { OnOk result (AreTyped values.now) }
{
    put_u16(out, width_of_all(values) as u16)?;
    put_values(out, values)
}

/// Puts the images of values, one after another.
pub(crate) fn put_values(out: &mut Vec<u8>, values: &[Value]) -> Result<(), AllocError>
    ensures image { Puts result out.old.items out.new.items (values_image values.now) }
    ensures typed { OnOk result (AreTyped values.now) }
{
    for value in values {
        put_value(out, value)?;
    }
    Ok(())
}

/// Puts the image of a value.
#[tactic(auto, unfolding(crate::specs::Image::value_image, crate::specs::Image::counted))]
fn put_value(out: &mut Vec<u8>, value: &Value) -> Result<(), AllocError>
    ensures image { Puts result out.old.items out.new.items (value_image value.now) }
    ensures typed { OnOk result (IsTyped value.now) }
{
    match value {
        Value::Null => out.push(0)?,
        Value::Int(number) => {
            out.push(1)?;
            put_i64(out, *number)?;
        }
        Value::Text(text) => {
            let bytes = text.as_bytes();
            out.push(2)?;
            put_u16(out, bytes.len() as u16)?;
            out.extend_from_slice(bytes)?;
        }
    }
    Ok(())
}

/// Puts a number of 2 bytes.
pub(crate) fn put_u16(out: &mut Vec<u8>, number: u16) -> Result<(), AllocError>
    ensures { Puts result out.old.items out.new.items (to_be_bytes w16 number) }
{
    out.write_u16::<BigEndian>(number).map_err(|_| AllocError)
}

/// Puts a number of 4 bytes.
fn put_u32(out: &mut Vec<u8>, number: u32) -> Result<(), AllocError>
    ensures { Puts result out.old.items out.new.items (to_be_bytes w32 number) }
{
    out.write_u32::<BigEndian>(number).map_err(|_| AllocError)
}

/// Puts a number of 8 bytes in two's complement.
fn put_i64(out: &mut Vec<u8>, number: i64) -> Result<(), AllocError>
    ensures { Puts result out.old.items out.new.items (to_be_bytes w64 (cast_unsigned w64 number)) }
{
    out.write_i64::<BigEndian>(number).map_err(|_| AllocError)
}
