//! Writes from the front of some bytes.
ghost use Rattle.std.specs.Prelude.{◌≡◌, ◌≤◌, None, Some, if◌then◌else◌};
ghost use Rattle.std.specs.Option.{option_copied};
ghost use Rattle.odb_codec.specs.Reading.{image_at, is_key, is_above, table_key_before, key_at, row_at, change_at, write_at, writes_at};
ghost use Rattle.odb_codec.specs.Reader.{Gives};

use crate::fault::ReadError;
use crate::number::{u16_at, u32_at};
use crate::value::values_in;
use odb_model::{Write, Writes};
use odb_values::{Frozen, Key, Row, Values, cmp_key, is_keyed, width_of_all};
use std::alloc::Global;
use std::cmp::Ordering;

/// The values in the next `len` bytes, or in as many as there are, and the bytes behind them.
#[tactic(auto, unfolding(crate::specs::Reading::image_at))]
fn image_at(alloc: Global, len: usize, bytes: &[u8]) -> Result<(Values, &[u8]), ReadError>
    ensures { Gives (λ x. (x.0, x.1.now)) result (image_at len bytes.now) }
{
    let (image, rest) = bytes.split_at(len.min(bytes.len()));
    match values_in(alloc, image) {
        Err(ReadError::Memory) => Err(ReadError::Memory),
        Err(ReadError::Fault(left)) => Err(ReadError::Fault(left + rest.len())),
        Ok(values) => {
            if bytes.len() < len {
                return Err(ReadError::Fault(0));
            }
            Ok((values, rest))
        }
    }
}

/// The key that values are, or None where they are none.
#[tactic(auto, unfolding(crate::specs::Reading::is_key))]
pub(crate) fn key_of(values: Values) -> Option<Key>
    ensures { result ≡ (if is_key values then Some values else None) }
{
    if !is_keyed(values.as_slice()) {
        return None;
    }
    Key::new(values).ok()
}

/// Whether a key of a table is above that of the write before it, if there is one.
fn is_above(before: Option<&Write>, table: u32, key: &Key) -> bool
    ensures { result ≡ is_above (table_key_before (option_copied before.entry))
        (record { table = table; key = key.now }) }
{
    match before {
        None => true,
        Some(write) => match write.table.cmp(&table) {
            Ordering::Less => true,
            Ordering::Equal => cmp_key(&write.key, key) == Ordering::Less,
            Ordering::Greater => false,
        },
    }
}

/// The key of a table behind its length, which has to be above that of the write before it.
#[tactic(auto, unfolding(crate::specs::Reading::key_at))]
fn key_at<'a>(
    alloc: Global,
    before: Option<&Write>,
    table: u32,
    bytes: &'a [u8],
) -> Result<(Key, &'a [u8]), ReadError>
    ensures { Gives (λ x. (x.0, x.1.now)) result
        (key_at (table_key_before (option_copied before.entry)) table bytes.now) }
{
    let (len, image) = u16_at(bytes)?;
    let (values, rest) = image_at(alloc, usize::from(len), image)?;
    let Some(key) = key_of(values) else {
        return Err(ReadError::Fault(bytes.len()));
    };
    if !is_above(before, table, &key) {
        return Err(ReadError::Fault(image.len()));
    }
    Ok((key, rest))
}

/// A row behind its length, where the image of the key has `key_width` bytes.
#[tactic(auto, unfolding(crate::specs::Reading::row_at))]
fn row_at(alloc: Global, key_width: usize, bytes: &[u8]) -> Result<(Row, &[u8]), ReadError>
    requires { key_width ≤ 256 }
    ensures { Gives (λ x. (x.0, x.1.now)) result (row_at key_width bytes.now) }
{
    let (len, image) = u16_at(bytes)?;
    let len = usize::from(len);
    let (values, rest) = image_at(alloc, len, image)?;
    if key_width + len > 1006 {
        return Err(ReadError::Fault(bytes.len()));
    }
    Ok((Row::new(values), rest))
}

/// What a write does to its key: None deletes it.
#[tactic(auto, unfolding(crate::specs::Reading::change_at))]
fn change_at(
    alloc: Global,
    key_width: usize,
    bytes: &[u8],
) -> Result<(Option<Row>, &[u8]), ReadError>
    requires { key_width ≤ 256 }
    ensures { Gives (λ x. (x.0, x.1.now)) result (change_at key_width bytes.now) }
{
    match bytes {
        [] => Err(ReadError::Fault(0)),
        [0, rest @ ..] => Ok((None, rest)),
        [1, rest @ ..] => {
            let (row, rest) = row_at(alloc, key_width, rest)?;
            Ok((Some(row), rest))
        }
        [_, ..] => Err(ReadError::Fault(bytes.len())),
    }
}

/// A write, and the bytes behind it.
#[tactic(auto, unfolding(crate::specs::Reading::write_at))]
fn write_at<'a>(
    alloc: Global,
    before: Option<&Write>,
    bytes: &'a [u8],
) -> Result<(Write, &'a [u8]), ReadError>
    ensures { Gives (λ x. (x.0, x.1.now)) result
        (write_at (table_key_before (option_copied before.entry)) bytes.now) }
{
    let (bank, rest) = u32_at(bytes)?;
    let (table, rest) = u32_at(rest)?;
    let (key, rest) = key_at(alloc, before, table, rest)?;
    let (row, rest) = change_at(alloc, width_of_all(key.as_slice()), rest)?;
    Ok((
        Write {
            bank,
            table,
            key,
            row,
        },
        rest,
    ))
}

/// The fewest bytes that the image of a write has: a key of an empty text, which is deleted.
const LEAST_WRITE: usize = 14;

/// So many writes, each to a place above that of the one before it, and the bytes behind them.
/// Places are taken for no more of them than the bytes have room for, whatever the count says.
pub(crate) fn writes_at(
    alloc: Global,
    count: u16,
    bytes: &[u8],
) -> Result<(Writes, &[u8]), ReadError>
    ensures { Gives (λ x. (x.0, x.1.now)) result (writes_at None count bytes.now) }
{
    let places = usize::from(count).min(bytes.len() / LEAST_WRITE);
    let mut writes = Vec::with_capacity(alloc, places)?;
    let mut rest = bytes;
    for _ in 0..count {
        let (write, after) = write_at(alloc, writes.last(), rest)?;
        writes.push(write)?;
        rest = after;
    }
    Ok((Frozen::from_vec(writes), rest))
}
