//! Copies that take no more memory than they need.
ghost use Rattle.std.specs.Prelude.{◌≡◌, IfOk};

use odb_values::{Duplicate, Frozen, Key, Row, Value, Values};
use std::alloc::{AllocError, Global};

/// A copy of a key without places to spare. The error is want of memory.
pub(crate) fn compact_key(alloc: Global, key: &Key) -> Result<Key, AllocError>
    ensures { IfOk result (λ copy. copy ≡ key.now) }
{
    let values = compact(alloc, key.as_slice())?;
    Ok(Key::new(values).unwrap())
}

/// A copy of a row without places to spare. The error is want of memory.
pub(crate) fn compact_row(alloc: Global, row: &Row) -> Result<Row, AllocError>
    ensures { IfOk result (λ copy. copy ≡ row.now) }
{
    Ok(Row::new(compact(alloc, row.as_slice())?))
}

fn compact(alloc: Global, values: &[Value]) -> Result<Values, AllocError>
    ensures { IfOk result (λ copies. copies ≡ values.now) }
{
    let mut copies = Vec::with_capacity(alloc, values.len())?;
    for value in values {
        copies.push(value.copy(alloc)?)?;
    }
    Ok(Frozen::from_vec(copies))
}
