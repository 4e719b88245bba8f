//! The rows of a range.
ghost use Rattle.std.specs.Prelude.{◌≡◌, filter, IfOk, OnOk};
ghost use Rattle.odb_model.specs.State.{table_key_of, after_writes, replay, is_in, part_in};

use crate::Rows;
use odb_model::{Entry, Write};
use odb_values::Range;
use std::alloc::{AllocError, Global};

/// The rows of a range, where a transaction has made its own writes on a history.
///
/// It goes over the whole history once, and takes memory for the rows inside the range, in which
/// only the writes inside the range are copied. The error is want of memory.
pub fn rows_in(
    alloc: Global,
    history: &[Entry],
    write_set: &[Write],
    range: &Range,
) -> Result<Rows, AllocError>
    ensures { IfOk result
        (λ rows. rows ≡ part_in range.now (after_writes (replay history.now) write_set.now)) }
{
    let mut rows = Rows::new(alloc);
    for entry in history {
        put_inside(alloc, &mut rows, range, entry.writes.as_slice())?;
    }
    put_inside(alloc, &mut rows, range, write_set)?;
    Ok(rows)
}

/// Puts those of the writes that are inside the range, the first of them first.
fn put_inside(
    alloc: Global,
    rows: &mut Rows,
    range: &Range,
    writes: &[Write],
) -> Result<(), AllocError>
    ensures { OnOk result (rows.new ≡ after_writes rows.old
        (filter (λ write. is_in range.now (table_key_of write)) writes.now)) }
{
    for write in writes {
        if range.contains(write.table, &write.key) {
            rows.put(alloc, write)?;
        }
    }
    Ok(())
}
