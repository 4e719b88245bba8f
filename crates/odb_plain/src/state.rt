//! The state on which a statement runs.
ghost use Rattle.std.specs.Prelude.{◌≡◌, IfOk, OnOk};
ghost use Rattle.odb_model.specs.State.{after_writes, replay};

use crate::Rows;
use odb_model::{Entry, Write};
use std::alloc::{AllocError, Global};

/// All rows that a history leaves, with a transaction's own writes laid over them.
///
/// It goes over the whole history once, and takes memory for a copy of each row. The error is want
/// of memory.
pub fn state_after(
    alloc: Global,
    history: &[Entry],
    write_set: &[Write],
) -> Result<Rows, AllocError>
    ensures { IfOk result (λ rows. rows ≡ after_writes (replay history.now) write_set.now) }
{
    let mut rows = Rows::new(alloc);
    for entry in history {
        put_all(alloc, &mut rows, entry.writes.as_slice())?;
    }
    put_all(alloc, &mut rows, write_set)?;
    Ok(rows)
}

/// Makes writes, the first of them first.
pub(crate) fn put_all(alloc: Global, rows: &mut Rows, writes: &[Write]) -> Result<(), AllocError>
    ensures { OnOk result (rows.new ≡ after_writes rows.old writes.now) }
{
    for write in writes {
        rows.put(alloc, write)?;
    }
    Ok(())
}
