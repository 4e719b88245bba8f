//! Entries taken in: copies of them, for the rows that stand committed.
ghost use Rattle.std.specs.Prelude.{◌≡◌, [], ◌≤◌, length, IfOk};
ghost use Rattle.std.specs.List.{All};
ghost use Rattle.odb_model.specs.State.{replay};
ghost use Rattle.odb_model.specs.Storable.{HaveKeys};

use crate::SystemError;
use odb_keytable::{CommittedRows, Pending, Placed};
use odb_model::{Entries, Entry, Write, Writes};
use odb_values::{Duplicate, Frozen};
use std::alloc::{AllocError, Global};

/// The rows that stand after these entries. The error is want of memory.
///
/// One entry is copied at a time and folded in, in the time of a search for each of its writes, and
/// its memory is given back before the next.
pub(crate) fn rows_after(alloc: Global, entries: Entries) -> Result<CommittedRows, SystemError>
    ensures rows { IfOk result (λ rows. rows ≡ record { state = replay entries; waiting = 0 }) }
    ensures keyed { IfOk result (λ _. All (λ e. HaveKeys e.writes) entries) }
{
    let mut rows = CommittedRows::new(alloc);
    for entry in entries.into_vec() {
        rows.push(placed(alloc, &entry)?);
        rows.settle(alloc)?;
    }
    Ok(rows)
}

/// A copy of an entry, with the memory of its place among those that wait. The error is want of
/// memory.
pub(crate) fn placed(alloc: Global, entry: &Entry) -> Result<Placed, SystemError>
    ensures placed { IfOk result (λ placed. placed ≡ entry.now) }
    ensures keyed { IfOk result (λ _. HaveKeys entry.now.writes) }
{
    let writes = keyed_copies(alloc, entry.writes.as_slice())?;
    Ok(Pending::place(
        alloc,
        Entry {
            number: entry.number,
            by: entry.by,
            writes,
        },
    )?)
}

/// Copies of some writes, whose keys are keys. The error is want of memory.
fn keyed_copies(alloc: Global, writes: &[Write]) -> Result<Writes, AllocError>
    ensures copies { IfOk result (λ copies. copies ≡ writes.now) }
    ensures keyed { IfOk result (λ _. HaveKeys writes.now) }
{
    let mut copies = Vec::with_capacity(alloc, writes.len())?;
    for write in writes {
        let _values = write.key.as_slice();
        copies.push(write.copy(alloc)?)?;
    }
    Ok(Frozen::from_vec(copies))
}
