//! Which entry overwrote what was read.
ghost use Rattle.std.specs.Prelude.{◌≡◌, drop};
ghost use Rattle.odb_model.specs.State.{writes_in};
ghost use Rattle.odb_model.specs.Transaction.{first_conflict, overwrites};

use odb_model::{Entry, Read, Write};
use odb_values::Range;
use std::collections::VecDeque;

/// The number of the first entry, from a place on, that overwrites one of the reads, or None where
/// none does. It takes no memory, and looks at no entry before that place.
pub(crate) fn conflict_from(entries: &VecDeque<Entry>, place: usize, reads: &[Read]) -> Option<u64>
    ensures { result ≡ first_conflict reads.now (drop place entries.now.items) }
{
    for index in place..entries.len() {
        let entry = &entries[index];
        if overwrites(reads, entry) {
            return Some(entry.number);
        }
    }
    None
}

/// Whether an entry is later than a read and writes a key of its range.
fn overwrites(reads: &[Read], entry: &Entry) -> bool
    ensures { result ≡ overwrites reads.now entry.now }
{
    reads.iter().any(|read| read.number < entry.number
        && writes_in(&read.range, entry.writes.as_slice()))
}

/// Whether some write is to a key of a range. Of each the table is looked at first.
fn writes_in(range: &Range, writes: &[Write]) -> bool
    ensures { result ≡ writes_in range.now writes.now }
{
    writes
        .iter()
        .any(|write| range.contains(write.table, &write.key))
}
