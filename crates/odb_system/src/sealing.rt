//! An entry that was prepared is sealed, and stands in the rows from then on.
ghost use Rattle.std.specs.Prelude.{◌≡◌, ◌<◌};
ghost use Rattle.odb_device.specs.World.{file_of};
ghost use Rattle.odb_transdb.specs.Turning.{MayStand};
ghost use Rattle.odb_machine.specs.Book.{most_entries};
ghost use Rattle.odb_commit.specs.Parts.{IsAligned, CanSeal, count};
ghost use Rattle.odb_system.specs.Sealed.{FitRows, SealsRows};

use crate::replies::reply_of;
use crate::taking::placed;
use odb_commit::{Book, Ready};
use odb_device::Store;
use odb_keytable::CommittedRows;
use odb_model::{Entry, Reply};
use odb_values::Bytes;
use std::alloc::Global;

/// Seals an entry that the book prepared, with no call of the book between, and puts it behind the
/// entries of the rows: what its session is answered.
///
/// A copy of the entry is made for the rows before a byte is written; where that wants memory the
/// reply is `Memory`, and nothing has changed. From then on no memory is taken.
pub(crate) fn seal<S: Store>(
    book: &mut Book,
    rows: &mut CommittedRows,
    alloc: Global,
    store: &mut S,
    entry: Entry,
    image: Bytes,
) -> Reply
    requires ready { CanSeal book.old entry image }
    requires stands { MayStand book.old.transdb (file_of 0 (S.world store.old)) }
    requires few { count book.old < most_entries }
    requires fit { FitRows book.old rows.old }
    ensures sealed { SealsRows entry image result book.old book.new rows.old rows.new
        (S.world store.old) (S.world store.new) }
    ensures aligned { IsAligned book.new }
    ensures fit { FitRows book.new rows.new }
{
    let Ok(copy) = placed(alloc, &entry) else {
        return Reply::Memory;
    };
    match book.seal(store, Ready::Sealing(entry, image)) {
        Ok(number) => {
            rows.push(copy);
            Reply::Committed(number)
        }
        Err(error) => reply_of(error),
    }
}
