//! What the book prepared is carried out.
ghost use Rattle.odb_device.specs.World.{file_of};
ghost use Rattle.odb_commit.specs.Parts.{IsAligned};
ghost use Rattle.odb_system.specs.Durable.{IsDurableBy};
ghost use Rattle.odb_system.specs.Sealed.{FitRows, CanCarry, CarriesRows};

use crate::replies::reply_of;
use crate::sealing::seal;
use odb_commit::{Book, CommitError, Ready};
use odb_device::Store;
use odb_keytable::CommittedRows;
use odb_model::Reply;
use std::alloc::Global;

/// What a session is answered for what the book prepared, with no call of the book between: an entry
/// that is ready is sealed, and nothing else changes anything.
pub(crate) fn carry_out<S: Store>(
    book: &mut Book,
    rows: &mut CommittedRows,
    alloc: Global,
    store: &mut S,
    prepared: Result<Ready, CommitError>,
) -> Reply
    requires ready { CanCarry book.old prepared }
    requires durable { IsDurableBy book.old.halted book.old.transdb
        (file_of 0 (S.world store.old)) }
    requires aligned { IsAligned book.old }
    requires fit { FitRows book.old rows.old }
    ensures carried { CarriesRows prepared result book.old book.new rows.old rows.new
        (S.world store.old) (S.world store.new) }
    ensures aligned { IsAligned book.new }
    ensures fit { FitRows book.new rows.new }
{
    match prepared {
        Ok(ready) => match ready {
            Ready::Ended(number) => Reply::Ended(number),
            Ready::Sealing(entry, image) => seal(book, rows, alloc, store, entry, image),
        },
        Err(error) => reply_of(error),
    }
}
