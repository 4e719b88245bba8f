//! The book: what a commit is judged by, and what takes its entry.
ghost use Rattle.std.specs.Prelude.{◌≡◌, ◌≢◌, ◌+◌, ◌-◌, ◌<◌, ◌≤◌, None, [], length, IfOk};
ghost use Rattle.odb_device.specs.World.{file_of};
ghost use Rattle.odb_model.specs.Script.{IsSession};
ghost use Rattle.odb_model.specs.Storable.{IsStorableList};
ghost use Rattle.odb_machine.specs.Book.{most_entries};
ghost use Rattle.odb_transdb.specs.Turning.{MayStand};
ghost use Rattle.odb_validate.specs.Window.{last_number};

use crate::{CommitError, Ready};
use odb_codec::encode_entry;
use odb_device::Store;
use odb_model::{Entry, Writes};
use odb_transdb::{Transdb, TransdbError};
use odb_txn::Transaction;
use odb_validate::Window;
use odb_values::Bytes;
use std::alloc::Global;
use std::marker::Model;

/// How many entries a history may have: 2^48.
const MOST_ENTRIES: u64 = 281_474_976_710_656;

/// The bytes of a record before its entry's image.
const RECORD_HEAD: u64 = 13;

/// The log of commits, the window of the last entries of the history, and whether an entry is in
/// doubt. Contracts see it as its `Parts`.
///
/// A commit is made in two steps. `prepare` judges a transaction and takes all memory that its entry
/// wants; `seal` forces the entry's record and puts it into the window, and takes none. So once `seal`
/// is called a commit can't fail for want of memory. What is kept in memory grows with the window, and
/// not with the history.
#[derive(Drop)]
pub struct Book {
    transdb: Transdb,
    window: Window,
    halted: Option<u64>,
}

impl Model for Book {
    ghost use Rattle.odb_commit.specs.Parts.{Parts};

    ghost Value = { Parts };

    ghost view = { λ b. record {
      transdb = b.transdb;
      window = b.window;
      halted = b.halted;
    } };
}

impl Book {
    ghost use Rattle.odb_commit.specs.Parts.{Parts, IsAligned, count, prepared, IsPrepared, entry_after, sealing_of, IsReady, IsLeft, CanSeal};
    ghost use Rattle.odb_commit.specs.Sealing.{SealsReady, IsSealed, SealsEntry, SealsLog};
    ghost use Rattle.odb_commit.specs.Turned.{TurnsLog};

    /// The book of a log that was opened and a window that ends at its last entry. It takes no memory.
    pub fn new(_alloc: Global, transdb: Transdb, window: Window) -> Book
        ensures { result ≡ record { transdb = transdb; window = window; halted = None } }
    {
        Book {
            transdb,
            window,
            halted: None,
        }
    }

    /// How many entries the history has, without the one in doubt.
    pub fn count(&self) -> u64
        ensures { result ≡ count self.now }
    {
        self.window.last()
    }

    /// The number of the entry in doubt. Where there is one nothing is committed until the files are
    /// opened again.
    pub fn halted(&self) -> Option<u64>
        ensures { result ≡ self.now.halted }
    {
        self.halted
    }

    /// The log of commits.
    pub fn transdb(&self) -> &Transdb
        ensures { result.now ≡ self.now.transdb }
    {
        &self.transdb
    }

    /// Judges a transaction, and makes its entry ready where it leaves writes.
    ///
    /// The first of these refuses it, in this order: `Halted`, `Aged`, `Conflict`, and of one that
    /// leaves writes `HistoryFull` and `Full`. `NoMemory` may come in the place of any. After a refusal
    /// the book is as it was. Of the history the entries after the oldest read are looked at; copied
    /// are the net writes alone. Memory is taken for these, their image and one place of the window.
    pub fn prepare(
        &mut self,
        alloc: Global,
        transaction: &Transaction,
    ) -> Result<Ready, CommitError>
        requires { IsAligned self.old }
        ensures prepared { IsPrepared (prepared self.old transaction.now) result }
        ensures left { IsLeft result self.old self.new }
        ensures aligned { IsAligned self.new }
    {
        if let Some(number) = self.halted {
            return Err(CommitError::Halted { number });
        }
        if let Some(number) = self.window.first_conflict(transaction.reads().as_slice())? {
            return Err(CommitError::Conflict { number });
        }
        let writes = transaction.net_writes(alloc)?;
        if writes.is_empty() {
            return Ok(Ready::Ended(self.count()));
        }
        self.prepare_writes(alloc, transaction.session(), writes)
    }

    /// Makes the entry of these writes ready, which a session from 1 to 64 commits: those of a
    /// definition, which reads nothing that a commit is judged by.
    ///
    /// It refuses `HistoryFull` and `Full`, in this order; the caller has asked whether the book is
    /// halted. `NoMemory` may come in the place of either. After a refusal the book is as it was.
    pub fn prepare_writes(
        &mut self,
        alloc: Global,
        session: u32,
        writes: Writes,
    ) -> Result<Ready, CommitError>
        requires settled { self.old.halted ≡ None }
        requires aligned { IsAligned self.old }
        requires session { IsSession session }
        requires some { writes ≢ [] }
        requires storable { IsStorableList writes }
        ensures prepared { IsPrepared
            (sealing_of self.old (entry_after self.old session writes)) result }
        ensures left { IsLeft result self.old self.new }
        ensures aligned { IsAligned self.new }
    {
        let count = self.count();
        if MOST_ENTRIES <= count {
            return Err(CommitError::HistoryFull);
        }
        let entry = Entry {
            number: count + 1,
            by: session,
            writes,
        };
        let Ok(image) = encode_entry(alloc, &entry) else {
            return Err(CommitError::NoMemory);
        };
        let need = RECORD_HEAD + image.len() as u64;
        let room = self.transdb.room();
        if room < need {
            return Err(CommitError::Full { need, room });
        }
        self.window.reserve()?;
        Ok(Ready::Sealing(entry, image))
    }

    /// Forces the record of an entry that `prepare` made ready, with no other call between, and puts the
    /// entry behind the others; answers its number once it is on the disk. It takes no memory.
    ///
    /// It costs what `Transdb::force` costs; behind a `turn` that failed the header is put once more
    /// before all else. At each moment a crash leaves the entries before, or those and this one.
    ///
    /// - `FaultBefore`: a call of the store failed before the record's gate was written, and the entry
    ///   isn't there. The transaction may be prepared again.
    /// - `InDoubt`: a call failed from the gate's write on. A crash leaves the entry or not, and the
    ///   book is halted.
    pub fn seal<S: Store>(&mut self, store: &mut S, ready: Ready) -> Result<u64, CommitError>
        requires ready { IsReady self.old ready }
        requires stands { MayStand self.old.transdb (file_of 0 (S.world store.old)) }
        ensures sealed { SealsReady ready result self.old self.new }
        ensures log { SealsEntry ready result self.old.transdb self.new.transdb
            (S.world store.old) (S.world store.new) }
        ensures aligned { IsAligned self.new }
    {
        match ready {
            Ready::Ended(_) => unreachable!(),
            Ready::Sealing(entry, image) => self.seal_entry(store, entry, image),
        }
    }

    /// Makes the other side of the log active, where that is Clean: the next entry is its first, and
    /// the side that was active is Live. It takes no memory.
    ///
    /// It costs what `Transdb::turn` costs. At each moment a crash leaves the same entries.
    ///
    /// - `NotClean`: the other side isn't Clean. No call of the store was made.
    /// - `Fault`: a call of the store failed. All is as before but that a crash may leave either
    ///   header; it may be called again, and so may all else.
    pub fn turn<S: Store>(&mut self, store: &mut S) -> Result<(), TransdbError>
        requires settled { self.old.halted ≡ None }
        requires aligned { IsAligned self.old }
        requires few { count self.old ≤ most_entries }
        requires stands { MayStand self.old.transdb (file_of 0 (S.world store.old)) }
        ensures log { TurnsLog result self.old.transdb self.new.transdb
            (S.world store.old) (S.world store.new) }
        ensures rest { self.new ≡ record self.old { transdb = self.new.transdb } }
        ensures aligned { IsAligned self.new }
    {
        self.transdb.turn(store)
    }

    /// Forces the record of an entry with this image, and puts it behind the others.
    fn seal_entry<S: Store>(
        &mut self,
        store: &mut S,
        entry: Entry,
        image: Bytes,
    ) -> Result<u64, CommitError>
        requires ready { CanSeal self.old entry image }
        requires stands { MayStand self.old.transdb (file_of 0 (S.world store.old)) }
        ensures sealed { IsSealed entry result self.old self.new }
        ensures log { SealsLog entry image result self.old.transdb self.new.transdb
            (S.world store.old) (S.world store.new) }
        ensures aligned { IsAligned self.new }
    {
        match self.transdb.force(store, image.as_slice()) {
            Ok(number) => {
                self.window.push(entry);
                Ok(number)
            }
            Err(error) => match error {
                TransdbError::FaultBefore => Err(CommitError::FaultBefore),
                TransdbError::InDoubt { number } => {
                    self.halted = Some(number);
                    Err(CommitError::InDoubt { number })
                }
                TransdbError::Full { .. }
                | TransdbError::NoDatabase
                | TransdbError::Damaged { .. }
                | TransdbError::NotClean
                | TransdbError::Held { .. }
                | TransdbError::Fault
                | TransdbError::NoMemory => unreachable!(),
            },
        }
    }
}
