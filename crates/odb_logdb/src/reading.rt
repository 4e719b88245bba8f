//! Reading the entries of the log.
ghost use Rattle.std.specs.Prelude.{◌≡◌, ◌⊎◌, ◌-◌, ◌≤◌, false, drop, take, Err, IfOk, IfErr};
ghost use Rattle.odb_device.specs.World.{file_of};
ghost use Rattle.odb_device.specs.Calls.{FileCountRose};
ghost use Rattle.odb_reclog.specs.Told.{IfTold, OnlyReads};
ghost use Rattle.odb_reclog.specs.Standing.{Stands as LogStands};

use crate::opening::open_log;
use crate::{ListState, Logdb, LogdbError};
use odb_device::Store;
use odb_entries::{EntriesError, add_entries};
use odb_model::{Entries, Entry};
use odb_reclog::RecLog;
use odb_values::{Frozen, List};
use std::alloc::Global;

impl Logdb {
    ghost use Rattle.odb_logdb.specs.Standing.{Stands, first_of, next_of, held};
    ghost use Rattle.odb_logdb.specs.Answers.{IsReadAnswer, IsLogOf, GivesFrom};
    ghost use Rattle.odb_logdb.specs.Worlds.{KeepsStanding, AreFrom};

    /// The entries from a number on to `last()`, in order.
    ///
    /// It goes once over the records, those before the number too, in pieces of 65,536 bytes, and
    /// takes memory for one record at a time and for the entries that it gives. Where it isn't known
    /// whether the record behind `last()` is there, the list up to its place is opened first: one
    /// sync, and one walk more. Nothing is written.
    ///
    /// A record that was in order and is so no longer counts as closed: the list ends before it. A
    /// file that is told never shows one.
    ///
    /// - `NotHeld`: exactly where the number is below `first()`.
    /// - `Fault`: a call of the store failed. `NoMemory`: there is none for the entries.
    pub fn entries_from<S: Store>(
        &self,
        alloc: Global,
        store: &mut S,
        from: u64,
    ) -> Result<Entries, LogdbError>
        requires stands { Stands self.now (file_of 1 (S.world store.old)) }
        ensures run { KeepsStanding self.now (S.world store.old) (S.world store.new) }
        ensures stands { Stands self.now (file_of 1 (S.world store.new)) }
        ensures entries { IfTold 1 (S.world store.old) (λ _. IfOk result (λ es.
            es ≡ drop (from - first_of self.now) (held self.now (file_of 1 (S.world store.old))))) }
        ensures numbers { IfOk result (AreFrom self.now from) }
        ensures answer { IsReadAnswer self.now from result }
        ensures cause { result ≡ Err LogdbError.Fault
            → FileCountRose 1 (S.world store.old) (S.world store.new) }
    {
        if from < self.first() {
            return Err(LogdbError::NotHeld {
                first: self.first(),
            });
        }
        match self.state {
            ListState::Known => self.entries_in(alloc, store, &self.log, from),
            ListState::Unknown => self.entries_before(alloc, store, from),
            ListState::Dirty => Ok(Frozen::empty(alloc)),
        }
    }

    /// The entries from a number on to `last()`, where a record behind them is in doubt: by the
    /// list up to its place, where there is no gate to close.
    fn entries_before<S: Store>(
        &self,
        alloc: Global,
        store: &mut S,
        from: u64,
    ) -> Result<Entries, LogdbError>
        requires from { first_of self.now ≤ from }
        requires unknown { self.now.state ≡ ListState.Unknown }
        requires stands { Stands self.now (file_of 1 (S.world store.old)) }
        ensures run { KeepsStanding self.now (S.world store.old) (S.world store.new) }
        ensures stands { Stands self.now (file_of 1 (S.world store.new)) }
        ensures entries { IfTold 1 (S.world store.old) (λ _. IfOk result (λ es.
            es ≡ drop (from - first_of self.now) (held self.now (file_of 1 (S.world store.old))))) }
        ensures numbers { IfOk result (AreFrom self.now from) }
        ensures refusal { IfErr result (λ e. (e ≡ LogdbError.Fault) ⊎ (e ≡ LogdbError.NoMemory)) }
        ensures cause { result ≡ Err LogdbError.Fault
            → FileCountRose 1 (S.world store.old) (S.world store.new) }
    {
        let log = open_log(store, self.start(), self.log.place(), self.fields.first)?;
        self.entries_in(alloc, store, &log, from)
    }

    /// The entries from a number on to `last()`, of the list of this record log.
    fn entries_in<S: Store>(
        &self,
        alloc: Global,
        store: &mut S,
        log: &RecLog,
        from: u64,
    ) -> Result<Entries, LogdbError>
        requires from { first_of self.now ≤ from }
        requires of { IsLogOf self.now log.now }
        requires usable { log.now.in_doubt ≡ false }
        requires stands { LogStands log.now (file_of 1 (S.world store.old)) }
        ensures run { OnlyReads 1 (S.world store.old) (S.world store.new) }
        ensures told { IfTold 1 (S.world store.old) (GivesFrom self.now log.now from result) }
        ensures numbers { IfOk result (AreFrom self.now from) }
        ensures refusal { IfErr result (λ e. (e ≡ LogdbError.Fault) ⊎ (e ≡ LogdbError.NoMemory)) }
        ensures cause { result ≡ Err LogdbError.Fault
            → FileCountRose 1 (S.world store.old) (S.world store.new) }
    {
        let start = self.start();
        let mut entries: List<Entry> = List::new(alloc);
        let most = self.next_number().saturating_sub(from);
        let first = self.fields.first;
        match add_entries(alloc, store, log, start, first, from, &mut entries) {
            Ok(()) => Ok(front_of(entries, most)),
            Err(EntriesError::Damaged { .. }) => Ok(front_of(entries, most)),
            Err(EntriesError::Fault) => Err(LogdbError::Fault),
            Err(EntriesError::NoMemory) => Err(LogdbError::NoMemory),
        }
    }
}

/// The first so many of the entries.
fn front_of(mut entries: List<Entry>, most: u64) -> Entries
    ensures { result ≡ take most entries.items }
{
    entries.truncate(most as usize);
    Frozen::new(entries)
}
