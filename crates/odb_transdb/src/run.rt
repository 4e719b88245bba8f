//! Reading a run of entries.
ghost use Rattle.std.specs.Prelude.{◌≡◌, ◌⊎◌, ◌-◌, ◌≤◌, true, false, [], ◌∷◌, ◌++◌, drop, Ok, Err, OnOk, OnErr, IfOk, IfErr, IfSome};
ghost use Rattle.odb_device.specs.World.{file_of};
ghost use Rattle.odb_device.specs.Calls.{FileCountRose};
ghost use Rattle.odb_reclog.specs.Told.{IfTold, OnlyReads};
ghost use Rattle.odb_reclog.specs.Standing.{Stands as LogStands};
ghost use Rattle.odb_transdb.specs.Header.{first_held, active_first};
ghost use Rattle.odb_transdb.specs.Answers.{FailsAsRead};
ghost use Rattle.odb_transdb.specs.Leaving.{CanReadSides};
ghost use Rattle.odb_transdb.specs.Walking.{AddsPart, AddsSome, AreUpTo, AreSome, CanBegin, CanStep};
ghost use Rattle.odb_transdb.specs.Runs.{run_upto, IsRun, TellsRun, TellsFront, TellsSide, EndsWith};

use crate::places::Places;
use crate::reading::{Beginning, begin_at, entry_of, record_at};
use crate::{Header, Transdb, TransdbError};
use odb_device::Store;
use odb_model::{Entries, Entry};
use odb_reclog::{RecLog, Window};
use odb_values::{Frozen, List};
use std::alloc::{AllocError, Global};

/// A run that is being read.
#[derive(Debug, Drop)]
struct Run {
    entries: List<Entry>,
    /// How many writes its entries may have in all.
    most: usize,
    /// How many more they may have.
    left: usize,
}

impl Transdb {
    ghost use Rattle.odb_transdb.specs.Opened.{entries_in};
    ghost use Rattle.odb_transdb.specs.Standing.{Stands, IsPlaced};
    ghost use Rattle.odb_transdb.specs.Turning.{MayStand};
    ghost use Rattle.odb_transdb.specs.Runs.{GivesRun};

    /// The run of entries from a number on, which is at least `first()`, in order: as many as have
    /// at most `most_writes` writes in all, and at least one where there is one.
    ///
    /// It reads what `entries` would up to the first entry that isn't in the run, that one too, and
    /// takes memory for one record at a time and for the entries that it gives.
    ///
    /// A record that was in order at the opening and is so no longer counts as closed. A file that
    /// is told never shows one.
    ///
    /// `Fault`: a read failed. `NoMemory`: there is none for the entries.
    pub fn run<S: Store>(
        &self,
        alloc: Global,
        store: &mut S,
        from: u64,
        most_writes: usize,
    ) -> Result<Entries, TransdbError>
        requires usable { self.now.active.in_doubt ≡ false }
        requires from { first_held self.now.header ≤ from }
        requires stands { MayStand self.now (file_of 0 (S.world store.old)) }
        ensures run { OnlyReads 0 (S.world store.old) (S.world store.new) }
        ensures entries { Stands self.now (file_of 0 (S.world store.old))
            → IfSome (file_of 0 (S.world store.old)) (λ f. IfOk result (λ es.
            es ≡ run_upto most_writes
            (drop (from - first_held self.now.header) (entries_in (Some f))))) }
        ensures last { GivesRun most_writes self.now from result (file_of 0 (S.world store.old)) }
        ensures numbers { IfOk result (AreSome from self.now.active.next) }
        ensures placed { IsPlaced self.now }
        ensures refusal { IfErr result (λ e. (e ≡ TransdbError.Fault)
            ⊎ (e ≡ TransdbError.NoMemory)) }
        ensures cause { result ≡ Err TransdbError.Fault
            → FileCountRose 0 (S.world store.old) (S.world store.new) }
    {
        let entries = List::new(alloc);
        let mut run = Run {
            entries,
            most: most_writes,
            left: most_writes,
        };
        match run_sides(
            alloc,
            store,
            &self.header,
            &self.live,
            &self.active,
            &self.live_places,
            &self.places,
            from,
            &mut run,
        ) {
            Ok(()) => Ok(Frozen::new(run.entries)),
            Err(TransdbError::Damaged { .. }) => Ok(Frozen::new(run.entries)),
            Err(TransdbError::NoMemory) => Err(TransdbError::NoMemory),
            Err(_) => Err(TransdbError::Fault),
        }
    }
}

/// Adds the entries of the run from a number on, which is at least that of the first entry held.
///
/// Refuses a record whose payload is no entry, at its place; those before it are added then.
fn run_sides<S: Store>(
    alloc: Global,
    store: &mut S,
    header: &Header,
    live: &Option<RecLog>,
    active: &RecLog,
    live_places: &Places,
    places: &Places,
    from: u64,
    run: &mut Run,
) -> Result<(), TransdbError>
    requires readable { CanReadSides header.now live.now active.now from (S.world store.old) }
    requires usable { active.now.in_doubt ≡ false }
    requires active { LogStands active.now (file_of 0 (S.world store.old)) }
    requires live_steps { IfSome live.now
        (λ log. CanStep log live_places.now (S.world store.old)) }
    requires steps { CanStep active.now places.now (S.world store.old) }
    requires none { (run.old.entries.items ≡ []) × (run.old.left ≡ run.old.most) }
    ensures run { OnlyReads 0 (S.world store.old) (S.world store.new) }
    ensures told { IfTold 0 (S.world store.old)
        (λ bytes. TellsRun run.old.most header.now from run.new.entries.items bytes result) }
    ensures some { AreSome from active.now.next run.new.entries.items }
    ensures fails { FailsAsRead 0 result (S.world store.old) (S.world store.new) }
{
    if run_live(alloc, store, header, live, active, live_places, from, run)? {
        return Ok(());
    }
    let start = header.side_start(header.active);
    let first = header.first_on(header.active);
    let beginning = begin_at(active, places, start, first, from);
    add_run(alloc, store, active, beginning, from, run)?;
    Ok(())
}

/// Adds those of them that a Live side holds, and tells whether the run is over.
fn run_live<S: Store>(
    alloc: Global,
    store: &mut S,
    header: &Header,
    live: &Option<RecLog>,
    active: &RecLog,
    live_places: &Places,
    from: u64,
    run: &mut Run,
) -> Result<bool, TransdbError>
    requires readable { CanReadSides header.now live.now active.now from (S.world store.old) }
    requires live_steps { IfSome live.now
        (λ log. CanStep log live_places.now (S.world store.old)) }
    requires none { (run.old.entries.items ≡ []) × (run.old.left ≡ run.old.most) }
    ensures run { OnlyReads 0 (S.world store.old) (S.world store.new) }
    ensures told { IfTold 0 (S.world store.old)
        (λ bytes. TellsFront run.old.most header.now from run.new.entries.items bytes result) }
    ensures most { run.new.most ≡ run.old.most }
    ensures numbers { result ≡ Ok false
        → AreUpTo from (active_first header.now) run.new.entries.items
        × IsRun run.new.most run.new.left run.new.entries.items }
    ensures some { AreSome from (active_first header.now) run.new.entries.items }
    ensures fails { FailsAsRead 0 result (S.world store.old) (S.world store.new) }
{
    let Some(log) = live else {
        return Ok(false);
    };
    let side = header.other_side();
    let start = header.side_start(side);
    let first = header.first_on(side);
    let beginning = begin_at(log, live_places, start, first, from);
    add_run(alloc, store, log, beginning, from, run)
}

/// Goes over the list of a side from a place on, adds those of its entries that have a number from
/// `from` on and are in the run, and tells whether the run is over.
///
/// It refuses and costs what `add_entries` does, but that it ends at the first entry that isn't in
/// the run.
fn add_run<S: Store>(
    alloc: Global,
    store: &mut S,
    log: &RecLog,
    beginning: Beginning,
    from: u64,
    run: &mut Run,
) -> Result<bool, TransdbError>
    requires usable { log.now.in_doubt ≡ false }
    requires stands { LogStands log.now (file_of log.now.file (S.world store.old)) }
    requires begin { CanBegin log.now from beginning.at beginning.number (S.world store.old) }
    requires is_run { IsRun run.old.most run.old.left run.old.entries.items }
    ensures run { OnlyReads log.now.file (S.world store.old) (S.world store.new) }
    ensures told { IfTold log.now.file (S.world store.old)
        (λ bytes. TellsSide run.old.most log.now from
        run.old.entries.items run.new.entries.items bytes result) }
    ensures most { run.new.most ≡ run.old.most }
    ensures part { result ≡ Ok false → AddsPart from log.now.first log.now.next
        (log.now.place - log.now.start) run.old.entries.items run.new.entries.items
        × IsRun run.new.most run.new.left run.new.entries.items }
    ensures some { AddsSome from log.now.first log.now.next
        run.old.entries.items run.new.entries.items }
    ensures fails { FailsAsRead log.now.file result (S.world store.old) (S.world store.new) }
{
    let end = log.place();
    let next = log.next_number();
    let mut window = Window::new();
    let mut at = beginning.at;
    let mut number = beginning.number;
    while at < end {
        let record = record_at(alloc, store, log, &mut window, at, number)?;
        let entry = entry_of(alloc, record.number, &record.payload, at)?;
        if take(run, entry, number >= from)? {
            return Ok(true);
        }
        at = record.next;
        number += 1;
    }
    if number != next {
        return Err(TransdbError::Damaged { at });
    }
    Ok(false)
}

/// Adds an entry that is wanted where the run may have it, and tells whether the run is over: an
/// entry that isn't its first and has too many writes ends it, and a first one that has too many is
/// all of it.
fn take(run: &mut Run, entry: Entry, wanted: bool) -> Result<bool, AllocError>
    requires { IsRun run.old.most run.old.left run.old.entries.items }
    ensures most { run.new.most ≡ run.old.most }
    ensures unwanted { wanted ≡ false
        → (result ≡ Ok false) × (run.new.entries.items ≡ run.old.entries.items) }
    ensures goes_on { result ≡ Ok false → wanted ≡ true
        → run.new.entries.items ≡ run.old.entries.items ++ entry ∷ [] }
    ensures is_run { result ≡ Ok false → IsRun run.new.most run.new.left run.new.entries.items }
    ensures over { result ≡ Ok true
        → EndsWith run.old.most run.old.entries.items entry run.new.entries.items }
    ensures last { OnOk result ((run.new.entries.items ≡ run.old.entries.items)
        ⊎ (run.new.entries.items ≡ run.old.entries.items ++ entry ∷ [])) }
    ensures err { OnErr result (run.new.entries.items ≡ run.old.entries.items) }
{
    if !wanted {
        return Ok(false);
    }
    let writes = entry.writes.len();
    if writes <= run.left {
        run.entries.reserve()?;
        run.entries.push(entry);
        run.left -= writes;
        return Ok(false);
    }
    if run.entries.is_empty() {
        run.entries.reserve()?;
        run.entries.push(entry);
    }
    Ok(true)
}
