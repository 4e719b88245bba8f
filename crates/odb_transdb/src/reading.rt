//! Reading the entries that TRANSDB holds.
ghost use Rattle.std.specs.Prelude.{◌≡◌, ◌≢◌, ◌⊎◌, ◌+◌, ◌-◌, ◌^◌, ◌<◌, ◌≤◌, true, false, [], ◌∷◌, ◌++◌, drop, length, slice_index, Err, Some, OnOk, OnErr, IfOk, IfErr, IfSome};
ghost use Rattle.odb_device.specs.World.{World, file_of};
ghost use Rattle.odb_device.specs.Calls.{FileCountRose};
ghost use Rattle.odb_reclog.specs.Told.{IfTold, OnlyReads};
ghost use Rattle.odb_reclog.specs.Reading.{CanRead};
ghost use Rattle.odb_reclog.specs.Records.{HEAD, end_of_list};
ghost use Rattle.odb_reclog.specs.Standing.{Stands as LogStands};
ghost use Rattle.odb_reclog.specs.Windows.{Shows};
ghost use Rattle.odb_model.specs.Width.{records_width};
ghost use Rattle.odb_transdb.specs.Header.{side_start, first_on, first_held, active_first};
ghost use Rattle.odb_transdb.specs.Opened.{entries_from};
ghost use Rattle.odb_transdb.specs.Kept.{AreSteps};
ghost use Rattle.odb_transdb.specs.Answers.{IsReadRefusal, FailsAsRead};
ghost use Rattle.odb_transdb.specs.Leaving.{CanReadSides};
ghost use Rattle.odb_transdb.specs.Walking.{live_read, sides_read, log_entries, log_record, IsReadOf, IsRecordOf, IsEntryOf, AddsPart, AddsPayloads, AddsSome, AreUpTo, AreSome, CanBegin, CanStep};

use crate::places::{Places, STEP};
use crate::transdb::HEAD_SIZE;
use crate::{Header, Transdb, TransdbError};
use odb_codec::{CodecError, decode_entry};
use odb_device::Store;
use odb_model::{Entries, Entry};
use odb_reclog::{LogRecord, RecError, RecLog, Window};
use odb_values::{Bytes, Frozen, List};
use std::alloc::{AllocError, Global};

impl Transdb {
    ghost use Rattle.odb_transdb.specs.Opened.{entries_in};
    ghost use Rattle.odb_transdb.specs.Standing.{Stands, IsPlaced, AreWhole};
    ghost use Rattle.odb_transdb.specs.Turning.{MayStand, GivesLast};

    /// The entries from a number on, which is at least `first()`, in order.
    ///
    /// It goes once over the records that hold them, from the last place kept that isn't behind the
    /// number, which is at most 63 records before it, and reads them in pieces of 65,536 bytes. It
    /// takes memory for one record at a time and for the entries that it gives.
    ///
    /// A record that was in order at the opening and is so no longer counts as closed: the list
    /// ends before it. A file that is told never shows one.
    ///
    /// `Fault`: a read failed. `NoMemory`: there is none for the entries.
    pub fn entries<S: Store>(
        &self,
        alloc: Global,
        store: &mut S,
        from: u64,
    ) -> Result<Entries, TransdbError>
        requires usable { self.now.active.in_doubt ≡ false }
        requires from { first_held self.now.header ≤ from }
        requires stands { MayStand self.now (file_of 0 (S.world store.old)) }
        ensures run { OnlyReads 0 (S.world store.old) (S.world store.new) }
        ensures entries { Stands self.now (file_of 0 (S.world store.old))
            → IfSome (file_of 0 (S.world store.old)) (λ f. IfOk result
            (λ es. es ≡ drop (from - first_held self.now.header) (entries_in (Some f)))) }
        ensures last { GivesLast self.now from result (file_of 0 (S.world store.old)) }
        ensures whole { IfTold 0 (S.world store.old) (λ _. IfOk result (AreWhole self.now from)) }
        ensures numbers { IfOk result (AreSome from self.now.active.next) }
        ensures placed { IsPlaced self.now }
        ensures refusal { IfErr result (λ e. (e ≡ TransdbError.Fault)
            ⊎ (e ≡ TransdbError.NoMemory)) }
        ensures cause { result ≡ Err TransdbError.Fault
            → FileCountRose 0 (S.world store.old) (S.world store.new) }
    {
        let mut entries = List::new(alloc);
        match add_sides(
            alloc,
            store,
            &self.header,
            &self.live,
            &self.active,
            &self.live_places,
            &self.places,
            from,
            &mut entries,
        ) {
            Ok(()) => Ok(Frozen::new(entries)),
            Err(TransdbError::Damaged { .. }) => Ok(Frozen::new(entries)),
            Err(TransdbError::NoMemory) => Err(TransdbError::NoMemory),
            Err(_) => Err(TransdbError::Fault),
        }
    }
}

/// Adds the entries from a number on, which is at least that of the first entry held, in order.
///
/// Refuses a record whose payload is no entry, at its place; those before it are added then.
fn add_sides<S: Store>(
    alloc: Global,
    store: &mut S,
    header: &Header,
    live: &Option<RecLog>,
    active: &RecLog,
    live_places: &Places,
    places: &Places,
    from: u64,
    entries: &mut List<Entry>,
) -> Result<(), TransdbError>
    requires readable { CanReadSides header.now live.now active.now from (S.world store.old) }
    requires usable { active.now.in_doubt ≡ false }
    requires active { LogStands active.now (file_of 0 (S.world store.old)) }
    requires live_steps { IfSome live.now
        (λ log. CanStep log live_places.now (S.world store.old)) }
    requires steps { CanStep active.now places.now (S.world store.old) }
    requires none { entries.old.items ≡ [] }
    ensures run { OnlyReads 0 (S.world store.old) (S.world store.new) }
    ensures told { IfTold 0 (S.world store.old) (λ bytes. IsReadOf
        (λ all _. entries.new.items ≡ drop (from - first_held header.now) all)
        (sides_read header.now bytes) result) }
    ensures numbers { OnOk result (AreUpTo from active.now.next entries.new.items) }
    ensures width { OnOk result (from ≤ active_first header.now
        → records_width (drop (active_first header.now - from) entries.new.items)
        ≡ active.now.place - active.now.start) }
    ensures some { AreSome from active.now.next entries.new.items }
    ensures fails { FailsAsRead 0 result (S.world store.old) (S.world store.new) }
{
    add_live(
        alloc,
        store,
        header,
        live,
        active,
        live_places,
        from,
        entries,
    )?;
    let start = header.side_start(header.active);
    let first = header.first_on(header.active);
    let beginning = begin_at(active, places, start, first, from);
    add_entries(alloc, store, active, beginning, from, entries)?;
    Ok(())
}

/// Adds those of them that a Live side holds.
fn add_live<S: Store>(
    alloc: Global,
    store: &mut S,
    header: &Header,
    live: &Option<RecLog>,
    active: &RecLog,
    live_places: &Places,
    from: u64,
    entries: &mut List<Entry>,
) -> Result<(), TransdbError>
    requires readable { CanReadSides header.now live.now active.now from (S.world store.old) }
    requires live_steps { IfSome live.now
        (λ log. CanStep log live_places.now (S.world store.old)) }
    requires none { entries.old.items ≡ [] }
    ensures run { OnlyReads 0 (S.world store.old) (S.world store.new) }
    ensures told { IfTold 0 (S.world store.old) (λ bytes. IsReadOf
        (λ all _. (entries.new.items ≡ drop (from - first_held header.now) all)
        × (first_held header.now + length all ≡ active_first header.now))
        (live_read header.now header.now.other bytes) result) }
    ensures numbers { OnOk result (AreUpTo from (active_first header.now) entries.new.items) }
    ensures some { AreSome from (active_first header.now) entries.new.items }
    ensures fails { FailsAsRead 0 result (S.world store.old) (S.world store.new) }
{
    let Some(log) = live else {
        return Ok(());
    };
    let side = header.other_side();
    let start = header.side_start(side);
    let first = header.first_on(side);
    let beginning = begin_at(log, live_places, start, first, from);
    add_entries(alloc, store, log, beginning, from, entries)?;
    Ok(())
}

/// Where a walk over a side's records begins: a place, and the number of the record there.
#[derive(Clone, Copy, Debug)]
pub(crate) struct Beginning {
    pub(crate) at: u64,
    pub(crate) number: u64,
}

/// Where the walk over a side begins that wants its entries from a number on: where the list ends,
/// if that comes no later; else at the last place kept that isn't behind it, or at the side's first
/// record. The side begins at `start`, with the number `first`.
pub(crate) fn begin_at(
    log: &RecLog,
    places: &Places,
    start: u64,
    first: u64,
    from: u64,
) -> Beginning
    requires begin { (start ≡ log.now.start) × (first ≡ log.now.first) }
    ensures { (w : World) → CanStep log.now places.now w
        → CanBegin log.now from result.at result.number w }
{
    let next = log.next_number();
    if first < next && next <= from {
        let at = log.place();
        return Beginning { at, number: next };
    }
    let steps = from.saturating_sub(first) / STEP;
    let kept = steps.min(places.len() as u64);
    match last_place(places, kept) {
        Some(at) => Beginning {
            at,
            number: first.saturating_add(STEP.saturating_mul(kept)),
        },
        None => Beginning {
            at: start,
            number: first,
        },
    }
}

/// The last of the first so many places.
fn last_place(places: &Places, count: u64) -> Option<u64>
    ensures some { IfSome result (λ at. (1 ≤ count) × (count ≤ length places.now)
        × (at ≡ slice_index places.now (count - 1))) }
{
    let last = count.checked_sub(1)?;
    places.get(last as usize)
}

/// Goes over the list of a side from a place on, and adds those of its entries that have a number
/// from `from` on.
///
/// Refuses a place that is no record of the next number and a payload that is no entry, at the
/// place; those before it are added then.
///
/// It reads in pieces of 65,536 bytes, by a window on the stack, and takes memory for one record at
/// a time besides the entries.
fn add_entries<S: Store>(
    alloc: Global,
    store: &mut S,
    log: &RecLog,
    beginning: Beginning,
    from: u64,
    entries: &mut List<Entry>,
) -> Result<(), TransdbError>
    requires usable { log.now.in_doubt ≡ false }
    requires stands { LogStands log.now (file_of log.now.file (S.world store.old)) }
    requires begin { CanBegin log.now from beginning.at beginning.number (S.world store.old) }
    ensures run { OnlyReads log.now.file (S.world store.old) (S.world store.new) }
    ensures told { IfTold log.now.file (S.world store.old) (λ bytes. IsReadOf
        (λ all _. entries.new.items ≡ entries.old.items ++ drop (from - log.now.first) all)
        (log_entries log.now bytes) result) }
    ensures least { OnOk result ((log.now.first ≤ log.now.next) × (log.now.start ≤ log.now.place)) }
    ensures part { OnOk result (AddsPart from log.now.first log.now.next
        (log.now.place - log.now.start) entries.old.items entries.new.items) }
    ensures some { AddsSome from log.now.first log.now.next entries.old.items entries.new.items }
    ensures fails { FailsAsRead log.now.file result (S.world store.old) (S.world store.new) }
{
    let end = log.place();
    let next = log.next_number();
    let mut window = Window::new();
    let mut at = beginning.at;
    let mut number = beginning.number;
    while at < end {
        let record = record_at(alloc, store, log, &mut window, at, number)?;
        let entry = entry_of(alloc, record.number, &record.payload, at)?;
        add_entry(entries, entry, number >= from)?;
        at = record.next;
        number += 1;
    }
    if number != next {
        return Err(TransdbError::Damaged { at });
    }
    Ok(())
}

/// Adds the entries that the payloads of a side's records are the images of, in order.
///
/// Refuses a payload that is no entry, at its record's place. It makes no call of a store, and
/// takes memory for the entries; a payload's own is given back when its entry is made. It keeps the
/// places of the records that are to be kept, of which there are none before.
pub(crate) fn add_payloads(
    alloc: Global,
    header: &Header,
    side: u8,
    payloads: Frozen<Bytes>,
    entries: &mut List<Entry>,
    places: &mut Places,
) -> Result<(), TransdbError>
    requires side { side ≤ 1 }
    requires none { places.old ≡ [] }
    requires numbers { first_on header.now side + length payloads < 2 ^ 64 }
    requires places { end_of_list (side_start header.now side) payloads < 2 ^ 64 }
    ensures told { IsReadOf (λ all _. entries.new.items ≡ entries.old.items ++ all)
        (entries_from (first_on header.now side) (side_start header.now side) payloads) result }
    ensures part { OnOk result (AddsPayloads header.now side payloads
        entries.old.items entries.new.items) }
    ensures steps { OnOk result (AreSteps (side_start header.now side) payloads places.new) }
    ensures refusal { IsReadRefusal result }
    ensures cause { result ≢ Err TransdbError.Fault }
{
    let first = header.first_on(side);
    let mut at = header.side_start(side);
    let mut number = first;
    for payload in payloads.into_vec() {
        let entry = entry_of(alloc, number, &payload, at)?;
        entries.reserve()?;
        entries.push(entry);
        at += HEAD_SIZE + payload.len() as u64;
        number += 1;
        places.keep(first, number, at);
    }
    Ok(())
}

/// Adds an entry where it is wanted.
fn add_entry(entries: &mut List<Entry>, entry: Entry, wanted: bool) -> Result<(), AllocError>
    ensures wanted { OnOk result (wanted ≡ true
        → entries.new.items ≡ entries.old.items ++ entry ∷ []) }
    ensures other { OnOk result (wanted ≡ false → entries.new.items ≡ entries.old.items) }
    ensures err { OnErr result (entries.new.items ≡ entries.old.items) }
{
    if wanted {
        entries.reserve()?;
        entries.push(entry);
    }
    Ok(())
}

/// The record of this number at a place.
pub(crate) fn record_at<S: Store>(
    alloc: Global,
    store: &mut S,
    log: &RecLog,
    window: &mut Window,
    at: u64,
    number: u64,
) -> Result<LogRecord, TransdbError>
    requires readable { CanRead log.now at (S.world store.old) }
    requires shows { Shows window.old (file_of log.now.file (S.world store.old)) }
    ensures run { OnlyReads log.now.file (S.world store.old) (S.world store.new) }
    ensures told { IfTold log.now.file (S.world store.old)
        (λ bytes. IsRecordOf (log_record log.now at bytes) at number result) }
    ensures found { IfOk result (λ r. (r.number ≡ number) × (number < log.now.next)
        × (r.next ≤ log.now.place) × (r.next ≡ at + HEAD + length r.payload)) }
    ensures shows { OnOk result (Shows window.new (file_of log.now.file (S.world store.old))) }
    ensures fails { FailsAsRead log.now.file result (S.world store.old) (S.world store.new) }
{
    match log.records_by(alloc, store, window, at) {
        Ok(Some(record)) if record.number == number => Ok(record),
        Ok(_) => Err(TransdbError::Damaged { at }),
        Err(RecError::NoMemory) => Err(TransdbError::NoMemory),
        Err(_) => Err(TransdbError::Fault),
    }
}

/// The entry of this number that the payload of the record at a place is the image of.
pub(crate) fn entry_of(
    alloc: Global,
    number: u64,
    payload: &Bytes,
    at: u64,
) -> Result<Entry, TransdbError>
    ensures { IsEntryOf number payload.now at result }
{
    match decode_entry(alloc, number, payload.as_slice()) {
        Ok(entry) => Ok(entry),
        Err(CodecError::NoMemory) => Err(TransdbError::NoMemory),
        Err(CodecError::Malformed { .. }) => Err(TransdbError::Damaged { at }),
    }
}
