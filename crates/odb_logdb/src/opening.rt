//! Opening the log, with each check that its bytes are in order.
ghost use Rattle.std.specs.Prelude.{◌≡◌, ◌≢◌, ◌⊎◌, ◌^◌, ◌≤◌, false, length, Err, IfOk, IfErr};
ghost use Rattle.odb_device.specs.World.{file_of};
ghost use Rattle.odb_device.specs.Calls.{FileCountRose, HasCause, Keeps};
ghost use Rattle.odb_device.specs.Moments.{WritesWithin};
ghost use Rattle.odb_reclog.specs.Told.{IfTold, OnlyReads};
ghost use Rattle.odb_reclog.specs.Regions.{region, KeepsListFrom, TearsOpenEnd, IsOpened as IsLogOpened};
ghost use Rattle.odb_reclog.specs.Standing.{Stands as LogStands};
ghost use Rattle.odb_extent.specs.Opened.{content_end, opened as extents_opened};
ghost use Rattle.odb_extent.specs.Standing.{limit_of, fields_of, IsSettled, Stands as ExtentsStand};
ghost use Rattle.odb_entries.specs.Listed.{log_entries};
ghost use Rattle.odb_logdb.specs.Fields.{lawful_in};
ghost use Rattle.odb_logdb.specs.Opened.{opened};
ghost use Rattle.odb_logdb.specs.Opening.{HasExtents, IsExtentsAnswer, IsLongAnswer, IsChecked};
ghost use Rattle.odb_logdb.specs.Answers.{IsOpenAnswer, IsOpenRefusal};
ghost use Rattle.odb_logdb.specs.Worlds.{OpensAsBefore, OnlyClosesGate, SameEntries};
ghost use Rattle.odb_logdb.specs.Standing.{Stands};

use crate::logdb::{FILE, MOST, content_end};
use crate::{LogFields, Logdb, LogdbError};
use odb_device::Store;
use odb_entries::{EntriesError, add_entries};
use odb_extent::{ExtentError, Extents};
use odb_model::Entry;
use odb_reclog::RecLog;
use odb_values::List;
use std::alloc::Global;

impl Logdb {
    /// The log that file 1 is as it reads, which is on the disk then.
    ///
    /// It syncs, reads the pair, and goes twice over the records in pieces of 65,536 bytes, and by
    /// one read more for each record that lies across the end of a piece: once for where they end,
    /// after one sync more, and once for whether each is an entry. Behind the last record a gate
    /// that is open is closed, by one write and one sync, also where it then refuses; no other byte
    /// is written. It takes memory for one record and its entry at a time, and keeps none of it.
    ///
    /// - `Damaged`: by the first of these. At 0, the pair has no open place, is malformed, or keeps
    ///   no lawful limit or fields; at the file's length, it is shorter than its limit says; at the
    ///   first record that is no entry.
    /// - `Fault`: a call of the store failed. `NoMemory`: there is none for a record.
    pub fn open<S: Store>(alloc: Global, store: &mut S) -> Result<Logdb, LogdbError>
        ensures answer { IfTold 1 (S.world store.old)
            (λ bytes. IsOpenAnswer result (opened bytes)) }
        ensures leaves { OpensAsBefore (S.world store.old) (S.world store.new) }
        ensures gate { OnlyClosesGate (S.world store.old) (S.world store.new) }
        ensures entries { IfOk result (λ _. SameEntries (S.world store.old) (S.world store.new)) }
        ensures stands { IfOk result (λ l. Stands l (file_of 1 (S.world store.new))) }
        ensures refusal { IsOpenRefusal result }
        ensures cause { result ≡ Err LogdbError.Fault
            → FileCountRose 1 (S.world store.old) (S.world store.new) }
    {
        let extents = open_extents(store)?;
        match fields_in(&extents) {
            Some(fields) => open_content(alloc, store, extents, fields),
            None => Err(LogdbError::Damaged { at: 0 }),
        }
    }
}

/// The extents of file 1.
fn open_extents<S: Store>(store: &mut S) -> Result<Extents, LogdbError>
    ensures run { WritesWithin 1 0 0 (S.world store.old) (S.world store.new) }
    ensures kept { result ≢ Err LogdbError.Fault → Keeps 1 (S.world store.old) (S.world store.new) }
    ensures answer { IfTold 1 (S.world store.old)
        (λ bytes. IsExtentsAnswer result (extents_opened 1024 bytes)) }
    ensures stands { IfOk result (λ e. ExtentsStand e (file_of 1 (S.world store.new))) }
    ensures found { IfOk result (λ e. (e.pair.file ≡ 1) × (e.most ≡ 1024)) }
    ensures settled { IfOk result IsSettled }
    ensures refusal { IsOpenRefusal result }
    ensures memory { result ≢ Err LogdbError.NoMemory }
    ensures cause { result ≡ Err LogdbError.Fault
        → FileCountRose 1 (S.world store.old) (S.world store.new) }
{
    match Extents::open(store, FILE, MOST) {
        Ok(extents) => Ok(extents),
        Err(ExtentError::Fault) => Err(LogdbError::Fault),
        Err(ExtentError::NoOpenPlace) => Err(LogdbError::Damaged { at: 0 }),
        Err(ExtentError::Malformed) => Err(LogdbError::Damaged { at: 0 }),
        Err(ExtentError::Limit) => Err(LogdbError::Damaged { at: 0 }),
    }
}

/// The lawful fields that the extents keep; None where they keep none.
fn fields_in(extents: &Extents) -> Option<LogFields>
    requires { extents.now.most ≡ 1024 }
    ensures { result ≡ lawful_in (limit_of extents.now) (fields_of extents.now) }
{
    let fields = LogFields::from_bytes(&extents.fields())?;
    if fields.is_lawful(extents.limit()) {
        Some(fields)
    } else {
        None
    }
}

/// The log whose extents keep these lawful fields.
fn open_content<S: Store>(
    alloc: Global,
    store: &mut S,
    extents: Extents,
    fields: LogFields,
) -> Result<Logdb, LogdbError>
    requires found { HasExtents extents fields (S.world store.old) }
    ensures answer { IfTold 1 (S.world store.old)
        (λ bytes. IsOpenAnswer result (opened bytes)) }
    ensures leaves { OpensAsBefore (S.world store.old) (S.world store.new) }
    ensures gate { OnlyClosesGate (S.world store.old) (S.world store.new) }
    ensures entries { IfOk result (λ _. SameEntries (S.world store.old) (S.world store.new)) }
    ensures stands { IfOk result (λ l. Stands l (file_of 1 (S.world store.new))) }
    ensures refusal { IsOpenRefusal result }
    ensures cause { result ≡ Err LogdbError.Fault
        → FileCountRose 1 (S.world store.old) (S.world store.new) }
{
    let limit = extents.limit();
    check_length(store, limit)?;
    let end = content_end(limit);
    let start = fields.list_start(end);
    let log = open_log(store, start, end, fields.first)?;
    check_entries(alloc, store, &log, start, fields.first)?;
    let state = fields.list_state();
    Ok(Logdb {
        extents,
        fields,
        log,
        state,
    })
}

/// Refuses a file that is shorter than so many extents, at its length.
fn check_length<S: Store>(store: &mut S, limit: u32) -> Result<(), LogdbError>
    requires { limit ≤ 1024 }
    ensures run { OnlyReads 1 (S.world store.old) (S.world store.new) }
    ensures told { IfTold 1 (S.world store.old) (IsLongAnswer limit result) }
    ensures refusal { IsOpenRefusal result }
    ensures memory { result ≢ Err LogdbError.NoMemory }
    ensures cause { result ≡ Err LogdbError.Fault
        → FileCountRose 1 (S.world store.old) (S.world store.new) }
{
    let length = store.length(FILE)?;
    if length < content_end(limit) {
        return Err(LogdbError::Damaged { at: length });
    }
    Ok(())
}

/// The record log of a region of file 1, at most as long as the file.
pub(crate) fn open_log<S: Store>(
    store: &mut S,
    start: u64,
    end: u64,
    first: u64,
) -> Result<RecLog, LogdbError>
    requires region { (start ≤ end) × (end ≤ 2 ^ 40) }
    requires first { first ≤ 2 ^ 63 }
    requires long { IfTold 1 (S.world store.old) (λ bytes. end ≤ length bytes) }
    ensures run { KeepsListFrom start (region 1 start end first)
        (S.world store.old) (S.world store.new) }
    ensures gate { TearsOpenEnd (region 1 start end first)
        (S.world store.old) (S.world store.new) }
    ensures opened { IfOk result (λ log. IsLogOpened (region 1 start end first) log
        (S.world store.old) (S.world store.new)) }
    ensures refusal { IfErr result (λ e. e ≡ LogdbError.Fault) }
    ensures cause { HasCause 1 (S.world store.old) (S.world store.new) result }
{
    match RecLog::open(store, FILE, start, end, first) {
        Ok(log) => Ok(log),
        Err(_) => Err(LogdbError::Fault),
    }
}

/// Refuses the first record of the list that is no entry, at its place. It keeps one record and its
/// entry in memory at a time.
fn check_entries<S: Store>(
    alloc: Global,
    store: &mut S,
    log: &RecLog,
    start: u64,
    first: u64,
) -> Result<(), LogdbError>
    requires file { log.now.file ≡ 1 }
    requires usable { log.now.in_doubt ≡ false }
    requires stands { LogStands log.now (file_of log.now.file (S.world store.old)) }
    requires begin { (start ≡ log.now.start) × (first ≡ log.now.first) }
    ensures run { OnlyReads 1 (S.world store.old) (S.world store.new) }
    ensures told { IfTold 1 (S.world store.old)
        (λ bytes. IsChecked (log_entries log.now bytes) result) }
    ensures refusal { IsOpenRefusal result }
    ensures cause { result ≡ Err LogdbError.Fault
        → FileCountRose 1 (S.world store.old) (S.world store.new) }
{
    let mut none: List<Entry> = List::new(alloc);
    let from = log.next_number();
    match add_entries(alloc, store, log, start, first, from, &mut none) {
        Ok(()) => Ok(()),
        Err(EntriesError::Damaged { at }) => Err(LogdbError::Damaged { at }),
        Err(EntriesError::Fault) => Err(LogdbError::Fault),
        Err(EntriesError::NoMemory) => Err(LogdbError::NoMemory),
    }
}
