//! Going over the entries of a log.
ghost use Rattle.std.specs.Prelude.{◌≡◌, ◌+◌, ◌-◌, ◌<◌, ◌≤◌, true, false, [], ◌∷◌, ◌++◌, drop, length, OnOk, OnErr, IfOk};
ghost use Rattle.odb_device.specs.World.{file_of};
ghost use Rattle.odb_reclog.specs.Told.{IfTold, OnlyReads};
ghost use Rattle.odb_reclog.specs.Reading.{CanRead};
ghost use Rattle.odb_reclog.specs.Records.{HEAD};
ghost use Rattle.odb_reclog.specs.Standing.{Stands as LogStands};
ghost use Rattle.odb_reclog.specs.Windows.{Shows};
ghost use Rattle.odb_entries.specs.Listed.{log_entries};
ghost use Rattle.odb_entries.specs.Walking.{log_record, IsReadOf, IsRecordOf, IsEntryOf, AddsPart, AddsSome, FailsByCount};

use crate::EntriesError;
use odb_codec::{CodecError, decode_entry};
use odb_device::Store;
use odb_model::Entry;
use odb_reclog::{LogRecord, RecError, RecLog, Window};
use odb_values::{Bytes, List};
use std::alloc::{AllocError, Global};

/// Goes over the list of a log, whose region begins at `start` and whose first record has the number
/// `first`, and adds those of its entries that have a number from `from` on.
///
/// Refuses a place that is no record of the next number and a payload that is no entry, at the
/// place; of the entries before it some first ones are added then.
///
/// It reads in pieces of 65,536 bytes, by a window on the stack, and takes memory for one record at
/// a time besides the entries.
pub fn add_entries<S: Store>(
    alloc: Global,
    store: &mut S,
    log: &RecLog,
    start: u64,
    first: u64,
    from: u64,
    entries: &mut List<Entry>,
) -> Result<(), EntriesError>
    requires usable { log.now.in_doubt ≡ false }
    requires stands { LogStands log.now (file_of log.now.file (S.world store.old)) }
    requires begin { (start ≡ log.now.start) × (first ≡ log.now.first) }
    ensures run { OnlyReads log.now.file (S.world store.old) (S.world store.new) }
    ensures told { IfTold log.now.file (S.world store.old) (λ bytes. IsReadOf
        (λ all _. entries.new.items ≡ entries.old.items ++ drop (from - log.now.first) all)
        (log_entries log.now bytes) result) }
    ensures least { OnOk result ((log.now.first ≤ log.now.next) × (log.now.start ≤ log.now.place)) }
    ensures part { OnOk result (AddsPart from log.now.first log.now.next
        (log.now.place - log.now.start) entries.old.items entries.new.items) }
    ensures some { AddsSome from log.now.first log.now.next entries.old.items entries.new.items }
    ensures cause { FailsByCount log.now.file result (S.world store.old) (S.world store.new) }
{
    let end = log.place();
    let next = log.next_number();
    let mut window = Window::new();
    let mut at = start;
    let mut number = first;
    while at < end {
        let record = record_at(alloc, store, log, &mut window, at, number)?;
        let entry = entry_of(alloc, record.number, &record.payload, at)?;
        add_entry(entries, entry, number >= from)?;
        at = record.next;
        number += 1;
    }
    if number != next {
        return Err(EntriesError::Damaged { at });
    }
    Ok(())
}

/// Adds an entry where it is wanted.
fn add_entry(entries: &mut List<Entry>, entry: Entry, wanted: bool) -> Result<(), AllocError>
    ensures wanted { OnOk result (wanted ≡ true
        → entries.new.items ≡ entries.old.items ++ entry ∷ []) }
    ensures other { OnOk result (wanted ≡ false → entries.new.items ≡ entries.old.items) }
    ensures err { OnErr result (entries.new.items ≡ entries.old.items) }
{
    if wanted {
        entries.reserve()?;
        entries.push(entry);
    }
    Ok(())
}

/// The record of this number at a place.
fn record_at<S: Store>(
    alloc: Global,
    store: &mut S,
    log: &RecLog,
    window: &mut Window,
    at: u64,
    number: u64,
) -> Result<LogRecord, EntriesError>
    requires readable { CanRead log.now at (S.world store.old) }
    requires shows { Shows window.old (file_of log.now.file (S.world store.old)) }
    ensures run { OnlyReads log.now.file (S.world store.old) (S.world store.new) }
    ensures told { IfTold log.now.file (S.world store.old)
        (λ bytes. IsRecordOf (log_record log.now at bytes) at number result) }
    ensures found { IfOk result (λ r. (r.number ≡ number) × (number < log.now.next)
        × (r.next ≤ log.now.place) × (r.next ≡ at + HEAD + length r.payload)) }
    ensures shows { OnOk result (Shows window.new (file_of log.now.file (S.world store.old))) }
    ensures cause { FailsByCount log.now.file result (S.world store.old) (S.world store.new) }
{
    match log.records_by(alloc, store, window, at) {
        Ok(Some(record)) if record.number == number => Ok(record),
        Ok(_) => Err(EntriesError::Damaged { at }),
        Err(RecError::NoMemory) => Err(EntriesError::NoMemory),
        Err(_) => Err(EntriesError::Fault),
    }
}

/// The entry of this number that the payload of the record at a place is the image of.
fn entry_of(alloc: Global, number: u64, payload: &Bytes, at: u64) -> Result<Entry, EntriesError>
    ensures { IsEntryOf number payload.now at result }
{
    match decode_entry(alloc, number, payload.as_slice()) {
        Ok(entry) => Ok(entry),
        Err(CodecError::NoMemory) => Err(EntriesError::NoMemory),
        Err(CodecError::Malformed { .. }) => Err(EntriesError::Damaged { at }),
    }
}
