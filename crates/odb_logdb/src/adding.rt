//! Adding records to a Live log, over its extents and its record log.
ghost use Rattle.std.specs.Prelude.{◌≡◌, ℕ, ◌+◌, ◌-◌, ◌^◌, ◌<◌, ◌≤◌, true, false, List, length, Ok, Err, OnOk, OnErr};
ghost use Rattle.std.specs.List.{All};
ghost use Rattle.odb_device.specs.World.{file_of};
ghost use Rattle.odb_device.specs.Calls.{HasCause, FileCountRose};
ghost use Rattle.odb_extent.specs.Opened.{content_end};
ghost use Rattle.odb_extent.specs.Standing.{ExtentState, limit_of};
ghost use Rattle.odb_reclog.specs.Records.{HEAD};
ghost use Rattle.odb_reclog.specs.Regions.{CanOpen, IsWritten};
ghost use Rattle.odb_reclog.specs.Standing.{SameList};
ghost use Rattle.odb_codec.specs.Reading.{read_entry};
ghost use Rattle.odb_entries.specs.Listed.{entries_from};
ghost use Rattle.odb_model.specs.declared.entry.Entry.{Entry};
ghost use Rattle.odb_logdb.specs.declared.fields.LogFields.{LogFields};
ghost use Rattle.odb_logdb.specs.Opened.{MOST};
ghost use Rattle.odb_logdb.specs.Adding.{AreHeld, IsHeldLog, IsHeld, KeepsHeld, IsBodyOf, OpensOne, AddsOne, MovesBy, AreEntries, AddsAll, MovesAll};

use crate::error::AddError;
use crate::logdb::{MOST, content_end};
use odb_device::{Failed, Store};
use odb_extent::Extents;
use odb_reclog::{RecError, RecLog};
use odb_values::Bytes;

/// The bytes of a record before its payload.
const HEAD_SIZE: u64 = 13;

/// Adds records with these payloads one behind another, up to the first that can't be added.
pub(crate) fn add_all<S: Store>(
    extents: &mut Extents,
    log: &mut RecLog,
    store: &mut S,
    payloads: &[Bytes],
) -> Result<(), AddError>
    requires held { AreHeld extents.old log.old (S.world store.old) }
    requires read { AreEntries log.old.next payloads.now }
    requires short { All (λ payload. length payload < 2 ^ 32) payloads.now }
    ensures adds { (f : LogFields) (entries given : List Entry)
        → IsHeld extents.old f log.old entries (S.world store.old)
        → entries_from log.old.next 0 payloads.now ≡ Ok given
        → AddsAll extents.new f log.new entries given (log.new.next - log.old.next) result
        (S.world store.old) (S.world store.new) }
    ensures moves { MovesAll payloads.now result log.old log.new }
    ensures fault { result ≡ Err AddError.Fault
        → FileCountRose 1 (S.world store.old) (S.world store.new) }
    ensures doubt { result ≡ Err AddError.InDoubt
        → FileCountRose 1 (S.world store.old) (S.world store.new) }
{
    for payload in payloads {
        add_record(extents, log, store, payload.as_slice())?;
    }
    Ok(())
}

/// Adds a record with this payload, for which the file grows where it has to.
fn add_record<S: Store>(
    extents: &mut Extents,
    log: &mut RecLog,
    store: &mut S,
    payload: &[u8],
) -> Result<(), AddError>
    requires held { AreHeld extents.old log.old (S.world store.old) }
    requires short { length payload.now < 2 ^ 32 }
    ensures adds { (f : LogFields) (entries : List Entry) (one : Entry)
        → IsHeld extents.old f log.old entries (S.world store.old)
        → read_entry log.old.next payload.now ≡ Ok one
        → AddsOne extents.new f log.new entries one result
        (S.world store.old) (S.world store.new) }
    ensures moves { MovesBy (length payload.now) log.old log.new result }
    ensures fault { result ≡ Err AddError.Fault
        → FileCountRose 1 (S.world store.old) (S.world store.new) }
    ensures doubt { result ≡ Err AddError.InDoubt
        → FileCountRose 1 (S.world store.old) (S.world store.new) }
{
    let need = HEAD_SIZE + payload.len() as u64;
    let room = content_end(MOST).saturating_sub(log.place());
    if room < need {
        return Err(AddError::Full { need, room });
    }
    if make_room(extents, log, store, need).is_err() {
        return Err(AddError::Fault);
    }
    if write_record(log, store, payload).is_err() {
        return Err(AddError::Fault);
    }
    if open_gate(log, store).is_err() {
        return Err(AddError::InDoubt);
    }
    Ok(())
}

/// Adds extents until so many bytes are left for records, which are at most as many as 1,024
/// extents leave.
fn make_room<S: Store>(
    extents: &mut Extents,
    log: &mut RecLog,
    store: &mut S,
    need: u64,
) -> Result<(), Failed>
    requires held { AreHeld extents.old log.old (S.world store.old) }
    requires some { 0 < need }
    requires fits { log.old.place + need ≤ content_end MOST }
    ensures keeps { (f : LogFields) (entries : List Entry)
        → IsHeld extents.old f log.old entries (S.world store.old)
        → KeepsHeld extents.new f log.new entries (S.world store.old) (S.world store.new) }
    ensures log { log.new ≡ record log.old { end = log.new.end } }
    ensures room { OnOk result (log.old.place + need ≤ log.new.end) }
    ensures cause { HasCause 1 (S.world store.old) (S.world store.new) result }
{
    while log.room() < need {
        grow(extents, log, store)?;
    }
    Ok(())
}

/// Adds an extent, to which the record log goes on.
fn grow<S: Store>(extents: &mut Extents, log: &mut RecLog, store: &mut S) -> Result<(), Failed>
    requires held { AreHeld extents.old log.old (S.world store.old) }
    requires less { limit_of extents.old < MOST }
    ensures keeps { (f : LogFields) (entries : List Entry)
        → IsHeld extents.old f log.old entries (S.world store.old)
        → KeepsHeld extents.new f log.new entries (S.world store.old) (S.world store.new) }
    ensures log { log.new ≡ record log.old { end = log.new.end } }
    ensures grown { OnOk result (log.new.end ≡ log.old.end + 1048576) }
    ensures limit { OnOk result (limit_of extents.new ≡ limit_of extents.old + 1) }
    ensures cause { HasCause 1 (S.world store.old) (S.world store.new) result }
{
    if extents.grow(store).is_err() {
        return Err(Failed);
    }
    log.extend(content_end(extents.limit()));
    Ok(())
}

/// Clears what stands behind the gate of the next record, and writes a record there: on the disk
/// after Ok, and not counting yet.
fn write_record<S: Store>(log: &mut RecLog, store: &mut S, payload: &[u8]) -> Result<(), RecError>
    requires held { IsHeldLog log.old (S.world store.old) }
    requires short { length payload.now < 2 ^ 32 }
    requires room { log.old.place + HEAD + length payload.now ≤ log.old.end }
    ensures keeps { (e : ExtentState) (f : LogFields) (entries : List Entry)
        → IsHeld e f log.old entries (S.world store.old)
        → KeepsHeld e f log.new entries (S.world store.old) (S.world store.new) }
    ensures same { SameList log.old log.new }
    ensures written { OnOk result
        (IsWritten payload.now log.old log.new (S.world store.new)) }
    ensures cause { HasCause 1 (S.world store.old) (S.world store.new) result }
{
    log.clear_tail(store)?;
    log.write_body(store, payload)
}

/// Opens the gate of the record that was written, which counts then.
fn open_gate<S: Store>(log: &mut RecLog, store: &mut S) -> Result<(), RecError>
    requires held { IsHeldLog log.old (S.world store.old) }
    requires ready { CanOpen log.old (S.world store.old) }
    ensures adds { (e : ExtentState) (f : LogFields) (entries : List Entry) (one : Entry)
        → IsHeld e f log.old entries (S.world store.old)
        → IsBodyOf log.old one (S.world store.old)
        → OpensOne e f log.new entries one result (S.world store.old) (S.world store.new) }
    ensures moved { OnOk result
        ((log.new.next ≡ log.old.next + 1) × (log.new.place ≡ log.old.clear_from)) }
    ensures err { OnErr result (log.new ≡ record log.old { in_doubt = true }) }
    ensures cause { HasCause 1 (S.world store.old) (S.world store.new) result }
{
    log.open_gate(store)?;
    Ok(())
}
