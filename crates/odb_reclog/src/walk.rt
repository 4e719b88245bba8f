//! The walk over the records of a region.
ghost use Rattle.std.specs.Prelude.{◌≡◌, ◌⊎◌, ◌+◌, ◌-◌, ◌^◌, ◌<◌, ◌≤◌, length, Err, OnOk, IfOk, IfErr, IfSome, option_map};
ghost use Rattle.odb_device.specs.World.{file_of};
ghost use Rattle.odb_device.specs.Images.{part};
ghost use Rattle.odb_device.specs.Calls.{HasCause, FileCountRose};
ghost use Rattle.odb_reclog.specs.Records.{log_of};
ghost use Rattle.odb_reclog.specs.Reading.{next_at};
ghost use Rattle.odb_reclog.specs.Windows.{Shows};
ghost use Rattle.odb_reclog.specs.Ends.{EndsAt};
ghost use Rattle.odb_reclog.specs.Told.{IfTold, OnlyReads};
ghost use Rattle.odb_reclog.specs.Regions.{IsRegion, IsLong, IsEndIn, IsCounted};

use crate::head::HEAD;
use crate::region::Region;
use crate::window::Window;
use crate::{LogRecord, RecError};
use odb_device::{Failed, Store};
use odb_values::{Bytes, Frozen, List};
use std::alloc::Global;

/// Where the list of a region ends, and the number that a record there would have.
#[derive(Clone, Copy, Debug)]
pub(crate) struct ListEnd {
    pub(crate) place: u64,
    pub(crate) number: u64,
}

/// Where the list of a region ends, and its payloads, in order.
#[derive(Debug, Drop)]
pub(crate) struct FoundList {
    pub(crate) end: ListEnd,
    pub(crate) payloads: Frozen<Bytes>,
}

/// Where the record of this number ends that stands at a place; None where there is none.
fn next_place<S: Store>(
    store: &mut S,
    window: &mut Window,
    file: u32,
    place: u64,
    end: u64,
    number: u64,
) -> Result<Option<u64>, Failed>
    requires range { (place ≤ end) × (end ≤ 2 ^ 40) }
    requires shows { Shows window.old (file_of file (S.world store.old)) }
    requires long { IfTold file (S.world store.old) (λ bytes. end ≤ length bytes) }
    ensures run { OnlyReads file (S.world store.old) (S.world store.new) }
    ensures shows { OnOk result (Shows window.new (file_of file (S.world store.old))) }
    ensures next { IfTold file (S.world store.old)
        (λ bytes. IfOk result (λ next. next ≡ next_at end number place bytes)) }
    ensures forward { IfOk result (λ next. IfSome next (λ n. (place + 13 ≤ n) × (n ≤ end))) }
    ensures size { IfOk result (λ next. IfSome next (λ n. n < place + 13 + 2 ^ 32)) }
    ensures cause { HasCause file (S.world store.old) (S.world store.new) result }
{
    if end - place < HEAD {
        return Ok(None);
    }
    match window.head(store, file, place, end)? {
        Some(head) => Ok(head.end_of_record(place, end, number)),
        None => Ok(None),
    }
}

/// Where the list of a region ends.
///
/// One pass over the list in pieces of at most 65,536 bytes, which skips what of a payload lies
/// beyond a piece.
pub(crate) fn find_end<S: Store>(store: &mut S, region: Region) -> Result<ListEnd, Failed>
    requires region { IsRegion region }
    requires long { IsLong region (S.world store.old) }
    ensures run { OnlyReads region.file (S.world store.old) (S.world store.new) }
    ensures end { IfTold region.file (S.world store.old)
        (λ bytes. IfOk result (λ found. EndsAt region.start region.end region.first found bytes)) }
    ensures range { IfOk result (IsEndIn region) }
    ensures cause { HasCause region.file (S.world store.old) (S.world store.new) result }
{
    let mut window = Window::new();
    let mut place = region.start;
    let mut number = region.first;
    while let Some(next) = next_place(store, &mut window, region.file, place, region.end, number)? {
        place = next;
        number += 1;
    }
    Ok(ListEnd { place, number })
}

/// The record of this number that stands at a place; None where there is none.
fn next_record<S: Store>(
    alloc: Global,
    store: &mut S,
    window: &mut Window,
    file: u32,
    place: u64,
    end: u64,
    number: u64,
) -> Result<Option<LogRecord>, RecError>
    requires range { (place ≤ end) × (end ≤ 2 ^ 40) }
    requires shows { Shows window.old (file_of file (S.world store.old)) }
    requires long { IfTold file (S.world store.old) (λ bytes. end ≤ length bytes) }
    ensures run { OnlyReads file (S.world store.old) (S.world store.new) }
    ensures shows { OnOk result (Shows window.new (file_of file (S.world store.old))) }
    ensures next { IfTold file (S.world store.old) (λ bytes. IfOk result
        (λ found. option_map (λ r. r.next) found ≡ next_at end number place bytes)) }
    ensures payload { IfTold file (S.world store.old) (λ bytes. IfOk result (λ found. IfSome found
        (λ r. r.payload ≡ part (place + 13) (r.next - (place + 13)) bytes))) }
    ensures forward { IfOk result (λ found. IfSome found
        (λ r. (r.next ≡ place + 13 + length r.payload) × (r.next ≤ end))) }
    ensures refusal { IfErr result (λ e. (e ≡ RecError.Fault) ⊎ (e ≡ RecError.NoMemory)) }
    ensures cause { result ≡ Err RecError.Fault
        → FileCountRose file (S.world store.old) (S.world store.new) }
{
    let Some(next) = next_place(store, window, file, place, end, number)? else {
        return Ok(None);
    };
    let size = (next - place - HEAD) as u32;
    match window.bytes(alloc, store, file, place + HEAD, size)? {
        Some(payload) => Ok(Some(LogRecord {
            number,
            payload,
            next,
        })),
        None => Ok(None),
    }
}

/// Where the list of a region ends, and its payloads.
///
/// One pass over the list in pieces of at most 65,536 bytes, and by one read more each payload that
/// lies across the end of a piece. Memory is taken for the payloads.
pub(crate) fn find_payloads<S: Store>(
    alloc: Global,
    store: &mut S,
    region: Region,
) -> Result<FoundList, RecError>
    requires region { IsRegion region }
    requires long { IsLong region (S.world store.old) }
    ensures run { OnlyReads region.file (S.world store.old) (S.world store.new) }
    ensures end { IfTold region.file (S.world store.old)
        (λ bytes. IfOk result
        (λ found. EndsAt region.start region.end region.first found.end bytes)) }
    ensures payloads { IfTold region.file (S.world store.old) (λ bytes. IfOk result
        (λ found. found.payloads ≡ log_of region.start region.end region.first bytes)) }
    ensures count { IfOk result (IsCounted region) }
    ensures refusal { IfErr result (λ e. (e ≡ RecError.Fault) ⊎ (e ≡ RecError.NoMemory)) }
    ensures cause { result ≡ Err RecError.Fault
        → FileCountRose region.file (S.world store.old) (S.world store.new) }
{
    let mut window = Window::new();
    let mut payloads = List::new(alloc);
    let mut place = region.start;
    let mut number = region.first;
    while let Some(record) = next_record(
        alloc,
        store,
        &mut window,
        region.file,
        place,
        region.end,
        number,
    )? {
        payloads.reserve()?;
        payloads.push(record.payload);
        place = record.next;
        number += 1;
    }
    Ok(FoundList {
        end: ListEnd { place, number },
        payloads: Frozen::new(payloads),
    })
}
