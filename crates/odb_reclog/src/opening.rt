//! Opening a log.
ghost use Rattle.std.specs.Prelude.{◌≡◌, ◌⊎◌, ◌+◌, ◌^◌, ◌≤◌, length, Err, OnOk, IfOk, IfErr, option_map};
ghost use Rattle.odb_device.specs.World.{file_of};
ghost use Rattle.odb_device.specs.Images.{IsKept};
ghost use Rattle.odb_device.specs.Calls.{HasCause, FileCountRose, Keeps};
ghost use Rattle.odb_device.specs.Moments.{WritesWithin};
ghost use Rattle.odb_reclog.specs.Told.{IfTold};
ghost use Rattle.odb_reclog.specs.Regions.{region, IsRegion, IsLong, KeepsListFrom, TearsOpenEnd, IsEndIn, EndsIn, IsCounted, IsOpened};
ghost use Rattle.odb_reclog.specs.Records.{log_of, end_of_list};
ghost use Rattle.odb_reclog.specs.Ends.{EndsAt};

use crate::gate::close_end;
use crate::region::Region;
use crate::walk::{FoundList, ListEnd, find_end, find_payloads};
use crate::{RecError, RecLog};
use odb_device::{Failed, Store};
use odb_values::{Bytes, Frozen};
use std::alloc::Global;

/// A log as it was opened, and the payloads of its list, in order.
#[derive(Debug, Drop)]
pub struct OpenedLog {
    pub log: RecLog,
    pub payloads: Frozen<Bytes>,
}

impl RecLog {
    /// Opens the log of a region of a file, from the byte `start` to before the byte `end`, whose
    /// first record has the number `first`. Its list is that of the file's bytes as they are read,
    /// which are on the disk then.
    ///
    /// One sync; the list is read in pieces of at most 65,536 bytes, and what of a payload lies
    /// beyond a piece is skipped. Where the list ends inside the region one byte more is read, and
    /// a gate that is open there is closed, by one write and one sync. Nothing else is written, and
    /// it takes no memory.
    pub fn open<S: Store>(
        store: &mut S,
        file: u32,
        start: u64,
        end: u64,
        first: u64,
    ) -> Result<RecLog, RecError>
        requires region { (start ≤ end) × (end ≤ 2 ^ 40) }
        requires first { first ≤ 2 ^ 63 }
        requires long { IfTold file (S.world store.old) (λ bytes. end ≤ length bytes) }
        ensures run { KeepsListFrom start (region file start end first)
            (S.world store.old) (S.world store.new) }
        ensures gate { TearsOpenEnd (region file start end first)
            (S.world store.old) (S.world store.new) }
        ensures opened { IfOk result (λ log. IsOpened (region file start end first) log
            (S.world store.old) (S.world store.new)) }
        ensures refusal { IfErr result (λ e. e ≡ RecError.Fault) }
        ensures cause { HasCause file (S.world store.old) (S.world store.new) result }
    {
        let region = Region {
            file,
            start,
            end,
            first,
        };
        let found = settle(store, region)?;
        let log = close_list(store, region, found)?;
        Ok(log)
    }

    /// Opens the log of a region as `open` does, and gives the payloads of its list too.
    ///
    /// The list is read once, for both: one sync, then pieces of at most 65,536 bytes, and by one
    /// read more each payload that lies across the end of a piece. The list's end costs what it
    /// costs `open`. Memory is taken for the payloads.
    ///
    /// Of a file that isn't told, the payloads have the number and the lengths that the log's end
    /// says all the same.
    ///
    /// Fault: a call on the file failed. NoMemory: there is none for a payload; nothing was
    /// written.
    pub fn open_with_payloads<S: Store>(
        alloc: Global,
        store: &mut S,
        file: u32,
        start: u64,
        end: u64,
        first: u64,
    ) -> Result<OpenedLog, RecError>
        requires region { (start ≤ end) × (end ≤ 2 ^ 40) }
        requires first { first ≤ 2 ^ 63 }
        requires long { IfTold file (S.world store.old) (λ bytes. end ≤ length bytes) }
        ensures run { KeepsListFrom start (region file start end first)
            (S.world store.old) (S.world store.new) }
        ensures gate { TearsOpenEnd (region file start end first)
            (S.world store.old) (S.world store.new) }
        ensures opened { IfOk result (λ found. IsOpened (region file start end first) found.log
            (S.world store.old) (S.world store.new)) }
        ensures payloads { IfTold file (S.world store.old)
            (λ bytes. IfOk result (λ found. found.payloads ≡ log_of start end first bytes)) }
        ensures count { IfOk result (λ found. (first + length found.payloads ≡ found.log.next)
            × (end_of_list start found.payloads ≡ found.log.place)) }
        ensures refusal { IfErr result (λ e. (e ≡ RecError.Fault) ⊎ (e ≡ RecError.NoMemory)) }
        ensures memory { result ≡ Err RecError.NoMemory
            → Keeps file (S.world store.old) (S.world store.new) }
        ensures cause { result ≡ Err RecError.Fault
            → FileCountRose file (S.world store.old) (S.world store.new) }
    {
        let region = Region {
            file,
            start,
            end,
            first,
        };
        let found = settle_payloads(alloc, store, region)?;
        let log = close_list(store, region, found.end)?;
        Ok(OpenedLog {
            log,
            payloads: found.payloads,
        })
    }
}

/// Puts a file on the disk, and finds where the list of a region of it ends.
fn settle<S: Store>(store: &mut S, region: Region) -> Result<ListEnd, Failed>
    requires region { IsRegion region }
    requires long { IsLong region (S.world store.old) }
    ensures run { KeepsListFrom region.start region (S.world store.old) (S.world store.new) }
    ensures still { WritesWithin region.file 0 0 (S.world store.old) (S.world store.new) }
    ensures kept { OnOk result (Keeps region.file (S.world store.old) (S.world store.new)) }
    ensures end { IfTold region.file (S.world store.old)
        (λ bytes. IfOk result (λ found. EndsAt region.start region.end region.first found bytes)) }
    ensures range { IfOk result (IsEndIn region) }
    ensures cause { HasCause region.file (S.world store.old) (S.world store.new) result }
{
    store.sync(region.file)?;
    let found = find_end(store, region)?;
    Ok(found)
}

/// The same, with the payloads of the list.
fn settle_payloads<S: Store>(
    alloc: Global,
    store: &mut S,
    region: Region,
) -> Result<FoundList, RecError>
    requires region { IsRegion region }
    requires long { IsLong region (S.world store.old) }
    ensures run { KeepsListFrom region.start region (S.world store.old) (S.world store.new) }
    ensures still { WritesWithin region.file 0 0 (S.world store.old) (S.world store.new) }
    ensures kept { OnOk result (Keeps region.file (S.world store.old) (S.world store.new)) }
    ensures end { IfTold region.file (S.world store.old)
        (λ bytes. IfOk result
        (λ found. EndsAt region.start region.end region.first found.end bytes)) }
    ensures payloads { IfTold region.file (S.world store.old) (λ bytes. IfOk result
        (λ found. found.payloads ≡ log_of region.start region.end region.first bytes)) }
    ensures count { IfOk result (IsCounted region) }
    ensures refusal { IfErr result (λ e. (e ≡ RecError.Fault) ⊎ (e ≡ RecError.NoMemory)) }
    ensures memory { result ≡ Err RecError.NoMemory
        → Keeps region.file (S.world store.old) (S.world store.new) }
    ensures cause { result ≡ Err RecError.Fault
        → FileCountRose region.file (S.world store.old) (S.world store.new) }
{
    store.sync(region.file)?;
    find_payloads(alloc, store, region)
}

/// The log of a region of a file on the disk, whose list ends where it was found to; the gate there
/// is closed.
fn close_list<S: Store>(store: &mut S, region: Region, found: ListEnd) -> Result<RecLog, Failed>
    requires region { IsRegion region }
    requires range { IsEndIn region found }
    requires long { IsLong region (S.world store.old) }
    requires ends { EndsIn region found (S.world store.old) }
    requires kept { IsKept (file_of region.file (S.world store.old)) }
    ensures run { KeepsListFrom region.start region (S.world store.old) (S.world store.new) }
    ensures gate { TearsOpenEnd region (S.world store.old) (S.world store.new) }
    ensures opened { IfOk result
        (λ log. IsOpened region log (S.world store.old) (S.world store.new)) }
    ensures end { IfOk result (λ log. (log.place ≡ found.place) × (log.next ≡ found.number)) }
    ensures cause { HasCause region.file (S.world store.old) (S.world store.new) result }
{
    close_end(store, region, found.place)?;
    Ok(RecLog {
        file: region.file,
        start: region.start,
        end: region.end,
        first: region.first,
        place: found.place,
        next: found.number,
        clear_from: region.end.max(found.place + 1),
        touched: false,
        has_body: false,
        in_doubt: false,
    })
}
