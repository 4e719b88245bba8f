//! Reading the records of a log.
ghost use Rattle.std.specs.Prelude.{◌≡◌, ◌↔◌, IsTrue, ◌⊎◌, ◌+◌, ◌^◌, ◌<◌, ◌≤◌, length, Some, Err, OnOk, IfOk, IfErr, IfSome};
ghost use Rattle.odb_device.specs.World.{file_of};
ghost use Rattle.odb_device.specs.Images.{part};
ghost use Rattle.odb_device.specs.Calls.{FileCountRose};
ghost use Rattle.odb_reclog.specs.Told.{IfTold, OnlyReads};
ghost use Rattle.odb_reclog.specs.Reading.{CanRead, GivesRecord, GivesPlace, IsSized};
ghost use Rattle.odb_reclog.specs.Windows.{Shows};

use crate::head::{HEAD, Head, OPEN};
use crate::window::Window;
use crate::{LogRecord, RecError, RecLog};
use odb_device::Store;
use odb_values::{Bytes, Frozen};
use std::alloc::Global;

impl RecLog {
    /// The record at a place, which is that of a record of the list, or its end; None at its end.
    ///
    /// A record that isn't in order any more, which a file that is told never shows, is taken as
    /// closed: None. One read of the region from that place on, of at most 65,536 bytes, and one of
    /// the payload where it goes further. Memory is taken for the payload; at the list's end there
    /// is no read.
    ///
    /// Fault: a read of the file failed. NoMemory: there is none for the payload. Neither changes
    /// the log.
    pub fn records<S: Store>(
        &self,
        alloc: Global,
        store: &mut S,
        at: u64,
    ) -> Result<Option<LogRecord>, RecError>
        requires readable { CanRead self.now at (S.world store.old) }
        ensures run { OnlyReads self.now.file (S.world store.old) (S.world store.new) }
        ensures record { GivesRecord self.now at result (S.world store.old) }
        ensures next { GivesPlace self.now result (S.world store.old) }
        ensures forward { IfOk result (λ found. IfSome found
            (λ r. (at < r.next) × (r.next ≤ self.now.place))) }
        ensures sized { IfOk result (λ found. IfSome found (IsSized self.now at)) }
        ensures refusal { IfErr result (λ e. (e ≡ RecError.Fault) ⊎ (e ≡ RecError.NoMemory)) }
        ensures cause { result ≡ Err RecError.Fault
            → FileCountRose self.now.file (S.world store.old) (S.world store.new) }
    {
        self.records_by(alloc, store, &mut Window::new(), at)
    }

    /// The record at a place, as `records` gives it, read by a window that shows the file as it is:
    /// a new one, or one that earlier calls filled, where the file hasn't changed since.
    ///
    /// A walk over a list by one window reads the region in pieces of at most 65,536 bytes, and by
    /// one read more each payload that lies across the end of a piece. Memory is taken for the
    /// payload; at the list's end there is no read.
    ///
    /// Fault: a read of the file failed. NoMemory: there is none for the payload. Neither changes
    /// the log; of the window nothing is said then, so take a new one.
    pub fn records_by<S: Store>(
        &self,
        alloc: Global,
        store: &mut S,
        window: &mut Window,
        at: u64,
    ) -> Result<Option<LogRecord>, RecError>
        requires readable { CanRead self.now at (S.world store.old) }
        requires shows { Shows window.old (file_of self.now.file (S.world store.old)) }
        ensures run { OnlyReads self.now.file (S.world store.old) (S.world store.new) }
        ensures record { GivesRecord self.now at result (S.world store.old) }
        ensures next { GivesPlace self.now result (S.world store.old) }
        ensures forward { IfOk result (λ found. IfSome found
            (λ r. (at < r.next) × (r.next ≤ self.now.place))) }
        ensures sized { IfOk result (λ found. IfSome found (IsSized self.now at)) }
        ensures shows { OnOk result (Shows window.new (file_of self.now.file (S.world store.old))) }
        ensures refusal { IfErr result (λ e. (e ≡ RecError.Fault) ⊎ (e ≡ RecError.NoMemory)) }
        ensures cause { result ≡ Err RecError.Fault
            → FileCountRose self.now.file (S.world store.old) (S.world store.new) }
    {
        if self.place - at < HEAD {
            return Ok(None);
        }
        let Some(head) = window.head(store, self.file, at, self.end)? else {
            return Ok(None);
        };
        let next = head.end_from(at);
        if !self.is_in_order(head, next) {
            return Ok(None);
        }
        match window.bytes(alloc, store, self.file, at + HEAD, head.size)? {
            Some(payload) => Ok(Some(LogRecord {
                number: head.number,
                payload,
                next,
            })),
            None => Ok(None),
        }
    }

    /// Whether a head is in order, as far as a place shows it: its gate is open, its number is one
    /// of the list's, and the record, which ends at `next`, doesn't end behind the list.
    fn is_in_order(&self, head: Head, next: u64) -> bool
        ensures { IsTrue result ↔ ((head.gate ≡ OPEN) × (self.now.first ≤ head.number)
            × (head.number < self.now.next) × (next ≤ self.now.place)) }
    {
        head.gate == OPEN
            && self.first <= head.number
            && head.number < self.next
            && next <= self.place
    }
}

/// So many bytes from a place on; None where the store gives fewer. One read, and memory for the
/// bytes.
pub(crate) fn read_bytes<S: Store>(
    alloc: Global,
    store: &mut S,
    file: u32,
    at: u64,
    size: u32,
) -> Result<Option<Bytes>, RecError>
    ensures run { OnlyReads file (S.world store.old) (S.world store.new) }
    ensures bytes { IfTold file (S.world store.old) (λ bytes. at + size ≤ length bytes
        → IfOk result (λ found. found ≡ Some (part at size bytes))) }
    ensures size { IfOk result (λ found. IfSome found (λ bytes. length bytes ≡ size)) }
    ensures refusal { IfErr result (λ e. (e ≡ RecError.Fault) ⊎ (e ≡ RecError.NoMemory)) }
    ensures cause { result ≡ Err RecError.Fault
        → FileCountRose file (S.world store.old) (S.world store.new) }
{
    let mut bytes = vec![in alloc; 0; size as usize]?;
    let n = store.read_at(file, at, &mut bytes)?;
    if n < bytes.len() {
        return Ok(None);
    }
    Ok(Some(Frozen::from_vec(bytes)))
}
