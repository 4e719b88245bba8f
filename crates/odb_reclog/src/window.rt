//! A part of a file as it was read last.
use crate::RecError;
use crate::head::{HEAD, Head};
use crate::reading::read_bytes;
use odb_device::{Failed, Store};
use odb_values::{Bytes, Frozen};
use std::alloc::Global;

/// How many bytes are read or written by one call at most, where a region is gone over.
pub(crate) const PIECE: usize = 65_536;

/// Bytes of a file as they were read last.
///
/// By one window a walk over a region reads it in pieces of at most 65,536 bytes, which the window
/// holds in itself.
#[derive(Drop)]
pub struct Window {
    bytes: [u8; PIECE],
    /// The place of the first of them in the file.
    from: u64,
    /// How many of them are the file's.
    held: usize,
}

impl Window {
    ghost use Rattle.std.specs.Prelude.{◌≡◌, ◌+◌, ◌^◌, ◌≤◌, ◌↔◌, IsTrue, ◌⊎◌, length, OnOk, IfOk, IfErr, IfSome, Some, Err, Option};
    ghost use Rattle.odb_device.specs.World.{File, file_of};
    ghost use Rattle.odb_device.specs.Calls.{HasCause, FileCountRose};
    ghost use Rattle.odb_device.specs.Images.{part};
    ghost use Rattle.odb_reclog.specs.Told.{IfTold, OnlyReads};
    ghost use Rattle.odb_reclog.specs.Reading.{head_at};
    ghost use Rattle.odb_reclog.specs.Windows.{Shows};

    /// A window that holds nothing, so it shows every file as it is. It takes no memory.
    pub fn new() -> Window
        ensures { (file : Option File) → Shows result file }
    {
        Window {
            bytes: [0; PIECE],
            from: 0,
            held: 0,
        }
    }

    /// Whether it holds the head of a record at this place.
    fn holds(&self, place: u64) -> bool
        requires { place ≤ 2 ^ 40 }
        ensures { IsTrue result
            ↔ ((self.now.from ≤ place) × (place + 13 ≤ self.now.from + self.now.held)) }
    {
        self.from <= place && place - self.from + HEAD <= self.held as u64
    }

    /// The head of a record at a place that it holds.
    fn shown(&self, place: u64) -> Head
        requires place { place ≤ 2 ^ 40 }
        requires held { (self.now.from ≤ place) × (place + 13 ≤ self.now.from + self.now.held) }
        requires within { self.now.held ≤ 65536 }
        ensures { (file : Option File) → Shows self.now file
            → IfSome file (λ f. result ≡ head_at place f.bytes) }
    {
        let at = (place - self.from) as usize;
        Head::from_bytes(&self.bytes[at..at + HEAD as usize])
    }

    /// Reads the bytes of a region that ends at `end` from a place on, at most 65,536.
    fn read<S: Store>(
        &mut self,
        store: &mut S,
        file: u32,
        place: u64,
        end: u64,
    ) -> Result<(), Failed>
        requires range { (place + 13 ≤ end) × (end ≤ 2 ^ 40) }
        ensures run { OnlyReads file (S.world store.old) (S.world store.new) }
        ensures shows { OnOk result (Shows self.new (file_of file (S.world store.old))) }
        ensures from { OnOk result (self.new.from ≡ place) }
        ensures held { OnOk result (IfTold file (S.world store.old)
            (λ bytes. end ≤ length bytes → 13 ≤ self.new.held)) }
        ensures cause { HasCause file (S.world store.old) (S.world store.new) result }
    {
        let size = (end - place).min(PIECE as u64) as usize;
        self.held = store.read_at(file, place, &mut self.bytes[..size])?;
        self.from = place;
        Ok(())
    }

    /// The head of a record at this place of a region that ends at `end`; None where the store
    /// gives fewer than 13 bytes.
    ///
    /// One read, of at most 65,536 bytes of the region from this place on, where the window doesn't
    /// hold the head.
    pub(crate) fn head<S: Store>(
        &mut self,
        store: &mut S,
        file: u32,
        place: u64,
        end: u64,
    ) -> Result<Option<Head>, Failed>
        requires range { (place + 13 ≤ end) × (end ≤ 2 ^ 40) }
        requires shows { Shows self.old (file_of file (S.world store.old)) }
        ensures run { OnlyReads file (S.world store.old) (S.world store.new) }
        ensures shows { OnOk result (Shows self.new (file_of file (S.world store.old))) }
        ensures head { IfTold file (S.world store.old) (λ bytes. end ≤ length bytes
            → IfOk result (λ found. found ≡ Some (head_at place bytes))) }
        ensures cause { HasCause file (S.world store.old) (S.world store.new) result }
    {
        if !self.holds(place) {
            self.read(store, file, place, end)?;
            if !self.holds(place) {
                return Ok(None);
            }
        }
        Ok(Some(self.shown(place)))
    }

    /// Whether it holds so many bytes from a place on.
    fn covers(&self, place: u64, size: u32) -> bool
        requires { place ≤ 2 ^ 40 }
        ensures { IsTrue result
            ↔ ((self.now.from ≤ place) × (place + size ≤ self.now.from + self.now.held)) }
    {
        self.from <= place && place - self.from + u64::from(size) <= self.held as u64
    }

    /// So many bytes of the file from a place on; None where the store gives fewer.
    ///
    /// A copy of what the window holds; else one read of these bytes. Memory is taken for them.
    pub(crate) fn bytes<S: Store>(
        &self,
        alloc: Global,
        store: &mut S,
        file: u32,
        place: u64,
        size: u32,
    ) -> Result<Option<Bytes>, RecError>
        requires place { place ≤ 2 ^ 40 }
        requires shows { Shows self.now (file_of file (S.world store.old)) }
        ensures run { OnlyReads file (S.world store.old) (S.world store.new) }
        ensures bytes { IfTold file (S.world store.old) (λ bytes. place + size ≤ length bytes
            → IfOk result (λ found. found ≡ Some (part place size bytes))) }
        ensures size { IfOk result (λ found. IfSome found (λ bytes. length bytes ≡ size)) }
        ensures refusal { IfErr result (λ e. (e ≡ RecError.Fault) ⊎ (e ≡ RecError.NoMemory)) }
        ensures cause { result ≡ Err RecError.Fault
            → FileCountRose file (S.world store.old) (S.world store.new) }
    {
        if !self.covers(place, size) {
            return read_bytes(alloc, store, file, place, size);
        }
        let at = (place - self.from) as usize;
        let held = &self.bytes[at..at + size as usize];
        Ok(Some(Frozen::from_vec(held.to_vec(alloc)?)))
    }
}
