//! A record log in memory.
ghost use Rattle.std.specs.Prelude.{◌≡◌, ◌^◌, ◌-◌, ◌<◌, ◌≤◌, ℕ, List, [], false, length};

use std::marker::Model;

/// A record log: a region of a file, and the place at which its next record goes.
///
/// A body is written behind the closed gate of the next place, and counts from the moment at which
/// that gate is open on the disk. All places are bytes from the file's start.
#[derive(Debug, Drop)]
pub struct RecLog {
    pub(crate) file: u32,
    pub(crate) start: u64,
    pub(crate) end: u64,
    /// The number of the first record; each later one has the next.
    pub(crate) first: u64,
    /// The place of the next record, whose gate is closed on the disk.
    pub(crate) place: u64,
    pub(crate) next: u64,
    /// From here to the end the region is zeros on the disk.
    pub(crate) clear_from: u64,
    /// What stands between the next gate and these zeros may differ from what a read gives.
    pub(crate) touched: bool,
    /// It is a whole body, whose gate wasn't opened yet.
    pub(crate) has_body: bool,
    /// It isn't known whether the gate of the last body is open.
    pub(crate) in_doubt: bool,
}

impl Model for RecLog {
    ghost use Rattle.odb_reclog.specs.Fields.{log_in};
    ghost use Rattle.odb_reclog.specs.Standing.{Log, IsLog};

    ghost Value = { Log };

    ghost view = { log_in };

    ghost invariant = { λ l. IsLog (log_in l) };
}

impl RecLog {
    ghost use Rattle.odb_device.specs.Zeros.{AreZero};
    ghost use Rattle.odb_reclog.specs.Standing.{StandsFor, begun};

    /// The log of a region that is zeros on the disk, from the byte `start` to before the byte
    /// `end`: it has no record, and its first will have the number `first`.
    ///
    /// It makes no call of a store: the zeros have to be known.
    pub fn begin(file: u32, start: u64, end: u64, first: u64) -> RecLog
        requires region { (start < end) × (end ≤ 2 ^ 40) }
        requires first { first ≤ 2 ^ 63 }
        ensures log { result ≡ begun file start end first }
        ensures stands { (bytes : List ℕ) → end ≤ length bytes → AreZero start end bytes
            → StandsFor result [] [] bytes }
    {
        RecLog {
            file,
            start,
            end,
            first,
            place: start,
            next: first,
            clear_from: start + 1,
            touched: false,
            has_body: false,
            in_doubt: false,
        }
    }

    /// Gives the region a later end, in bytes from the file's start.
    ///
    /// It makes no call of a store: what stands between the old end and the new one has to be zeros
    /// on the disk already.
    pub fn extend(&mut self, end: u64)
        requires range { (self.old.end ≤ end) × (end ≤ 2 ^ 40) }
        requires usable { self.old.in_doubt ≡ false }
        ensures log { self.new ≡ record self.old { end = end } }
        ensures stands { (records : List (List ℕ)) (tail bytes : List ℕ)
            → StandsFor self.old records tail bytes
            → end ≤ length bytes → AreZero self.old.end end bytes
            → StandsFor self.new records tail bytes }
    {
        self.end = end;
    }

    /// The number of the next record.
    pub fn next_number(&self) -> u64
        ensures { result ≡ self.now.next }
    {
        self.next
    }

    /// The place of the next record, in bytes from the file's start.
    pub fn place(&self) -> u64
        ensures value { result ≡ self.now.place }
        ensures range { (self.now.start ≤ self.now.place) × (self.now.place ≤ self.now.end) }
    {
        self.place
    }

    /// How many bytes are left for records; one takes 13 and those of its payload.
    pub fn room(&self) -> u64
        ensures { result ≡ self.now.end - self.now.place }
    {
        self.end - self.place
    }
}
