//! Turning the sides.
ghost use Rattle.std.specs.Prelude.{◌≡◌, ◌+◌, ◌^◌, ◌≤◌, ℕ, List, [], false, length, Err, OnOk, IsTrue};
ghost use Rattle.odb_device.specs.World.{file_of};
ghost use Rattle.odb_device.specs.Calls.{FileCountRose};
ghost use Rattle.odb_device.specs.Moments.{WritesWithin};
ghost use Rattle.odb_device.specs.Zeros.{AreZero};
ghost use Rattle.odb_reclog.specs.Standing.{StandsFor as LogStandsFor, begun};
ghost use Rattle.odb_model.specs.declared.entry.Entry.{Entry};
ghost use Rattle.odb_model.specs.declared.side.OtherSide.TheVariants.{Clean};
ghost use Rattle.odb_transdb.specs.Header.{is_header, side_start, side_end, side_size, active_first};

use crate::header::Header;
use crate::transdb::FILE;
use crate::{Transdb, TransdbError};
use odb_device::Store;
use odb_model::OtherSide;
use odb_reclog::RecLog;
use std::mem;

impl Transdb {
    ghost use Rattle.odb_transdb.specs.Standing.{IsPlaced, room_of};
    ghost use Rattle.odb_transdb.specs.Worlds.{SameEntries};
    ghost use Rattle.odb_transdb.specs.Turning.{MayStand, StandsSince, SameSides, IsTurnAnswer, RunsTurn, IsTurned};

    /// Makes the other side active, where that is Clean: it has no record, and its first will have
    /// the number after the last entry. The side that was active is Live.
    ///
    /// It puts the new header: at most three writes and three syncs. The side is begun without a
    /// look at it, since a Clean side is zeros on the disk. At each moment a crash leaves the same
    /// entries, under the old header or the new one. No memory is taken: that for the places kept
    /// of both sides' records was reserved by the opening.
    ///
    /// - `NotClean`: the other side isn't Clean. No call of the store was made.
    /// - `Fault`: a call of the store failed. All is as before but that the pair is unsettled: a
    ///   crash may leave either header. It may be called again, and so may all else.
    pub fn turn<S: Store>(&mut self, store: &mut S) -> Result<(), TransdbError>
        requires usable { self.old.active.in_doubt ≡ false }
        requires last { self.old.active.next ≤ 2 ^ 48 + 1 }
        requires stands { MayStand self.old (file_of 0 (S.world store.old)) }
        ensures answer { IsTurnAnswer self.old result }
        ensures not_clean { result ≡ Err TransdbError.NotClean
            → (self.new ≡ self.old) × (store.new ≡ store.old) }
        ensures run { self.old.header.other ≡ Clean → (all : List Entry)
            → StandsSince self.old all (file_of 0 (S.world store.old))
            → RunsTurn all self.old self.new (S.world store.old) (S.world store.new) }
        ensures only { WritesWithin 0 0 1024 (S.world store.old) (S.world store.new) }
        ensures turned { OnOk result (IsTurned self.old self.new (S.world store.new)) }
        ensures entries { OnOk result (SameEntries (S.world store.old) (S.world store.new)) }
        ensures room { OnOk result (room_of self.new ≡ side_size self.new.header) }
        ensures fault { result ≡ Err TransdbError.Fault → SameSides self.old self.new }
        ensures unsettled { result ≡ Err TransdbError.Fault → self.new.pair.settled ≡ false }
        ensures placed { IsPlaced self.old × IsPlaced self.new }
        ensures cause { result ≡ Err TransdbError.Fault
            → FileCountRose 0 (S.world store.old) (S.world store.new) }
    {
        if self.header.other != OtherSide::Clean {
            return Err(TransdbError::NotClean);
        }
        let header = self.header.turned(self.active.next_number());
        let image = header.image();
        match self.pair.put(store, &image) {
            Ok(()) => {
                let active = begin_side(&header);
                self.live = Some(mem::replace(&mut self.active, active));
                self.live_places.clear();
                mem::swap(&mut self.places, &mut self.live_places);
                self.header = header;
                Ok(())
            }
            Err(_) => Err(TransdbError::Fault),
        }
    }
}

/// The log of an active side that is zeros.
fn begin_side(header: &Header) -> RecLog
    requires { IsTrue (is_header header.now) }
    ensures log { result ≡ begun 0 (side_start header.now header.now.active)
        (side_end header.now header.now.active) (active_first header.now) }
    ensures stands { (bytes : List ℕ) → side_end header.now header.now.active ≤ length bytes
        → AreZero (side_start header.now header.now.active)
        (side_end header.now header.now.active) bytes
        → LogStandsFor result [] [] bytes }
{
    let start = header.side_start(header.active);
    let end = start + header.side_size();
    RecLog::begin(FILE, start, end, header.first_on(header.active))
}
