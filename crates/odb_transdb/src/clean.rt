//! Cleaning the side that isn't active.
ghost use Rattle.std.specs.Prelude.{◌≡◌, ◌≢◌, ℕ, List, false, Ok, Err, OnOk, OnErr, IfErr};
ghost use Rattle.odb_device.specs.World.{file_of};
ghost use Rattle.odb_device.specs.Images.{EachImage};
ghost use Rattle.odb_device.specs.Calls.{HasCause, FileCountRose};
ghost use Rattle.odb_device.specs.Moments.{WritesWithin};
ghost use Rattle.odb_model.specs.declared.entry.Entry.{Entry};
ghost use Rattle.odb_model.specs.declared.side.OtherSide.TheVariants.{Dirty, Clean};

use crate::zeros::zero_range;
use crate::{Transdb, TransdbError};
use odb_device::Store;
use odb_model::OtherSide;

impl Transdb {
    ghost use Rattle.odb_transdb.specs.Standing.{IsPlaced, Stands};
    ghost use Rattle.odb_transdb.specs.Worlds.{KeepsEntries, SameEntries};
    ghost use Rattle.odb_transdb.specs.Turning.{MayStand, StandsSince, SameSides, HasOther, HasZeroOther, IsCleanAnswer, RunsClean, WritesOther, IsCleaned};

    /// Makes the other side zeros, and Clean, where its entries aren't wanted: all up to `least`
    /// may go. A Clean side is left, without a call of the store.
    ///
    /// It puts the header with a Dirty side, zeroes the side in pieces of 65,536 bytes, syncs, and
    /// puts the header with a Clean one: at most six writes and seven syncs beside the pieces. At
    /// each moment a crash leaves the entries from the old first number on, or those of the active
    /// side; only the pair and the other side are written. No memory is taken.
    ///
    /// - `Held`: the other side is Live, and its last entry has a number above `least`. No call of
    ///   the store was made.
    /// - `Fault`: a call of the store failed. The other side is Dirty then; a crash may leave the
    ///   old header, that one or a Clean side. It may be called again, and so may all else.
    pub fn clean<S: Store>(&mut self, store: &mut S, least: u64) -> Result<(), TransdbError>
        requires usable { self.old.active.in_doubt ≡ false }
        requires stands { MayStand self.old (file_of 0 (S.world store.old)) }
        ensures answer { IsCleanAnswer self.old least result }
        ensures held { (mark last : ℕ) → result ≡ Err (TransdbError.Held mark last)
            → (self.new ≡ self.old) × (store.new ≡ store.old) }
        ensures quiet { self.old.header.other ≡ Clean
            → (result ≡ Ok tt) × (self.new ≡ self.old) × (store.new ≡ store.old) }
        ensures run { (all : List Entry) → StandsSince self.old all (file_of 0 (S.world store.old))
            → RunsClean all self.old self.new (S.world store.old) (S.world store.new) }
        ensures only { WritesOther self.old.header (S.world store.old) (S.world store.new) }
        ensures cleaned { OnOk result (self.old.header.other ≢ Clean
            → IsCleaned self.old self.new (S.world store.new)) }
        ensures fault { result ≡ Err TransdbError.Fault → HasOther Dirty self.old self.new }
        ensures placed { IsPlaced self.old × IsPlaced self.new }
        ensures cause { result ≡ Err TransdbError.Fault
            → FileCountRose 0 (S.world store.old) (S.world store.new) }
    {
        if self.header.other == OtherSide::Clean {
            return Ok(());
        }
        if self.header.other == OtherSide::Live {
            let last = self.header.first_on(self.header.active) - 1;
            if least < last {
                return Err(TransdbError::Held { mark: least, last });
            }
        }
        self.put_dirty(store)?;
        self.zero_other(store)?;
        self.put_clean(store)
    }

    /// Puts the header with a Dirty other side, of which nothing is held from then on.
    fn put_dirty<S: Store>(&mut self, store: &mut S) -> Result<(), TransdbError>
        requires other { self.old.header.other ≢ Clean }
        requires stands { MayStand self.old (file_of 0 (S.world store.old)) }
        ensures run { (all : List Entry) → StandsSince self.old all (file_of 0 (S.world store.old))
            → RunsClean all self.old self.new (S.world store.old) (S.world store.new) }
        ensures only { WritesWithin 0 0 1024 (S.world store.old) (S.world store.new) }
        ensures dirty { HasOther Dirty self.old self.new }
        ensures stands { OnOk result (Stands self.new (file_of 0 (S.world store.new))) }
        ensures placed { IsPlaced self.old × IsPlaced self.new }
        ensures refusal { IfErr result (λ e. e ≡ TransdbError.Fault) }
        ensures cause { HasCause 0 (S.world store.old) (S.world store.new) result }
    {
        self.header = self.header.with_other(OtherSide::Dirty);
        self.live = None;
        self.live_places.clear();
        let image = self.header.image();
        match self.pair.put(store, &image) {
            Ok(()) => Ok(()),
            Err(_) => Err(TransdbError::Fault),
        }
    }

    /// Makes a Dirty other side zeros on the disk.
    fn zero_other<S: Store>(&self, store: &mut S) -> Result<(), TransdbError>
        requires dirty { self.now.header.other ≡ Dirty }
        requires stands { Stands self.now (file_of 0 (S.world store.old)) }
        ensures run { KeepsEntries self.now (S.world store.old) (S.world store.new) }
        ensures only { WritesOther self.now.header (S.world store.old) (S.world store.new) }
        ensures stands { Stands self.now (file_of 0 (S.world store.new)) }
        ensures entries { SameEntries (S.world store.old) (S.world store.new) }
        ensures zero { OnOk result
            (EachImage (HasZeroOther self.now.header) (file_of 0 (S.world store.new))) }
        ensures refusal { IfErr result (λ e. e ≡ TransdbError.Fault) }
        ensures cause { HasCause 0 (S.world store.old) (S.world store.new) result }
    {
        let start = self.header.side_start(self.header.other_side());
        zero_range(store, start, start + self.header.side_size())?;
        Ok(())
    }

    /// Puts the header with a Clean other side, which was Dirty and is zeros on the disk.
    fn put_clean<S: Store>(&mut self, store: &mut S) -> Result<(), TransdbError>
        requires dirty { self.old.header.other ≡ Dirty }
        requires stands { Stands self.old (file_of 0 (S.world store.old)) }
        requires zero { EachImage (HasZeroOther self.old.header) (file_of 0 (S.world store.old)) }
        ensures run { (all : List Entry) → StandsSince self.old all (file_of 0 (S.world store.old))
            → RunsClean all self.old self.new (S.world store.old) (S.world store.new) }
        ensures only { WritesWithin 0 0 1024 (S.world store.old) (S.world store.new) }
        ensures clean { OnOk result (IsCleaned self.old self.new (S.world store.new)) }
        ensures left { OnErr result (SameSides self.old self.new) }
        ensures placed { IsPlaced self.new }
        ensures refusal { IfErr result (λ e. e ≡ TransdbError.Fault) }
        ensures cause { HasCause 0 (S.world store.old) (S.world store.new) result }
    {
        let header = self.header.with_other(OtherSide::Clean);
        let image = header.image();
        match self.pair.put(store, &image) {
            Ok(()) => {
                self.header = header;
                Ok(())
            }
            Err(_) => Err(TransdbError::Fault),
        }
    }
}
