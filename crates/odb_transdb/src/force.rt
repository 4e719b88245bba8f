//! How a commit becomes durable.
ghost use Rattle.std.specs.Prelude.{◌≡◌, ℕ, ◌+◌, ◌≤◌, true, false, List, [], ◌∷◌, length, Option, Ok, Err, IfOk, OnOk, OnErr};
ghost use Rattle.odb_device.specs.World.{File, file_of};
ghost use Rattle.odb_device.specs.Images.{ReadsImage};
ghost use Rattle.odb_device.specs.Calls.{HasCause, FileCountRose, IsOnePut};
ghost use Rattle.odb_device.specs.Moments.{WritesWithin};
ghost use Rattle.odb_reclog.specs.Records.{OPEN, HEAD};
ghost use Rattle.odb_codec.specs.Reading.{read_entry};
ghost use Rattle.odb_model.specs.declared.entry.Entry.{Entry};

use crate::transdb::HEAD_SIZE;
use crate::{Transdb, TransdbError};
use odb_device::Store;
use odb_pair::PairError;
use odb_reclog::RecError;

impl Transdb {
    ghost use Rattle.odb_transdb.specs.Standing.{Stands, IsPlaced, AreAlike, AreAlikePlaced, SamePlace, room_of};
    ghost use Rattle.odb_transdb.specs.Turning.{MayStand, StandsSince, SameSides, RunsSettling, SettlesFirst};
    ghost use Rattle.odb_transdb.specs.Answers.{IsEntryImage, IsForceAnswer};
    ghost use Rattle.odb_transdb.specs.Leaving.{MovesOn};
    ghost use Rattle.odb_transdb.specs.Worlds.{KeepsEntries, PutsEntry, Forces, IsForced, FaultedBefore, LeavesInDoubt, WritesBehindGate, WritesFromGate, Settles, IsRecorded, IsWrittenIn, IsAtGate};

    /// Adds an entry, whose image these bytes are, and answers its number once it is on the disk.
    ///
    /// Where the pair is settled it writes the record behind its closed gate, syncs, opens the gate
    /// and syncs: three writes and two syncs, and no read, where the tail of the active side is
    /// clear. It is so after each Ok; after opening and after `FaultBefore` it is cleared first,
    /// which reads the rest of the side once, or writes what a broken record may have left, with
    /// one sync more where it wrote. After a `turn` or a `clean` that failed the header is put once
    /// more before all else: three writes and three syncs at most.
    ///
    /// While the pair is settled first a crash leaves the last of the entries before, from the
    /// first number by the header that counts. From then on, at each moment, it leaves the entries
    /// before, or those and this one; after Ok the latter, and nothing behind its record.
    ///
    /// - `Full`: the record needs more bytes than the side has left. No call of the store was made.
    /// - `FaultBefore`: a call of the store failed before the gate was written, and the entry isn't
    ///   there. The call may be made again.
    /// - `InDoubt`: the file's count rose in the gate's write or in the sync behind it, or in a
    ///   call that failed in the place of that write and changed nothing; before them the record
    ///   had been written in this call and was on the disk, and beside them no call failed or
    ///   changed anything from then on. A crash leaves the entry or not. Only a new opening, and
    ///   the calls that take no store, may follow.
    pub fn force<S: Store>(&mut self, store: &mut S, payload: &[u8]) -> Result<u64, TransdbError>
        requires usable { self.old.active.in_doubt ≡ false }
        requires payload { IsEntryImage payload.now }
        requires stands { MayStand self.old (file_of 0 (S.world store.old)) }
        ensures answer { IsForceAnswer (length payload.now) self.old result }
        ensures forces { Stands self.old (file_of 0 (S.world store.old))
            → Forces payload.now result self.old self.new
            (S.world store.old) (S.world store.new) }
        ensures settles { HEAD + length payload.now ≤ room_of self.old → (all : List Entry)
            → StandsSince self.old all (file_of 0 (S.world store.old))
            → SettlesFirst payload.now all result self.old self.new
            (S.world store.old) (S.world store.new) }
        ensures full { (need room : ℕ) → result ≡ Err (TransdbError.Full need room)
            → (self.new ≡ self.old) × (store.new ≡ store.old) }
        ensures placed { AreAlikePlaced self.old self.new }
    {
        let need = HEAD_SIZE + payload.len() as u64;
        let room = self.active.room();
        if room < need {
            return Err(TransdbError::Full { need, room });
        }
        match self.settle(store) {
            Ok(()) => self.force_settled(store, payload),
            Err(_) => Err(TransdbError::FaultBefore),
        }
    }

    /// Puts the header once more where the pair is unsettled.
    fn settle<S: Store>(&mut self, store: &mut S) -> Result<(), PairError>
        requires stands { MayStand self.old (file_of 0 (S.world store.old)) }
        ensures run { (all : List Entry) → StandsSince self.old all (file_of 0 (S.world store.old))
            → RunsSettling all self.old self.new (S.world store.old) (S.world store.new) }
        ensures quiet { self.old.pair.settled ≡ true
            → (result ≡ Ok tt) × (self.new ≡ self.old) × (store.new ≡ store.old) }
        ensures sides { SameSides self.old self.new }
        ensures unsettled { OnErr result (self.new.pair.settled ≡ false) }
        ensures stands { OnOk result (Stands self.new (file_of 0 (S.world store.new))) }
        ensures placed { IsPlaced self.new }
        ensures cause { HasCause 0 (S.world store.old) (S.world store.new) result }
    {
        if self.pair.settled() {
            return Ok(());
        }
        let image = self.header.image();
        self.pair.put(store, &image)
    }

    /// Adds an entry as `force` does, where the pair is settled and there is room.
    fn force_settled<S: Store>(
        &mut self,
        store: &mut S,
        payload: &[u8],
    ) -> Result<u64, TransdbError>
        requires usable { self.old.active.in_doubt ≡ false }
        requires payload { IsEntryImage payload.now }
        requires room { HEAD + length payload.now ≤ room_of self.old }
        requires placed { IsPlaced self.old }
        requires stands { Stands self.old (file_of 0 (S.world store.old)) }
        ensures answer { IsForceAnswer (length payload.now) self.old result }
        ensures entry { (e : Entry) → read_entry self.old.active.next payload.now ≡ Ok e
            → PutsEntry self.old e result (S.world store.old) (S.world store.new) }
        ensures forced { OnOk result
            (IsForced (length payload.now) self.old self.new (S.world store.new)) }
        ensures before { result ≡ Err TransdbError.FaultBefore
            → FaultedBefore self.old self.new (S.world store.old) (S.world store.new) }
        ensures doubt { (number : ℕ) → result ≡ Err (TransdbError.InDoubt number)
            → LeavesInDoubt payload.now self.old self.new (S.world store.old) (S.world store.new) }
        ensures only { WritesFromGate self.old (S.world store.old) (S.world store.new) }
        ensures placed { AreAlikePlaced self.old self.new }
    {
        if self.write_record(store, payload).is_err() {
            return Err(TransdbError::FaultBefore);
        }
        let number = self.active.next_number();
        match self.open_gate(store) {
            Ok(number) => {
                self.keep_place();
                Ok(number)
            }
            Err(_) => Err(TransdbError::InDoubt { number }),
        }
    }

    /// Clears the tail and writes a record behind the closed gate: on the disk after Ok.
    fn write_record<S: Store>(&mut self, store: &mut S, payload: &[u8]) -> Result<(), RecError>
        requires usable { self.old.active.in_doubt ≡ false }
        requires fits { self.old.active.place + HEAD + length payload.now ≤ self.old.active.end }
        requires stands { Stands self.old (file_of 0 (S.world store.old)) }
        ensures run { KeepsEntries self.old (S.world store.old) (S.world store.new) }
        ensures settled { Settles self.old self.new (S.world store.old) (S.world store.new) }
        ensures gate { WritesBehindGate self.old (S.world store.old) (S.world store.new) }
        ensures recorded { OnOk result
            (IsRecorded payload.now self.old self.new (S.world store.old) (S.world store.new)) }
        ensures end { self.new.active.end ≡ self.old.active.end }
        ensures placed { IsPlaced self.new }
        ensures cause { OnErr result (FileCountRose 0 (S.world store.old) (S.world store.new)) }
    {
        self.active.clear_tail(store)?;
        self.active.write_body(store, payload)
    }

    /// Opens the gate of the record that was written, which counts then, and answers its number: on
    /// the disk after Ok.
    fn open_gate<S: Store>(&mut self, store: &mut S) -> Result<u64, RecError>
        requires ready { IsAtGate self.old (S.world store.old) }
        ensures only { WritesWithin 0 self.old.active.place 1
            (S.world store.old) (S.world store.new) }
        ensures calls { IsOnePut 0 self.old.active.place (OPEN ∷ [])
            (S.world store.old) (S.world store.new) }
        ensures entry { (e : Entry) → IsWrittenIn self.old e (S.world store.old)
            → PutsEntry self.old e result (S.world store.old) (S.world store.new) }
        ensures stands { (e : Entry) → IsWrittenIn self.old e (S.world store.old)
            → OnOk result (Stands self.new (file_of 0 (S.world store.new))) }
        ensures opened { IfOk result (λ n. MovesOn n self.old.active self.new.active) }
        ensures err { OnErr result (SamePlace self.old self.new) }
        ensures same { self.new.header ≡ self.old.header }
        ensures placed { IsPlaced self.new }
        ensures cause { OnErr result (FileCountRose 0 (S.world store.old) (S.world store.new)) }
    {
        self.active.open_gate(store)
    }

    /// Keeps the place of the active side's next record, where that is the next to be kept.
    fn keep_place(&mut self)
        ensures log { AreAlike self.old self.new }
        ensures stands { (file : Option File) → ReadsImage file → Stands self.old file
            → Stands self.new file }
        ensures placed { IsPlaced self.new }
    {
        let first = self.header.first_on(self.header.active);
        self.places
            .keep(first, self.active.next_number(), self.active.place());
    }
}
