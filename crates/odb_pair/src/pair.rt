//! A value of forty bytes at two places of a file.
ghost use Rattle.std.specs.Prelude.{◌≡◌, ◌≢◌, ◌-◌, ◌*◌, ◌≤◌, ℕ, List, Ok, Err, true, false, IsTrue, length, IfOk, IfErr, OnOk, OnErr, IfSome};
ghost use Rattle.std.specs.Int.{w64, to_be_bytes};
ghost use Rattle.odb_device.specs.World.{file_of};
ghost use Rattle.odb_device.specs.Images.{EachImage, part};
ghost use Rattle.odb_device.specs.Calls.{HasCause, Keeps, FileCountRose};
ghost use Rattle.odb_device.specs.Moments.{WritesWithin};
ghost use Rattle.odb_pair.specs.Places.{Holds};
ghost use Rattle.odb_pair.specs.Standing.{StandsFor, Stands, IsFilled, HoldsKept, HoldsKeptOr, RunsPair, LeavesUnsettled, Settles, formatted, after_put, with_closed, with_tried, unsettled};
ghost use Rattle.odb_pair.specs.Answers.{IsOpened};

use crate::PairError;
use crate::reading::{OPEN_GATE, read_places};
use odb_device::{Failed, Store, write_synced};
use std::marker::Model;

/// The byte that closes a gate. Any but [`OPEN_GATE`] would do.
const CLOSED_GATE: u8 = 0;

/// A value of forty bytes that survives a crash, kept at two places of a file: bytes 0 to 63 and
/// bytes 512 to 575.
///
/// A place is a gate of one byte, which is open where it is 0xA5, a number of eight bytes,
/// big-endian, the value, and 15 bytes that are written as zeros and not looked at. The open place
/// counts, and of two the one whose number comes after the other's, modulo 2^64. A value is put at
/// the place that doesn't count, behind its closed gate, so a crash at any moment leaves the value
/// kept or the new one, or, after a put that broke off, the one that it tried.
///
/// A pair reads and writes the file's first 1,024 bytes alone, and takes no memory but arrays on
/// the stack. Contracts see it as a `PairState`, and say by `StandsFor` which bytes are those of a
/// pair.
///
/// After a fault in `put` or `settle` the pair is unsettled: a crash may leave the value kept, or
/// that of the last broken put that came as far as its gate. A later put with Ok, of whatever
/// value, settles it.
#[derive(Debug, Drop)]
pub struct Pair {
    file: u32,
    /// The place that counts, 0 or 1.
    place: u64,
    /// Its number.
    sequence: u64,
    /// Its value: the one put last with Ok.
    value: [u8; 40],
    /// What the other place may have since a fault.
    tried: [u8; 40],
    /// The other place's gate is closed on the disk.
    closed: bool,
    settled: bool,
}

impl Model for Pair {
    ghost use Rattle.odb_pair.specs.Standing.{PairState, IsSound};

    ghost Value = { PairState };

    ghost view = { λ p. record {
      file = p.file;
      place = p.place;
      sequence = p.sequence;
      value = p.value;
      tried = p.tried;
      closed = p.closed;
      settled = p.settled;
    } };

    ghost invariant = { λ p. IsSound (view p) };
}

impl Pair {
    /// Makes a pair of the file's first 1,024 bytes, with this value at place 0 under the number 1.
    /// A file that is shorter grows to them.
    ///
    /// It writes 1,024 zeros, then the number and the value, then the gate, with a sync after each:
    /// three writes and three syncs, and 1,024 bytes of the stack. A crash before it ends, and
    /// `Fault`, the only refusal, may leave any bytes there.
    pub fn format<S: Store>(store: &mut S, file: u32, value: &[u8; 40]) -> Result<Pair, PairError>
        ensures run { WritesWithin file 0 1024 (S.world store.old) (S.world store.new) }
        ensures stands { IfOk result (λ pair. Stands pair (file_of file (S.world store.new))) }
        ensures holds { OnOk result
            (EachImage (Holds value.now) (file_of file (S.world store.new))) }
        ensures pair { IfOk result
            (λ pair. (pair.file ≡ file) × (pair.value ≡ value.now) × (pair.settled ≡ true)) }
        ensures fresh { IfOk result (λ pair. pair ≡ formatted file value.now) }
        ensures refusal { IfErr result (λ e. e ≡ PairError.Fault) }
        ensures cause { HasCause file (S.world store.old) (S.world store.new) result }
    {
        write_synced(store, file, 0, &[0; 1024])?;
        write_synced(store, file, 1, &body_of(1, value))?;
        write_synced(store, file, 0, &[OPEN_GATE])?;
        Ok(Pair {
            file,
            place: 0,
            sequence: 1,
            value: *value,
            tried: *value,
            closed: true,
            settled: true,
        })
    }

    /// The pair that the file's bytes are, once they are on the disk: one sync and one read of
    /// 1,024 bytes, onto the stack.
    ///
    /// It refuses `NoOpenPlace` and `Malformed` exactly by the two gates, the numbers and the
    /// file's length, as `opened` says, and `Fault` where the sync or the read failed. It writes
    /// nothing. The sync comes first, so what is read is all that a crash leaves, and the pair is
    /// settled; after `Fault` a crash may still leave what it might have left before.
    pub fn open<S: Store>(store: &mut S, file: u32) -> Result<Pair, PairError>
        ensures run { WritesWithin file 0 0 (S.world store.old) (S.world store.new) }
        ensures kept { result ≢ Err PairError.Fault
            → Keeps file (S.world store.old) (S.world store.new) }
        ensures answer { IfSome (file_of file (S.world store.old)) (λ f. IsOpened result f.bytes) }
        ensures stands { IfOk result (λ pair. Stands pair (file_of file (S.world store.new))) }
        ensures holds { IfOk result
            (λ pair. EachImage (Holds pair.value) (file_of file (S.world store.new))) }
        ensures pair { IfOk result (λ pair. (pair.file ≡ file) × (pair.settled ≡ true)) }
        ensures tried { IfOk result (λ pair. pair.tried ≡ pair.value) }
        ensures fault { result ≡ Err PairError.Fault
            → FileCountRose file (S.world store.old) (S.world store.new) }
    {
        store.sync(file)?;
        let mut bytes = [0; 1024];
        let n = store.read_at(file, 0, &mut bytes)?;
        let counting = read_places(&bytes[..n])?;
        let value = counting.value;
        Ok(Pair {
            file,
            place: counting.place,
            sequence: counting.sequence,
            value,
            tried: value,
            closed: counting.alone,
            settled: true,
        })
    }

    /// Puts a value at the place that doesn't count, which counts from then on, under the next
    /// number modulo 2^64.
    ///
    /// It closes that place's gate, writes the number and the value, and opens the gate, with a
    /// sync after each: at most three writes and three syncs, and two of each where the gate is
    /// closed on the disk already.
    ///
    /// At each moment of it a crash leaves the value kept, this one, or that of the last broken put
    /// that came as far as its gate; after Ok this one alone. After `Fault`, the only refusal, the
    /// pair is unsettled: the place, the number and the value kept are as before, and a crash may
    /// leave besides the value kept this one, or the one tried before it.
    pub fn put<S: Store>(&mut self, store: &mut S, value: &[u8; 40]) -> Result<(), PairError>
        requires { Stands self.old (file_of self.old.file (S.world store.old)) }
        ensures run { RunsPair self.old (HoldsKeptOr self.old value.now)
            (S.world store.old) (S.world store.new) }
        ensures stands { Stands self.new (file_of self.old.file (S.world store.new)) }
        ensures holds { OnOk result
            (EachImage (Holds value.now) (file_of self.old.file (S.world store.new))) }
        ensures counts { OnOk result (self.new ≡ after_put self.old value.now) }
        ensures unsettled { OnErr result (LeavesUnsettled value.now self.old self.new) }
        ensures same { self.new.file ≡ self.old.file }
        ensures refusal { IfErr result (λ e. e ≡ PairError.Fault) }
        ensures cause { HasCause self.old.file (S.world store.old) (S.world store.new) result }
    {
        self.settled = false;
        self.close(store)?;
        self.fill(store, value)?;
        self.open_gate(store, value)?;
        self.settled = true;
        Ok(())
    }

    /// Puts the value kept once more where the pair is unsettled, as `put` does; else it makes no
    /// call of the store.
    ///
    /// After Ok a crash leaves the value kept alone. After `Fault`, the only refusal, the pair is
    /// as after a `put` that failed.
    pub fn settle<S: Store>(&mut self, store: &mut S) -> Result<(), PairError>
        requires { Stands self.old (file_of self.old.file (S.world store.old)) }
        ensures run { RunsPair self.old (HoldsKept self.old)
            (S.world store.old) (S.world store.new) }
        ensures stands { Stands self.new (file_of self.old.file (S.world store.new)) }
        ensures holds { OnOk result
            (EachImage (Holds self.old.value) (file_of self.old.file (S.world store.new))) }
        ensures ok { OnOk result (Settles self.old self.new) }
        ensures unsettled { OnErr result (LeavesUnsettled self.old.value self.old self.new) }
        ensures quiet { self.old.settled ≡ true
            → (result ≡ Ok tt) × (self.new ≡ self.old) × (store.new ≡ store.old) }
        ensures same { (self.new.file ≡ self.old.file) × (self.new.value ≡ self.old.value) }
        ensures refusal { IfErr result (λ e. e ≡ PairError.Fault) }
        ensures cause { HasCause self.old.file (S.world store.old) (S.world store.new) result }
    {
        if self.settled {
            return Ok(());
        }
        let value = self.value;
        self.put(store, &value)
    }

    /// Whether no crash leaves another value than the one kept: so after `format`, `open`, and each
    /// put with Ok.
    pub fn settled(&self) -> bool
        ensures value { result ≡ self.now.settled }
        ensures holds { IsTrue result
            → (bytes : List ℕ) → StandsFor self.now bytes → Holds self.now.value bytes }
    {
        self.settled
    }

    /// The value kept: the one put last with Ok, or the one that was opened or formatted.
    pub fn value(&self) -> [u8; 40]
        ensures value { result ≡ self.now.value }
        ensures holds { (bytes : List ℕ) → StandsFor self.now bytes → HoldsKept self.now bytes }
    {
        self.value
    }

    /// The number of the file that has the pair.
    pub fn file(&self) -> u32
        ensures { result ≡ self.now.file }
    {
        self.file
    }

    /// Closes the gate of the place that doesn't count, where it isn't closed on the disk: at most
    /// one write and one sync.
    fn close<S: Store>(&mut self, store: &mut S) -> Result<(), Failed>
        requires { Stands self.old (file_of self.old.file (S.world store.old)) }
        ensures run { RunsPair self.old (StandsFor self.old)
            (S.world store.old) (S.world store.new) }
        ensures stands { OnOk result
            (Stands (with_closed self.old) (file_of self.old.file (S.world store.new))) }
        ensures ok { OnOk result (self.new ≡ with_closed self.old) }
        ensures err { OnErr result (self.new ≡ self.old) }
        ensures cause { HasCause self.old.file (S.world store.old) (S.world store.new) result }
    {
        if !self.closed {
            write_synced(store, self.file, self.other_start(), &[CLOSED_GATE])?;
            self.closed = true;
        }
        Ok(())
    }

    /// Writes the number and the value of the place that doesn't count, behind its closed gate: one
    /// write and one sync.
    fn fill<S: Store>(&self, store: &mut S, value: &[u8; 40]) -> Result<(), Failed>
        requires closed { self.now.closed ≡ true }
        requires stands { Stands self.now (file_of self.now.file (S.world store.old)) }
        ensures run { RunsPair self.now (StandsFor self.now)
            (S.world store.old) (S.world store.new) }
        ensures filled { OnOk result
            (EachImage (IsFilled self.now value.now) (file_of self.now.file (S.world store.new))) }
        ensures cause { HasCause self.now.file (S.world store.old) (S.world store.new) result }
    {
        let body = body_of(self.sequence.wrapping_add(1), value);
        write_synced(store, self.file, self.other_start() + 1, &body)
    }

    /// Opens the gate of the place that doesn't count, and counts that place where this is done:
    /// one write and one sync.
    #[tactic(auto, unfolding(crate::specs::Places::next))]
    fn open_gate<S: Store>(&mut self, store: &mut S, value: &[u8; 40]) -> Result<(), Failed>
        requires unsettled { self.old.settled ≡ false }
        requires filled { EachImage (IsFilled self.old value.now)
            (file_of self.old.file (S.world store.old)) }
        ensures run { RunsPair self.old (StandsFor (with_tried value.now self.old))
            (S.world store.old) (S.world store.new) }
        ensures stands { Stands self.new (file_of self.old.file (S.world store.new)) }
        ensures ok { OnOk result (self.new ≡ unsettled (after_put self.old value.now)) }
        ensures err { OnErr result (self.new ≡ with_tried value.now self.old) }
        ensures cause { HasCause self.old.file (S.world store.old) (S.world store.new) result }
    {
        self.tried = *value;
        self.closed = false;
        write_synced(store, self.file, self.other_start(), &[OPEN_GATE])?;
        self.place = 1 - self.place;
        self.sequence = self.sequence.wrapping_add(1);
        self.value = *value;
        Ok(())
    }

    /// The first byte of the place that doesn't count: 0 or 512.
    fn other_start(&self) -> u64
        ensures value { result ≡ 512 * (1 - self.now.place) }
        ensures place { self.now.place ≤ 1 }
    {
        512 * (1 - self.place)
    }
}

/// What stands behind the gate of a place: its number, its value and 15 zeros.
fn body_of(sequence: u64, value: &[u8; 40]) -> [u8; 63]
    ensures size { length result ≡ 63 }
    ensures sequence { part 0 8 result ≡ to_be_bytes w64 sequence }
    ensures value { part 8 40 result ≡ value.now }
{
    let mut body = [0; 63];
    body[..8].copy_from_slice(&sequence.to_be_bytes());
    body[8..48].copy_from_slice(value);
    body
}
