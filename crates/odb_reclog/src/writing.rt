//! What writes behind the next gate, and opens it.
ghost use Rattle.std.specs.Prelude.{◌≡◌, ◌⊎◌, ◌+◌, ◌-◌, ◌^◌, ◌<◌, ◌≤◌, ℕ, Some, IsTrue, ◌↔◌, EachIndex, slice_index, [], ◌∷◌, ◌++◌, true, false, length, Ok, Err, IfOk, OnOk, OnErr, IfErr, IfSome, option_map};
ghost use Rattle.std.specs.Int.{w32, w64, to_be_bytes};
ghost use Rattle.odb_device.specs.World.{File, file_of};
ghost use Rattle.odb_device.specs.Images.{IsKept, part, written, kept};
ghost use Rattle.odb_device.specs.Calls.{CallsOn, HasCause, FileCountRose, IsOnePut, Stays};
ghost use Rattle.odb_device.specs.Zeros.{AreZero, ReadsZero, ZerosGoOn};
ghost use Rattle.odb_reclog.specs.Records.{OPEN};
ghost use Rattle.odb_reclog.specs.Told.{IfTold, TearsOnly};

use crate::head::{HEAD, OPEN};
use crate::window::PIECE;
use crate::{RecError, RecLog};
use odb_device::{Failed, Store, write_synced, write_zeros};

impl RecLog {
    ghost use Rattle.odb_reclog.specs.Regions.{WritesBehind, IsWritten, CanOpen, IsAdded, KeepsOrAddsBody, ReadsClear};
    ghost use Rattle.odb_reclog.specs.Standing.{Stands, IsClear, SameRegion};
    ghost use Rattle.odb_reclog.specs.Answers.{IsBodyAnswer};

    /// Makes all behind the gate of the next record zeros on the disk, up to the region's end; the
    /// gate itself is never written.
    ///
    /// Where the tail is clear it makes no call of the store. Else it goes once over the bytes that
    /// may not be zeros, 65,536 at a time: after a fault or a body that was written all of them are
    /// written; else each piece is read, and written where it has another byte. One sync follows
    /// where something was written. A body that was written is given up. After `Fault` it may be
    /// called again.
    pub fn clear_tail<S: Store>(&mut self, store: &mut S) -> Result<(), RecError>
        requires usable { self.old.in_doubt ≡ false }
        requires stands { Stands self.old (file_of self.old.file (S.world store.old)) }
        ensures behind { WritesBehind self.old self.new (S.world store.old) (S.world store.new) }
        ensures clear { OnOk result (IsClear self.new × (self.new.has_body ≡ false)) }
        ensures quiet { IsClear self.old → (result ≡ Ok tt) × (store.new ≡ store.old) }
        ensures unwritten { self.old.touched ≡ false → ReadsClear self.old (S.world store.old)
            → Stays self.old.file (S.world store.old) (S.world store.new) }
        ensures untouched { self.old.touched ≡ false → IfTold self.old.file (S.world store.old)
            (λ bytes. AreZero (self.old.place + 1) self.old.end bytes → self.new.touched ≡ false) }
        ensures refusal { IfErr result (λ e. e ≡ RecError.Fault) }
        ensures cause { HasCause self.old.file (S.world store.old) (S.world store.new) result }
    {
        self.has_body = false;
        if self.clear_from <= self.place + 1 {
            return Ok(());
        }
        clear_range(
            store,
            self.file,
            self.place + 1,
            self.clear_from,
            &mut self.touched,
        )?;
        self.clear_from = self.place + 1;
        self.touched = false;
        Ok(())
    }

    /// Writes a record behind the closed gate of the next place, and puts it on the disk. It counts
    /// only once its gate is open.
    ///
    /// It takes two writes and one sync. `Full` says how many bytes it needs and how many are left;
    /// then it made no call of the store and changed nothing. After `Fault` the tail isn't clear:
    /// `clear_tail` comes before the next body.
    pub fn write_body<S: Store>(&mut self, store: &mut S, payload: &[u8]) -> Result<(), RecError>
        requires usable { self.old.in_doubt ≡ false }
        requires size { length payload.now < 2 ^ 32 }
        requires clear { IsClear self.old }
        requires stands { Stands self.old (file_of self.old.file (S.world store.old)) }
        ensures answer { IsBodyAnswer (length payload.now) (self.old.end - self.old.place) result }
        ensures full { (need room : ℕ) → result ≡ Err (RecError.Full need room)
            → (self.new ≡ self.old) × (store.new ≡ store.old) }
        ensures behind { WritesBehind self.old self.new (S.world store.old) (S.world store.new) }
        ensures written { OnOk result
            (IsWritten payload.now self.old self.new (S.world store.new)) }
        ensures cause { result ≡ Err RecError.Fault
            → FileCountRose self.old.file (S.world store.old) (S.world store.new) }
    {
        let need = HEAD + payload.len() as u64;
        let room = self.room();
        if room < need {
            return Err(RecError::Full { need, room });
        }
        self.has_body = false;
        self.touched = true;
        self.clear_from = self.place + need;
        let head = head_of(payload.len() as u32, self.next);
        put_body(store, self.file, self.place, &head, payload)?;
        self.has_body = true;
        Ok(())
    }

    /// Opens the gate of the record that was written, and answers its number. The list then ends
    /// with that record.
    ///
    /// It takes one write and one sync, and makes no other call. After `Fault` it isn't known
    /// whether the record counts, and the log is in doubt: only `open`, and what takes no store,
    /// may follow.
    pub fn open_gate<S: Store>(&mut self, store: &mut S) -> Result<u64, RecError>
        requires ready { CanOpen self.old (S.world store.old) }
        ensures run { KeepsOrAddsBody self.old (S.world store.old) (S.world store.new) }
        ensures calls { IsOnePut self.old.file self.old.place (OPEN ∷ [])
            (S.world store.old) (S.world store.new) }
        ensures number { IfOk result (λ n. n ≡ self.old.next) }
        ensures added { OnOk result
            (IsAdded self.old self.new (S.world store.old) (S.world store.new)) }
        ensures region { SameRegion self.old self.new }
        ensures err { OnErr result (self.new ≡ record self.old { in_doubt = true }) }
        ensures refusal { IfErr result (λ e. e ≡ RecError.Fault) }
        ensures cause { HasCause self.old.file (S.world store.old) (S.world store.new) result }
    {
        self.in_doubt = true;
        write_synced(store, self.file, self.place, &[OPEN])?;
        let number = self.next;
        self.place = self.clear_from;
        self.next = number + 1;
        self.clear_from = self.place + 1;
        self.touched = false;
        self.has_body = false;
        self.in_doubt = false;
        Ok(number)
    }
}

/// Makes the bytes from one to before another zeros on the disk: where they may differ from what a
/// read gives, without a look; else the pieces that read otherwise. `touched` becomes true before
/// the first write.
fn clear_range<S: Store>(
    store: &mut S,
    file: u32,
    from: u64,
    to: u64,
    touched: &mut bool,
) -> Result<(), Failed>
    requires range { (from ≤ to) × (to ≤ 2 ^ 40) }
    ensures run { TearsOnly file from (to - from) (S.world store.old) (S.world store.new) }
    ensures untouched { touched.new ≡ false
        → (touched.old ≡ false) × Stays file (S.world store.old) (S.world store.new) }
    ensures zero { OnOk result (ReadsZero from to (file_of file (S.world store.new))) }
    ensures on_disk { OnOk result (touched.new ≡ true → IsKept (file_of file (S.world store.new))) }
    ensures unwritten { touched.old ≡ false → (f : File) → file_of file (S.world store.old) ≡ Some f
        → to ≤ length f.bytes → AreZero from to f.bytes → touched.new ≡ false }
    ensures cause { HasCause file (S.world store.old) (S.world store.new) result }
{
    let all = *touched;
    let mut piece = [0; PIECE];
    let mut at = from;
    while at < to {
        let size = (to - at).min(PIECE as u64);
        clear_piece(store, file, at, &mut piece[..size as usize], all, touched)?;
        at += size;
    }
    if *touched {
        store.sync(file)?;
    }
    Ok(())
}

/// Makes a piece of a file, as long as the buffer, zeros: where `all`, without a look; else where
/// it reads otherwise.
fn clear_piece<S: Store>(
    store: &mut S,
    file: u32,
    at: u64,
    piece: &mut [u8],
    all: bool,
    touched: &mut bool,
) -> Result<(), Failed>
    requires size { length piece.old ≤ 65536 }
    requires within { at + length piece.old ≤ 2 ^ 40 }
    ensures run { TearsOnly file at (length piece.old) (S.world store.old) (S.world store.new) }
    ensures untouched { touched.new ≡ false
        → (touched.old ≡ false) × Stays file (S.world store.old) (S.world store.new) }
    ensures zero { OnOk result (ZerosGoOn at (length piece.old)
        (file_of file (S.world store.old)) (file_of file (S.world store.new))) }
    ensures unwritten { all ≡ false → touched.old ≡ false
        → (f : File) → file_of file (S.world store.old) ≡ Some f
        → at + length piece.old ≤ length f.bytes → AreZero at (at + length piece.old) f.bytes
        → touched.new ≡ false }
    ensures cause { HasCause file (S.world store.old) (S.world store.new) result }
{
    if !all && is_zero(store, file, at, piece)? {
        return Ok(());
    }
    *touched = true;
    write_zeros(store, file, at, piece.len())
}

/// Whether a piece of a file, as long as the buffer, reads as zeros. What the file gives less than
/// asked for counts as not zero.
fn is_zero<S: Store>(store: &mut S, file: u32, at: u64, piece: &mut [u8]) -> Result<bool, Failed>
    ensures call { CallsOn file (S.world store.old) (S.world store.new) }
    ensures same { Stays file (S.world store.old) (S.world store.new) }
    ensures zero { IfOk result (λ zero. IsTrue zero
        → ReadsZero at (at + length piece.old) (file_of file (S.world store.old))) }
    ensures other { IfOk result (λ zero.
        (f : File) → file_of file (S.world store.old) ≡ Some f
        → at + length piece.old ≤ length f.bytes → AreZero at (at + length piece.old) f.bytes
        → IsTrue zero) }
    ensures cause { HasCause file (S.world store.old) (S.world store.new) result }
{
    let n = store.read_at(file, at, piece)?;
    if n < piece.len() {
        return Ok(false);
    }
    Ok(are_zeros(piece))
}

/// Whether bytes are zeros. It looks at all of them, since a loop that never leaves early is
/// compiled to compare many bytes at a time.
fn are_zeros(bytes: &[u8]) -> bool
    ensures { IsTrue result ↔ EachIndex bytes.now (λ i. slice_index bytes.now i ≡ 0) }
{
    let mut all = true;
    for byte in bytes {
        all &= *byte == 0;
    }
    all
}

/// Length and number of a record, as they stand behind its gate.
fn head_of(size: u32, number: u64) -> [u8; 12]
    ensures long { length result ≡ 12 }
    ensures size { part 0 4 result ≡ to_be_bytes w32 size }
    ensures number { part 4 8 result ≡ to_be_bytes w64 number }
{
    let mut head = [0; 12];
    head[..4].copy_from_slice(&size.to_be_bytes());
    head[4..].copy_from_slice(&number.to_be_bytes());
    head
}

/// Writes head and payload behind the gate at a place, and puts them on the disk.
fn put_body<S: Store>(
    store: &mut S,
    file: u32,
    place: u64,
    head: &[u8],
    payload: &[u8],
) -> Result<(), Failed>
    requires head { length head.now ≡ 12 }
    requires within { place + 13 + length payload.now ≤ 2 ^ 40 }
    ensures run { TearsOnly file (place + 1) (12 + length payload.now)
        (S.world store.old) (S.world store.new) }
    ensures done { OnOk result (file_of file (S.world store.new)
        ≡ option_map (λ f. kept (written (place + 13) payload.now (written (place + 1) head.now f)))
        (file_of file (S.world store.old))) }
    ensures cause { HasCause file (S.world store.old) (S.world store.new) result }
{
    store.write_at(file, place + 1, head)?;
    write_synced(store, file, place + HEAD, payload)
}
