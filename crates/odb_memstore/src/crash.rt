//! What a crash leaves of a host in memory.
ghost use Rattle.std.specs.Prelude.{◌≡◌, ◌+◌, ◌≤◌, ◌^◌, ℕ, length, drop, IfOk, OnOk};
ghost use Rattle.odb_memstore.specs.Numbered.{bytes_of, with_changed};
ghost use Rattle.odb_memstore.specs.Tape.{IsFreshOf};
ghost use Rattle.odb_memstore.specs.Standing.{HasPiece, HavePieces};
ghost use Rattle.odb_memstore.specs.Crash.{digits, first_digit, is_synced, held_by, digits_after, LeavesCall, LeavesCalls};
ghost use Rattle.odb_memstore.specs.Crash.{LeavesDigits, LeavesImages};

use crate::files::Files;
use crate::recorder::{Call, Recorded};
use crate::{MemError, MemHost};
use std::alloc::{AllocError, Global};
use std::marker::Model;

/// The digits of a number to base 3 that were not used yet, the lowest first.
#[derive(Debug, Drop)]
struct Digits {
    count: u32,
    rest: u64,
}

impl Model for Digits {
    ghost use Rattle.std.specs.Prelude.{ℕ, List};
    ghost use Rattle.odb_memstore.specs.Crash.{digits};

    ghost Value = { List ℕ };

    ghost view = { λ d. digits d.count d.rest };
}

impl Digits {
    /// The lowest 40 digits of a number.
    fn of(pick: u64) -> Digits
        ensures { result ≡ digits 40 pick }
    {
        Digits {
            count: 40,
            rest: pick,
        }
    }

    /// The next digit; 0 once all are used.
    fn next(&mut self) -> u64
        ensures digit { result ≡ first_digit self.old }
        ensures rest { self.new ≡ drop 1 self.old }
    {
        if self.count == 0 {
            return 0;
        }
        let digit = self.rest % 3;
        self.count -= 1;
        self.rest /= 3;
        digit
    }
}

impl MemHost {
    /// The host as a crash behind the first so many recorded calls leaves it: with the same room
    /// and places, and with nothing recorded, listed, fed or said.
    ///
    /// A range is unsettled where a write, failed or not, was followed by no sync of its file that
    /// succeeded. These ranges are numbered from 0 in the order of the calls, whatever their files,
    /// and digit i of `pick` to base 3 says what range i holds: 0 what it held before, with zeros
    /// past the old end; 1 what was written; 2 bytes 0xA5. From number 40 on the digit is 0.
    ///
    /// It takes a pass over the calls, and for each write one over those behind it as far as to the
    /// sync that settled it. It takes memory as `new` does, and for a copy of the files.
    pub fn crash(&self, alloc: Global, calls: u32, pick: u64) -> Result<MemHost, MemError>
        requires { calls ≤ length self.now.recording.calls }
        ensures fresh { IfOk result (IsFreshOf self.now) }
        ensures files { IfOk result (LeavesDigits self.now calls pick) }
        ensures images { IfOk result (LeavesImages self.now calls) }
    {
        let mut files = self.start.copy(alloc, 0, 0)?;
        let recorded = &self.recorder.calls()[..calls as usize];
        leave_all(alloc, &mut files, &self.pieces, recorded, pick)?;
        Ok(MemHost::with_files(alloc, self.room, self.recorder.places(), files)?)
    }
}

/// Makes of the files what a crash behind these calls leaves.
fn leave_all(
    alloc: Global,
    files: &mut Files,
    pieces: &[u8],
    calls: &[Recorded],
    pick: u64,
) -> Result<(), AllocError>
    requires { HavePieces (length pieces.now) calls.now }
    ensures { OnOk result
        (LeavesCalls pieces.now calls.now (digits 40 pick) files.old.files files.new.files) }
{
    let mut digits = Digits::of(pick);
    for (at, recorded) in calls.iter().enumerate() {
        leave(
            alloc,
            files,
            pieces,
            *recorded,
            &calls[at + 1..],
            &mut digits,
        )?;
    }
    Ok(())
}

/// Makes of the files what a crash leaves of one call, before these later ones.
fn leave(
    alloc: Global,
    files: &mut Files,
    pieces: &[u8],
    recorded: Recorded,
    later: &[Recorded],
    digits: &mut Digits,
) -> Result<(), AllocError>
    requires { HasPiece (length pieces.now) recorded.call }
    ensures files { OnOk result
        (LeavesCall pieces.now recorded later.now digits.old files.old.files files.new.files) }
    ensures digits { OnOk result (digits.new ≡ digits_after recorded.call later.now digits.old) }
{
    let Call::Write {
        file,
        at,
        from,
        len,
    } = recorded.call
    else {
        return Ok(());
    };
    let piece = &pieces[from..from + len];
    if !is_synced(file, later) {
        hold(alloc, files, file, at as usize, piece, digits.next())?;
        return Ok(());
    }
    if recorded.failed {
        return Ok(());
    }
    files.reserve(1, at as usize + len)?;
    files.write(file, at as usize, piece);
    Ok(())
}

/// Makes an unsettled range hold what the digit says.
fn hold(
    alloc: Global,
    files: &mut Files,
    file: u32,
    at: usize,
    piece: &[u8],
    digit: u64,
) -> Result<(), AllocError>
    requires { at + length piece.now ≤ 2 ^ 40 }
    ensures { OnOk result
        (files.new.files ≡ with_changed files.old.files file (held_by digit at piece.now)) }
{
    files.reserve(1, at + piece.len())?;
    if digit == 0 {
        files.grow(file, at + piece.len());
        return Ok(());
    }
    if digit == 1 {
        files.write(file, at, piece);
        return Ok(());
    }
    let other = vec![in alloc; 0xA5; piece.len()]?;
    files.write(file, at, &other);
    Ok(())
}

/// A sync of the file among these calls succeeded.
fn is_synced(file: u32, calls: &[Recorded]) -> bool
    ensures { result ≡ is_synced file calls.now }
{
    calls.iter().any(|recorded| recorded.call == Call::Sync { file } && !recorded.failed)
}
