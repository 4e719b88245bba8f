//! A host in memory: how it is made, and what it owes to each call of a trait.
ghost use Rattle.std.specs.Prelude.{◌≡◌, ◌+◌, ◌≤◌, ◌^◌, ◌++◌, ◌∷◌, [], ℕ, Some, length, vec_len, vec_capacity, not, take, IfOk, OnOk, OnErr, is_some, IfSome};
ghost use Rattle.odb_memstore.specs.Recording.{fails};
ghost use Rattle.odb_memstore.specs.Tape.{fresh, file_now, HasEmptyFiles};
ghost use Rattle.odb_memstore.specs.Calls.{is_past_write, fails_to_write, after_ask, after_write, next_input, after_take, fails_to_say, after_say};
ghost use Rattle.odb_memstore.specs.Standing.{IsBare, IsWhole};

use crate::MemError;
use crate::copying::{add, copy_from};
use crate::files::Files;
use crate::recorder::{Call, Recorder};
use odb_device::Outside;
use std::alloc::{AllocError, Global};
use std::marker::Model;

/// Files and a console in memory, which record each call and tell all.
///
/// The calls of the store and of the console are numbered together from 0, in their order. `Failed`
/// is answered just where the number of the call is listed, where no place is left on the record,
/// and where a `write_at` or a `say` finds no room. It changes no bytes, and raises the count by
/// one until this stands at 2^64 - 1.
///
/// A call that is listed stands on the record: the range of a `write_at` may then hold anything
/// after a crash, and a `sync` settles nothing. A `write_at` past its room leaves the images too,
/// and stands on the record as a look. A call that finds no place isn't recorded and leaves them
/// too; one of the store counts as a fault of each file. Nor is a `say` past its room recorded. A
/// `write_at` is past its room where the lengths of all files, or those of all pieces written,
/// would be above the room together, a `say` where the bytes said would be.
///
/// Each call of the traits takes a pass over the numbers listed, and one of the store a pass over
/// the entries of the files; a `write_at` that makes a file longer moves all that lies behind it.
#[derive(Drop)]
pub struct MemHost {
    pub(crate) room: usize,
    pub(crate) recorder: Recorder,
    pub(crate) start: Files,
    pub(crate) current: Files,
    pub(crate) pieces: Vec<u8>,
    pub(crate) input: Vec<u8>,
    taken: usize,
    has_ended: bool,
    pub(crate) said: Vec<u8>,
}

impl Model for MemHost {
    ghost use Rattle.odb_memstore.specs.Tape.{Tape};

    ghost Value = { Tape };

    ghost use Rattle.odb_memstore.specs.Host.{tape_of, HoldsTape};

    ghost view = { tape_of };

    ghost invariant = { HoldsTape };
}

impl Outside for MemHost {
    ghost use Rattle.odb_memstore.specs.Tape.{world_of};

    ghost world = { world_of };
}

impl MemHost {
    /// A host without files, input and calls.
    ///
    /// It takes memory for `room` bytes of all files together, for as many of all pieces written
    /// and as many of all that is said, and for `calls` calls on the record.
    pub fn new(alloc: Global, room: u64, calls: u32) -> Result<MemHost, MemError>
        ensures fresh { IfOk result (λ host. host ≡ fresh room calls []) }
        ensures empty { IfOk result HasEmptyFiles }
    {
        let files = Files::new(alloc, 0, 0)?;
        Ok(MemHost::with_files(alloc, room as usize, calls, files)?)
    }

    /// A host with these files.
    pub(crate) fn with_files(
        alloc: Global,
        room: usize,
        calls: u32,
        start: Files,
    ) -> Result<MemHost, AllocError>
        ensures { IfOk result (λ host. host ≡ fresh room calls start.files) }
    {
        let places = start.count() + calls as usize;
        let current = start.copy(alloc, places, room)?;
        Ok(MemHost {
            room,
            recorder: Recorder::new(alloc, calls)?,
            start,
            current,
            pieces: Vec::with_capacity(alloc, room)?,
            input: Vec::new(alloc),
            taken: 0,
            has_ended: false,
            said: Vec::with_capacity(alloc, room)?,
        })
    }
}

impl MemHost {
    /// Records a call that needs no room, or counts it where no place is left, and answers whether
    /// it is to go on.
    pub(crate) fn ask(&mut self, call: Call) -> bool
        requires { IsBare call }
        ensures whole { IsWhole self.old }
        ensures goes_on { result ≡ not (fails self.old.recording) }
        ensures next { self.new ≡ after_ask call self.old }
    {
        self.recorder.ask(call)
    }

    /// The bytes of a file as they are now.
    pub(crate) fn bytes(&self, file: u32) -> &[u8]
        ensures { result.now ≡ (file_now self.now file).bytes }
    {
        self.current.bytes(file)
    }

    /// Writes the bytes, or answers that it was to fail or is past its room.
    pub(crate) fn write(&mut self, file: u32, at: u64, bytes: &[u8]) -> bool
        requires { at + length bytes.now ≤ 2 ^ 40 }
        ensures whole { IsWhole self.old }
        ensures goes_on { result ≡ not (fails_to_write file at (length bytes.now) self.old) }
        ensures next { self.new ≡ after_write file at bytes.now self.old }
    {
        let from = self.pieces.len();
        let call = Call::Write {
            file,
            at,
            from,
            len: bytes.len(),
        };
        if self.is_past_write(file, at, bytes.len()) {
            self.recorder.note_past_write(file);
            return false;
        }
        add(&mut self.pieces, bytes);
        if !self.recorder.ask(call) {
            return false;
        }
        self.current.write(file, at as usize, bytes);
        true
    }

    /// Takes the next bytes of the input, and answers how many, or nothing where the call fails.
    pub(crate) fn take_next(&mut self, out: &mut [u8]) -> Option<usize>
        ensures whole { IsWhole self.old }
        ensures goes_on { is_some result ≡ not (fails self.old.recording) }
        ensures bound { IfSome result (λ n. n ≤ length out.new) }
        ensures bytes { IfSome result (λ n. take n out.new ≡ next_input (length out.old) self.old) }
        ensures count { IfSome result (λ n. n ≡ length (next_input (length out.old) self.old)) }
        ensures next { self.new ≡ after_take (length out.old) self.old }
    {
        if !self.recorder.ask(Call::Take) {
            return None;
        }
        let n = copy_from(&self.input, self.taken as u64, out);
        self.taken += n;
        self.has_ended = n == 0 || self.has_ended;
        Some(n)
    }

    /// Says the bytes, or answers that it was to fail or is past its room.
    pub(crate) fn say_whole(&mut self, bytes: &[u8]) -> bool
        ensures whole { IsWhole self.old }
        ensures goes_on { result ≡ not (fails_to_say (length bytes.now) self.old) }
        ensures next { self.new ≡ after_say bytes.now self.old }
    {
        let call = Call::Say { len: bytes.len() };
        if self.recorder.is_full() || self.said.len() + bytes.len() > self.room {
            self.recorder.refuse(call);
            return false;
        }
        if !self.recorder.ask(call) {
            return false;
        }
        add(&mut self.said, bytes);
        true
    }

    /// A write of so many bytes finds no place, or no room for all files or for all pieces.
    fn is_past_write(&self, file: u32, at: u64, len: usize) -> bool
        requires { at + len ≤ 2 ^ 40 }
        ensures { result ≡ is_past_write file at len self.now }
    {
        if self.recorder.is_full() {
            return true;
        }
        let more = (at as usize + len).saturating_sub(self.current.bytes(file).len());
        if self.current.total() + more > self.room {
            return true;
        }
        self.pieces.len() + len > self.room
    }
}
