//! Lines about the files of the store themselves.
ghost use Rattle.std.specs.Prelude.{◌≤◌, ◌+◌, ◌^◌, length};

use crate::bench::Bench;
use odb_device::{Failed, Store};
use odb_row_disks::{
    StepError, Untold, byte_number, byte_of, bytes_of, hex_of, number, short_number,
};
use odb_rowfile::split_word;
use std::alloc::{AllocError, Global};

/// How long a file may be made.
const LONGEST: u64 = 1 << 22;

/// How much room and how many places for calls a store may have.
const LARGEST: u64 = 1 << 24;

impl Bench {
    /// A line that says what is there before the first call.
    pub(crate) fn prepare(
        &mut self,
        alloc: Global,
        word: &str,
        rest: &str,
    ) -> Result<(), StepError> {
        match word {
            "store" => self.make_store(alloc, rest),
            "fill" => self.fill(alloc, rest),
            "at" => self.put_at(alloc, rest),
            "cut" => self.cut(alloc, rest),
            "first" => self.put_place(alloc, 0, rest),
            _ => self.put_place(alloc, 512, rest),
        }
    }

    /// `store ROOM CALLS`
    fn make_store(&mut self, alloc: Global, rest: &str) -> Result<(), StepError> {
        let (room, calls) = split_word(rest);
        let room = short_number(room)?;
        let calls = short_number(calls)?;
        if u64::from(room) > LARGEST || u64::from(calls) > LARGEST {
            return Err(StepError::Unreadable);
        }
        self.store = Untold::new(alloc, u64::from(room), calls)?;
        Ok(())
    }

    /// `fill LENGTH HEX`
    fn fill(&mut self, alloc: Global, rest: &str) -> Result<(), StepError> {
        let (length, byte) = split_word(rest);
        let length = number(length)?;
        if length > LONGEST {
            return Err(StepError::Unreadable);
        }
        let byte = byte_of(alloc, byte)?;
        let bytes = vec![in alloc; byte; length as usize]?;
        Ok(self.store.set(alloc, bytes.as_slice())?)
    }

    /// `at PLACE HEX`
    fn put_at(&mut self, alloc: Global, rest: &str) -> Result<(), StepError> {
        let (place, bytes) = split_word(rest);
        let place = number(place)?;
        let bytes = bytes_of(alloc, bytes)?;
        self.put_over(alloc, place, bytes.as_slice())
    }

    /// Puts bytes over some that file 0 has.
    fn put_over(&mut self, alloc: Global, place: u64, piece: &[u8]) -> Result<(), StepError> {
        let mut bytes = self.store.file(0).to_vec(alloc)?;
        if place > LONGEST || bytes.len() < place as usize + piece.len() {
            return Err(StepError::Unreadable);
        }
        let place = place as usize;
        bytes[place..place + piece.len()].copy_from_slice(piece);
        Ok(self.store.set(alloc, bytes.as_slice())?)
    }

    /// `cut LENGTH`
    fn cut(&mut self, alloc: Global, rest: &str) -> Result<(), StepError> {
        let length = number(rest)?;
        let mut bytes = self.store.file(0).to_vec(alloc)?;
        if length > bytes.len() as u64 {
            return Err(StepError::Unreadable);
        }
        bytes.truncate(length as usize);
        Ok(self.store.set(alloc, bytes.as_slice())?)
    }

    /// `GATE NUMBER VALUE` at the begin of a place.
    fn put_place(&mut self, alloc: Global, place: u64, rest: &str) -> Result<(), StepError> {
        let (gate, rest) = split_word(rest);
        let (sequence, value) = split_word(rest);
        let mut bytes = [0; 10];
        bytes[0] = byte_of(alloc, gate)?;
        bytes[1..9].copy_from_slice(&number(sequence)?.to_be_bytes());
        bytes[9] = byte_number(value)?;
        self.put_over(alloc, place, &bytes)
    }

    /// A line that calls the store, or tells its faults.
    pub(crate) fn call_store(
        &mut self,
        alloc: Global,
        word: &str,
        rest: &str,
    ) -> Result<(), StepError> {
        let (file, rest) = split_word(rest);
        let file = short_number(file)?;
        match word {
            "write" => self.write(alloc, file, rest),
            "sync" => self.sync(alloc, file, rest),
            "read" => self.compare_bytes(alloc, file, rest),
            _ => {
                let faults = self.store.faults(file);
                self.compare_number(alloc, rest, faults)
            }
        }
    }

    /// `sync FILE ANSWER`, behind the file.
    fn sync(&mut self, alloc: Global, file: u32, wanted: &str) -> Result<(), StepError> {
        let answer = self.store.sync(file);
        self.compare(alloc, wanted, done_or_failed(answer))
    }

    /// `read FILE HEX`, behind the file.
    fn compare_bytes(&mut self, alloc: Global, file: u32, wanted: &str) -> Result<(), StepError> {
        let got = read(alloc, &mut self.store, file)?;
        self.compare(alloc, wanted, got.as_str())
    }

    /// `write FILE PLACE HEX ANSWER`, behind the file.
    fn write(&mut self, alloc: Global, file: u32, rest: &str) -> Result<(), StepError> {
        let (place, rest) = split_word(rest);
        let place = number(place)?;
        let (bytes, wanted) = split_word(rest);
        let bytes = bytes_of(alloc, bytes)?;
        let got = written(&mut self.store, file, place, bytes.as_slice())?;
        self.compare(alloc, wanted, got)
    }
}

/// Writes bytes, and tells the answer.
fn written(
    store: &mut Untold,
    file: u32,
    place: u64,
    bytes: &[u8],
) -> Result<&'static str, StepError> {
    if place > LONGEST || bytes.len() as u64 > LONGEST {
        return Err(StepError::Unreadable);
    }
    Ok(done_or_failed(store.write_at(file, place, bytes)))
}

fn done_or_failed(answer: Result<(), Failed>) -> &'static str {
    match answer {
        Ok(()) => "ok",
        Err(Failed) => "failed",
    }
}

/// All that a file holds, as `length` and `read_at` give it.
fn read(alloc: Global, store: &mut Untold, file: u32) -> Result<String, AllocError> {
    match read_whole(alloc, store, file)? {
        Ok(bytes) => hex_of(alloc, bytes.as_slice()),
        Err(Failed) => String::from_str(alloc, "failed"),
    }
}

/// All that a file holds; what a call fails to give is told apart from want of memory.
fn read_whole(
    alloc: Global,
    store: &mut Untold,
    file: u32,
) -> Result<Result<Vec<u8>, Failed>, AllocError> {
    let length = match store.length(file) {
        Ok(length) => length.min(LONGEST),
        Err(failed) => return Ok(Err(failed)),
    };
    let mut bytes = vec![in alloc; 0; length as usize]?;
    match store.read_at(file, 0, bytes.as_mut_slice()) {
        Ok(n) => bytes.truncate(n),
        Err(failed) => return Ok(Err(failed)),
    }
    Ok(Ok(bytes))
}
