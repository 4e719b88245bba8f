//! The host in memory that a row plays on. Its methods have no clause: what the host promises is of
//! no use to a row, and would be among what is known in each function that works on it.

use odb_device::{Host, Store};
use odb_memstore::{MemError, MemHost};
use odb_model::{Entries, Entry, Status};
use odb_tool::run;
use odb_transdb::{Transdb, TransdbError};
use std::alloc::Global;

/// How many files a row may name, from 0 on.
pub(crate) const FILES: u32 = 5;

/// How many calls a host records.
const CALLS: u32 = 1 << 14;

/// What comes of the creation of a database.
#[derive(Clone, Copy)]
pub(crate) enum Creation {
    Made,
    NoMemory,
    /// A call on the host failed.
    NoRoom,
    /// No side has this size.
    NoSide,
}

/// What file 0 opens to: the number of its last entry, and its entries.
#[derive(Drop)]
pub(crate) struct Opened {
    pub(crate) last: u64,
    pub(crate) entries: Entries,
}

/// What is read of entries: how many, and the number of the first.
#[derive(Clone, Copy)]
pub(crate) struct Front {
    pub(crate) count: u64,
    pub(crate) first: Option<u64>,
}

/// A host in memory with so many KiB of room.
#[derive(Drop)]
pub(crate) struct Machine {
    host: MemHost,
    room: u32,
}

impl Machine {
    /// One without files.
    pub(crate) fn new(alloc: Global, room: u32) -> Result<Machine, MemError> {
        let host = MemHost::new(alloc, u64::from(room) * 1024, CALLS)?;
        Ok(Machine { host, room })
    }

    /// One without files and with as much room.
    fn emptied(&self, alloc: Global) -> Result<Machine, MemError> {
        Machine::new(alloc, self.room)
    }

    /// One with the same files and as much room, and nothing recorded.
    pub(crate) fn copied(&self, alloc: Global) -> Result<Machine, MemError> {
        let mut copy = self.emptied(alloc)?;
        copy.take_files(alloc, self)?;
        Ok(copy)
    }

    fn take_files(&mut self, alloc: Global, other: &Machine) -> Result<(), MemError> {
        for file in 0..FILES {
            let bytes = other.file(file);
            if !bytes.is_empty() {
                self.set_file(alloc, file, bytes)?;
            }
        }
        Ok(())
    }

    /// The bytes of a file.
    pub(crate) fn file(&self, file: u32) -> &[u8] {
        self.host.file(file)
    }

    /// Gives a file these bytes, as if it had had them before the first call.
    pub(crate) fn set_file(
        &mut self,
        alloc: Global,
        file: u32,
        bytes: &[u8],
    ) -> Result<(), MemError> {
        self.host.set_file(alloc, file, bytes)
    }

    /// Puts bytes over those of a file from a place on, and answers whether there are so many.
    pub(crate) fn put_over(
        &mut self,
        alloc: Global,
        file: u32,
        at: usize,
        piece: &[u8],
    ) -> Result<bool, MemError> {
        let mut bytes = self.file(file).to_vec(alloc)?;
        if !put_over(bytes.as_mut_slice(), at, piece) {
            return Ok(false);
        }
        self.set_file(alloc, file, bytes.as_slice())?;
        Ok(true)
    }

    /// Leaves so many bytes of a file, and answers whether it has so many.
    pub(crate) fn cut(
        &mut self,
        alloc: Global,
        file: u32,
        length: usize,
    ) -> Result<bool, MemError> {
        let Some(front) = self.file(file).get(..length) else {
            return Ok(false);
        };
        let front = front.to_vec(alloc)?;
        self.set_file(alloc, file, front.as_slice())?;
        Ok(true)
    }

    /// Lists a call that is to fail.
    pub(crate) fn fail(&mut self, alloc: Global, call: u32) -> Result<(), MemError> {
        self.host.fail(alloc, call)
    }

    /// Puts bytes behind those that are there to be read.
    pub(crate) fn feed(&mut self, alloc: Global, bytes: &[u8]) -> Result<(), MemError> {
        self.host.feed(alloc, bytes)
    }

    /// What was said.
    pub(crate) fn said(&self) -> &[u8] {
        self.host.said()
    }

    /// How many calls are on the record.
    pub(crate) fn calls(&self) -> u32 {
        self.host.calls()
    }

    /// What a crash behind so many calls leaves; None where fewer were made.
    pub(crate) fn crashed(
        &self,
        alloc: Global,
        calls: u32,
        pick: u64,
    ) -> Result<Option<Machine>, MemError> {
        if calls > self.host.calls() {
            return Ok(None);
        }
        let host = self.host.crash(alloc, calls, pick)?;
        Ok(Some(Machine {
            host,
            room: self.room,
        }))
    }

    /// Calls `run` with these words.
    pub(crate) fn run(&mut self, alloc: Global, words: &[String]) -> Status {
        status_of(alloc, words, &mut self.host)
    }

    /// Makes file 0 a new database with sides of so many KiB, where that can be.
    pub(crate) fn create(&mut self, alloc: Global, side: u32) -> Result<Creation, MemError> {
        let mut made = self.emptied(alloc)?;
        let creation = create(&mut made.host, side);
        if let Creation::Made = creation {
            self.set_file(alloc, 0, made.file(0))?;
        }
        Ok(creation)
    }

    /// What file 0 opens to. It may write.
    pub(crate) fn open(&mut self, alloc: Global) -> Result<Opened, TransdbError> {
        open(alloc, &mut self.host)
    }

    /// What is read of the entries of file 0 from a number on, or None where they aren't held. It
    /// may write.
    pub(crate) fn read(&mut self, alloc: Global, from: u64) -> Result<Option<Front>, TransdbError> {
        read(alloc, &mut self.host, from)
    }
}

/// Puts bytes over those from a place on, and answers whether there are so many.
fn put_over(bytes: &mut [u8], at: usize, piece: &[u8]) -> bool {
    if bytes.len() < at || bytes.len() - at < piece.len() {
        return false;
    }
    bytes[at..at + piece.len()].copy_from_slice(piece);
    true
}

fn status_of<H: Host>(alloc: Global, words: &[String], host: &mut H) -> Status {
    run(alloc, words, host)
}

fn create<S: Store>(store: &mut S, side: u32) -> Creation {
    if side < 64 || 16_384 < side {
        return Creation::NoSide;
    }
    match Transdb::create(store, side, 1) {
        Ok(()) => Creation::Made,
        Err(TransdbError::NoMemory) => Creation::NoMemory,
        Err(_) => Creation::NoRoom,
    }
}

fn open<S: Store>(alloc: Global, store: &mut S) -> Result<Opened, TransdbError> {
    let opened = Transdb::open_with_entries(alloc, store)?;
    Ok(Opened {
        last: opened.transdb.last(),
        entries: opened.entries,
    })
}

fn read<S: Store>(alloc: Global, store: &mut S, from: u64) -> Result<Option<Front>, TransdbError> {
    let transdb = Transdb::open(alloc, store)?;
    if from < transdb.first() {
        return Ok(None);
    }
    let entries = transdb.entries(alloc, store, from)?;
    Ok(Some(front_of(entries.as_slice())))
}

fn front_of(entries: &[Entry]) -> Front {
    Front {
        count: entries.len() as u64,
        first: match entries {
            [] => None,
            [first, ..] => Some(first.number),
        },
    }
}
