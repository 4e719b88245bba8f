//! The store in memory, of which proofs are told its counts of faults alone, so that a row may do
//! with it what it likes.
ghost use Rattle.std.specs.Prelude.{◌≡◌, ◌+◌, ◌≤◌, Ok, IsOk, IfOk, OnErr};
ghost use Rattle.odb_device.specs.Counts.{Rose};

use odb_device::{Failed, Outside, Store};
use odb_memstore::{MemError, MemStore};
use std::alloc::Global;
use std::marker::Model;

/// A store in memory that counts its faults and tells no content.
#[derive(Drop)]
pub struct Untold {
    store: MemStore,
    faults: u64,
}

impl Model for Untold {
    ghost use Rattle.std.specs.Prelude.{ℕ};

    ghost Value = { ℕ };

    ghost view = { λ s. s.faults };
}

impl Outside for Untold {
    ghost use Rattle.odb_row_disks.specs.Untold.{untold_world};

    ghost world = { untold_world };
}

impl Untold {
    /// An empty store with so many bytes of room for each file and places for so many recorded
    /// calls.
    pub fn new(alloc: Global, room: u64, calls: u32) -> Result<Untold, MemError> {
        Ok(Untold {
            store: MemStore::new(alloc, room, calls)?,
            faults: 0,
        })
    }

    /// Lists a call that is to fail.
    pub fn fail(&mut self, alloc: Global, call: u32) -> Result<(), MemError> {
        self.store.fail(alloc, call)
    }

    /// The bytes of a file.
    pub fn file(&self, file: u32) -> &[u8] {
        self.store.file(file)
    }

    /// Gives file 0 these bytes, as if it had had them before the first call.
    pub fn set(&mut self, alloc: Global, bytes: &[u8]) -> Result<(), MemError> {
        self.store.set_file(alloc, 0, bytes)
    }

    /// How many calls are on the record.
    pub fn calls(&self) -> u32 {
        self.store.calls()
    }

    /// The count of faults of a file.
    pub fn faults(&self, file: u32) -> u64 {
        self.store.faults(file)
    }

    /// What a crash behind so many calls leaves; None where fewer were made.
    pub fn crash(&self, alloc: Global, calls: u32, pick: u64) -> Result<Option<Untold>, MemError> {
        if calls > self.store.calls() {
            return Ok(None);
        }
        let store = self.store.crash(alloc, calls, pick)?;
        Ok(Some(Untold { store, faults: 0 }))
    }
}

/// What the store answered. `Failed` is counted, where the type of the count has room for it.
fn counted<T>(answer: Result<T, Failed>, faults: &mut u64) -> Result<T, Failed>
    ensures same { result ≡ answer }
    ensures risen { OnErr result (Rose faults.old faults.new) }
    ensures kept { faults.old ≤ faults.new }
    ensures once { faults.new ≤ faults.old + 1 }
{
    if answer.is_err() {
        *faults = faults.saturating_add(1);
    }
    answer
}

impl Store for Untold {
    ghost reads_image = { λ s file. tt };

    fn length(&mut self, file: u32) -> Result<u64, Failed> {
        counted(self.store.length(file), &mut self.faults)
    }

    fn read_at(&mut self, file: u32, at: u64, out: &mut [u8]) -> Result<usize, Failed> {
        counted(self.store.read_at(file, at, out), &mut self.faults)
    }

    fn write_at(&mut self, file: u32, at: u64, bytes: &[u8]) -> Result<(), Failed> {
        counted(self.store.write_at(file, at, bytes), &mut self.faults)
    }

    fn sync(&mut self, file: u32) -> Result<(), Failed> {
        counted(self.store.sync(file), &mut self.faults)
    }
}
