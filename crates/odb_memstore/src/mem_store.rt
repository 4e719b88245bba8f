//! Files in memory, with no console beside them.
ghost use Rattle.std.specs.Prelude.{◌≡◌, ◌+◌, ◌^◌, ◌≤◌, ℕ, ◌↔◌, [], Some, length, IfOk, OnOk, OnErr, IsErr, IsTrue};
ghost use Rattle.odb_device.specs.World.{faults_of, file_of};
ghost use Rattle.odb_device.specs.Calls.{CallsOn, HasCause, Stays, Writes, Tears, Keeps, Unsettles, HasLength, HasRead};
ghost use Rattle.odb_memstore.specs.Recording.{fails};
ghost use Rattle.odb_memstore.specs.Replay.{settled};
ghost use Rattle.odb_memstore.specs.Tape.{fresh, IsFreshOf, HasEmptyFiles, file_now, world_of};
ghost use Rattle.odb_memstore.specs.Calls.{fails_to_write, file_after_write, file_after_sync, after_ask, after_write};
ghost use Rattle.odb_memstore.specs.Setting.{with_failing, with_file, LeavesOthers};
ghost use Rattle.odb_memstore.specs.Crash.{LeavesDigits, LeavesImages};

use crate::{Call, MemError, MemHost};
use odb_device::{Failed, Outside, Store};
use std::alloc::Global;
use std::marker::Model;

/// Files in memory, which record each call and tell all: a `MemHost` whose console is out of reach.
#[derive(Drop)]
pub struct MemStore {
    host: MemHost,
}

impl Model for MemStore {
    ghost use Rattle.odb_memstore.specs.Tape.{Tape};

    ghost Value = { Tape };

    ghost view = { λ s. s.host };
}

impl Outside for MemStore {
    ghost use Rattle.odb_memstore.specs.Tape.{world_of};

    ghost world = { world_of };
}

impl MemStore {
    /// A store without files and calls; `MemHost::new` says more.
    pub fn new(alloc: Global, room: u64, calls: u32) -> Result<MemStore, MemError>
        ensures fresh { IfOk result (λ store. store ≡ fresh room calls []) }
        ensures empty { IfOk result HasEmptyFiles }
    {
        Ok(MemStore {
            host: MemHost::new(alloc, room, calls)?,
        })
    }

    /// Lists a call that is to fail: its number on the record, from 0.
    pub fn fail(&mut self, alloc: Global, call: u32) -> Result<(), MemError>
        ensures ok { OnOk result (self.new ≡ with_failing call self.old) }
        ensures err { OnErr result (self.new ≡ self.old) }
    {
        self.host.fail(alloc, call)
    }

    /// The bytes of a file, as a read gives them.
    pub fn file(&self, file: u32) -> &[u8]
        ensures { result.now ≡ (file_now self.now file).bytes }
    {
        self.host.file(file)
    }

    /// Gives a file these bytes, and takes them for those that it had before the first call;
    /// `MemHost::set_file` says more.
    pub fn set_file(&mut self, alloc: Global, file: u32, bytes: &[u8]) -> Result<(), MemError>
        ensures ok { OnOk result (self.new ≡ with_file file bytes.now self.old) }
        ensures on_disk { OnOk result
            (file_of file (world_of self.new) ≡ Some (settled bytes.now)) }
        ensures others { OnOk result (LeavesOthers file (world_of self.old) (world_of self.new)) }
        ensures err { OnErr result (self.new ≡ self.old) }
    {
        self.host.set_file(alloc, file, bytes)
    }

    /// A file's count of faults; `MemHost::faults` says more.
    pub fn faults(&self, file: u32) -> u64
        ensures { result ≡ faults_of file (world_of self.now) }
    {
        self.host.faults(file)
    }

    /// How many calls are on the record.
    pub fn calls(&self) -> u32
        ensures { result ≡ length self.now.recording.calls }
    {
        self.host.calls()
    }

    /// The store as a crash behind the first so many recorded calls leaves it; `MemHost::crash`
    /// says more.
    pub fn crash(&self, alloc: Global, calls: u32, pick: u64) -> Result<MemStore, MemError>
        requires { calls ≤ length self.now.recording.calls }
        ensures fresh { IfOk result (IsFreshOf self.now) }
        ensures files { IfOk result (LeavesDigits self.now calls pick) }
        ensures images { IfOk result (LeavesImages self.now calls) }
    {
        Ok(MemStore {
            host: self.host.crash(alloc, calls, pick)?,
        })
    }
}

impl Store for MemStore {
    ghost use Rattle.odb_memstore.specs.Laws.{tape_reads_image};

    ghost reads_image = { λ store file. tape_reads_image store file };

    fn length(&mut self, file: u32) -> Result<u64, Failed>
        ensures call { CallsOn file (world_of self.old) (world_of self.new) }
        ensures same { Stays file (world_of self.old) (world_of self.new) }
        ensures length { IfOk result (λ n. HasLength (file_of file (world_of self.old)) n) }
        ensures cause { HasCause file (world_of self.old) (world_of self.new) result }
        ensures fails { IsErr result ↔ IsTrue (fails self.old.recording) }
        ensures next { self.new ≡ after_ask (Call.Look file) self.old }
    {
        self.host.length(file)
    }

    fn read_at(&mut self, file: u32, at: u64, out: &mut [u8]) -> Result<usize, Failed>
        ensures call { CallsOn file (world_of self.old) (world_of self.new) }
        ensures same { Stays file (world_of self.old) (world_of self.new) }
        ensures bound { IfOk result (λ n. n ≤ length out.new) }
        ensures bytes { IfOk result (λ n. HasRead (file_of file (world_of self.old)) at n out.new) }
        ensures cause { HasCause file (world_of self.old) (world_of self.new) result }
        ensures fails { IsErr result ↔ IsTrue (fails self.old.recording) }
        ensures next { self.new ≡ after_ask (Call.Look file) self.old }
    {
        self.host.read_at(file, at, out)
    }

    fn write_at(&mut self, file: u32, at: u64, bytes: &[u8]) -> Result<(), Failed>
        requires { at + length bytes.now ≤ 2 ^ 40 }
        ensures call { CallsOn file (world_of self.old) (world_of self.new) }
        ensures written { OnOk result
            (Writes file at bytes.now (world_of self.old) (world_of self.new)) }
        ensures torn { OnErr result
            (Tears file at (length bytes.now) (world_of self.old) (world_of self.new)) }
        ensures cause { HasCause file (world_of self.old) (world_of self.new) result }
        ensures fails { IsErr result ↔ IsTrue (fails_to_write file at (length bytes.now) self.old) }
        ensures leaves { file_now self.new file ≡ file_after_write file at bytes.now self.old }
        ensures next { self.new ≡ after_write file at bytes.now self.old }
    {
        self.host.write_at(file, at, bytes)
    }

    fn sync(&mut self, file: u32) -> Result<(), Failed>
        ensures call { CallsOn file (world_of self.old) (world_of self.new) }
        ensures kept { OnOk result (Keeps file (world_of self.old) (world_of self.new)) }
        ensures unsettled { OnErr result (Unsettles file (world_of self.old) (world_of self.new)) }
        ensures cause { HasCause file (world_of self.old) (world_of self.new) result }
        ensures fails { IsErr result ↔ IsTrue (fails self.old.recording) }
        ensures leaves { file_now self.new file ≡ file_after_sync file self.old }
        ensures next { self.new ≡ after_ask (Call.Sync file) self.old }
    {
        self.host.sync(file)
    }
}
