//! The calls of a host in memory that tests make.
ghost use Rattle.std.specs.Prelude.{◌≡◌, Some, length, OnOk, OnErr};
ghost use Rattle.odb_device.specs.World.{faults_of, file_of, present};
ghost use Rattle.odb_memstore.specs.Replay.{settled};
ghost use Rattle.odb_memstore.specs.Tape.{file_now, world_of};
ghost use Rattle.odb_memstore.specs.Setting.{with_failing, with_input, with_file, LeavesOthers};

use crate::{MemError, MemHost};
use std::alloc::Global;

impl MemHost {
    /// Lists a call that is to fail: its number on the record, from 0. A number that is passed has
    /// no effect any more.
    pub fn fail(&mut self, _alloc: Global, call: u32) -> Result<(), MemError>
        ensures ok { OnOk result (self.new ≡ with_failing call self.old) }
        ensures err { OnErr result (self.new ≡ self.old) }
    {
        self.recorder.fail(call)?;
        Ok(())
    }

    /// Puts bytes behind the input.
    pub fn feed(&mut self, _alloc: Global, bytes: &[u8]) -> Result<(), MemError>
        ensures ok { OnOk result (self.new ≡ with_input bytes.now self.old) }
        ensures err { OnErr result (self.new ≡ self.old) }
    {
        self.input.extend_from_slice(bytes)?;
        Ok(())
    }

    /// The bytes of a file, as a read gives them.
    pub fn file(&self, file: u32) -> &[u8]
        ensures { result.now ≡ (file_now self.now file).bytes }
    {
        self.bytes(file)
    }

    /// Gives a file these bytes, and takes them for those that it had before the first call.
    ///
    /// So they are on the disk, also after a crash at an earlier call. The calls recorded on this
    /// file keep their numbers and places, and count as looks. No room is needed for the bytes, but
    /// a later `write_at` counts them with those of the other files. It takes a pass over the
    /// record, and memory for the bytes twice.
    pub fn set_file(&mut self, _alloc: Global, file: u32, bytes: &[u8]) -> Result<(), MemError>
        ensures ok { OnOk result (self.new ≡ with_file file bytes.now self.old) }
        ensures on_disk { OnOk result
            (file_of file (world_of self.new) ≡ Some (settled bytes.now)) }
        ensures others { OnOk result (LeavesOthers file (world_of self.old) (world_of self.new)) }
        ensures err { OnErr result (self.new ≡ self.old) }
    {
        let places = self.recorder.places_left() + 1;
        self.start.reserve(1, bytes.len())?;
        self.current.reserve(places, bytes.len())?;
        self.start.set(file, bytes);
        self.current.set(file, bytes);
        self.recorder.forget(file);
        Ok(())
    }

    /// All that was said.
    pub fn said(&self) -> &[u8]
        ensures said { result.now ≡ self.now.said }
        ensures told { (present (world_of self.now)).said ≡ Some result.now }
    {
        self.said.as_slice()
    }

    /// A file's count of faults: its calls that failed, and all calls of the store that found no
    /// place.
    ///
    /// It takes a pass over the record.
    pub fn faults(&self, file: u32) -> u64
        ensures { result ≡ faults_of file (world_of self.now) }
    {
        self.recorder.faults(file)
    }

    /// How many calls are on the record.
    pub fn calls(&self) -> u32
        ensures { result ≡ length self.now.recording.calls }
    {
        self.recorder.calls().len() as u32
    }
}
