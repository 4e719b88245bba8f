//! The files of a host in memory.
ghost use Rattle.std.specs.Prelude.{◌≡◌, ◌+◌, ◌^◌, ◌≤◌, ◌↔◌, length, IfOk, OnOk, OnErr, IsErr, IsTrue};
ghost use Rattle.odb_device.specs.World.{file_of};
ghost use Rattle.odb_device.specs.Calls.{CallsOn, HasCause, Stays, Writes, Tears, Keeps, Unsettles, HasLength, HasRead};
ghost use Rattle.odb_memstore.specs.Recording.{fails};
ghost use Rattle.odb_memstore.specs.Tape.{file_now, world_of};
ghost use Rattle.odb_memstore.specs.Calls.{fails_to_write, file_after_write, file_after_sync, after_ask, after_write};

use crate::MemHost;
use crate::copying::copy_from;
use crate::recorder::Call;
use odb_device::{Failed, Store};

impl Store for MemHost {
    ghost use Rattle.odb_memstore.specs.Laws.{tape_reads_image};

    ghost reads_image = { λ host file. tape_reads_image host file };

    fn length(&mut self, file: u32) -> Result<u64, Failed>
        ensures call { CallsOn file (world_of self.old) (world_of self.new) }
        ensures same { Stays file (world_of self.old) (world_of self.new) }
        ensures length { IfOk result (λ n. HasLength (file_of file (world_of self.old)) n) }
        ensures cause { HasCause file (world_of self.old) (world_of self.new) result }
        ensures fails { IsErr result ↔ IsTrue (fails self.old.recording) }
        ensures next { self.new ≡ after_ask (Call.Look file) self.old }
    {
        if !self.ask(Call::Look { file }) {
            return Err(Failed);
        }
        Ok(self.bytes(file).len() as u64)
    }

    fn read_at(&mut self, file: u32, at: u64, out: &mut [u8]) -> Result<usize, Failed>
        ensures call { CallsOn file (world_of self.old) (world_of self.new) }
        ensures same { Stays file (world_of self.old) (world_of self.new) }
        ensures bound { IfOk result (λ n. n ≤ length out.new) }
        ensures bytes { IfOk result (λ n. HasRead (file_of file (world_of self.old)) at n out.new) }
        ensures cause { HasCause file (world_of self.old) (world_of self.new) result }
        ensures fails { IsErr result ↔ IsTrue (fails self.old.recording) }
        ensures next { self.new ≡ after_ask (Call.Look file) self.old }
    {
        if !self.ask(Call::Look { file }) {
            return Err(Failed);
        }
        Ok(copy_from(self.bytes(file), at, out))
    }

    fn write_at(&mut self, file: u32, at: u64, bytes: &[u8]) -> Result<(), Failed>
        requires { at + length bytes.now ≤ 2 ^ 40 }
        ensures call { CallsOn file (world_of self.old) (world_of self.new) }
        ensures written { OnOk result
            (Writes file at bytes.now (world_of self.old) (world_of self.new)) }
        ensures torn { OnErr result
            (Tears file at (length bytes.now) (world_of self.old) (world_of self.new)) }
        ensures cause { HasCause file (world_of self.old) (world_of self.new) result }
        ensures fails { IsErr result ↔ IsTrue (fails_to_write file at (length bytes.now) self.old) }
        ensures leaves { file_now self.new file ≡ file_after_write file at bytes.now self.old }
        ensures next { self.new ≡ after_write file at bytes.now self.old }
    {
        if !self.write(file, at, bytes) {
            return Err(Failed);
        }
        Ok(())
    }

    fn sync(&mut self, file: u32) -> Result<(), Failed>
        ensures call { CallsOn file (world_of self.old) (world_of self.new) }
        ensures kept { OnOk result (Keeps file (world_of self.old) (world_of self.new)) }
        ensures unsettled { OnErr result (Unsettles file (world_of self.old) (world_of self.new)) }
        ensures cause { HasCause file (world_of self.old) (world_of self.new) result }
        ensures fails { IsErr result ↔ IsTrue (fails self.old.recording) }
        ensures leaves { file_now self.new file ≡ file_after_sync file self.old }
        ensures next { self.new ≡ after_ask (Call.Sync file) self.old }
    {
        if !self.ask(Call::Sync { file }) {
            return Err(Failed);
        }
        Ok(())
    }
}
