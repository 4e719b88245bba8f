//! The console of a host in memory.
ghost use Rattle.std.specs.Prelude.{◌≡◌, ◌<◌, ◌≤◌, ◌↔◌, length, take, IfOk, OnErr, IsErr, IsTrue};
ghost use Rattle.odb_device.specs.Console.{Talks, TakeCountRose, SayCountRose, Says, SaysNothing, Takes, TakesNothing, EndsInput};
ghost use Rattle.odb_memstore.specs.Recording.{fails};
ghost use Rattle.odb_memstore.specs.Tape.{world_of};
ghost use Rattle.odb_memstore.specs.Calls.{TakesNext, fails_to_say, after_say};

use crate::MemHost;
use odb_device::{Console, Failed, Host};

impl Console for MemHost {
    fn take(&mut self, out: &mut [u8]) -> Result<usize, Failed>
        requires { 0 < length out.old }
        ensures call { Talks (world_of self.old) (world_of self.new) }
        ensures output { SaysNothing (world_of self.old) (world_of self.new) }
        ensures bound { IfOk result (λ n. n ≤ length out.new) }
        ensures taken { IfOk result
            (λ n. Takes (take n out.new) (world_of self.old) (world_of self.new)) }
        ensures ended { IfOk result (λ n. EndsInput n (world_of self.old) (world_of self.new)) }
        ensures failed { OnErr result (TakesNothing (world_of self.old) (world_of self.new)) }
        ensures cause { OnErr result (TakeCountRose (world_of self.old) (world_of self.new)) }
        ensures fails { IsErr result ↔ IsTrue (fails self.old.recording) }
        ensures next { TakesNext (length out.old) out.new result self.old self.new }
    {
        match self.take_next(out) {
            None => Err(Failed),
            Some(n) => Ok(n),
        }
    }

    fn say(&mut self, bytes: &[u8]) -> Result<usize, Failed>
        requires { 0 < length bytes.now }
        ensures call { Talks (world_of self.old) (world_of self.new) }
        ensures input { TakesNothing (world_of self.old) (world_of self.new) }
        ensures bound { IfOk result (λ n. (0 < n) × (n ≤ length bytes.now)) }
        ensures said { IfOk result
            (λ n. Says (take n bytes.now) (world_of self.old) (world_of self.new)) }
        ensures failed { OnErr result (SaysNothing (world_of self.old) (world_of self.new)) }
        ensures cause { OnErr result (SayCountRose (world_of self.old) (world_of self.new)) }
        ensures fails { IsErr result ↔ IsTrue (fails_to_say (length bytes.now) self.old) }
        ensures all { IfOk result (λ n. n ≡ length bytes.now) }
        ensures next { self.new ≡ after_say bytes.now self.old }
    {
        if !self.say_whole(bytes) {
            return Err(Failed);
        }
        Ok(bytes.len())
    }
}

impl Host for MemHost {}
