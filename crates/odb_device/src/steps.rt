//! Calls that most protocols make together.
ghost use Rattle.std.specs.Prelude.{◌+◌, ◌^◌, ◌≤◌, length, OnOk, OnErr};
ghost use Rattle.odb_device.specs.Calls.{HasCause, IsOnePut, Puts};
ghost use Rattle.odb_device.specs.Console.{SayCountRose, Says, SaysOnly, BreaksOff};
ghost use Rattle.odb_device.specs.Moments.{WritesWithin};

use crate::{Console, Failed, Store};

/// Writes the bytes from the byte `at` on and syncs the file: one write and one sync, and no call
/// behind a failed one.
///
/// At each moment of it every image is one from before, but for the range of these bytes. After Ok
/// they are on the disk, after `Failed` their range may hold any bytes.
pub fn write_synced<S: Store>(store: &mut S, file: u32, at: u64, bytes: &[u8]) -> Result<(), Failed>
    requires { at + length bytes.now ≤ 2 ^ 40 }
    ensures run { WritesWithin file at (length bytes.now) (S.world store.old) (S.world store.new) }
    ensures calls { IsOnePut file at bytes.now (S.world store.old) (S.world store.new) }
    ensures done { OnOk result (Puts file at bytes.now (S.world store.old) (S.world store.new)) }
    ensures cause { HasCause file (S.world store.old) (S.world store.new) result }
{
    store.write_at(file, at, bytes)?;
    store.sync(file)
}

/// Says all of the bytes, in as few calls as the console allows: each goes on where the one before
/// ended, and none is made for an empty list.
///
/// After `Failed` a front of them was said, shorter than the whole; the console may be used again.
pub fn say_all<C: Console>(console: &mut C, bytes: &[u8]) -> Result<(), Failed>
    ensures moments { SaysOnly bytes.now (C.world console.old) (C.world console.new) }
    ensures said { OnOk result (Says bytes.now (C.world console.old) (C.world console.new)) }
    ensures broken_off { OnErr result
        (BreaksOff bytes.now (C.world console.old) (C.world console.new)) }
    ensures cause { OnErr result (SayCountRose (C.world console.old) (C.world console.new)) }
{
    let mut said = 0;
    while said < bytes.len() {
        said += console.say(&bytes[said..])?;
    }
    Ok(())
}
