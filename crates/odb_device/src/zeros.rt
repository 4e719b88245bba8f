//! Writing zeros, as much by one call as a piece has.
ghost use Rattle.std.specs.Prelude.{◌+◌, ◌^◌, ◌≤◌, length, OnOk, IfSome};
ghost use Rattle.odb_device.specs.World.{file_of};
ghost use Rattle.odb_device.specs.Images.{TornFrom};
ghost use Rattle.odb_device.specs.Calls.{CallsOn, HasCause};
ghost use Rattle.odb_device.specs.Zeros.{ZerosGoOn};

use crate::{Failed, Store};

/// How many zeros one call writes at most.
const PIECE: usize = 65_536;

static ZEROS: [u8; PIECE] = [0; PIECE];

/// Writes so many zeros from the byte `at` on, at most 65,536: one write, which takes no memory.
///
/// What was zeros before them goes on by so many bytes. After `Failed` their range may hold any
/// bytes.
pub fn write_zeros<S: Store>(store: &mut S, file: u32, at: u64, size: usize) -> Result<(), Failed>
    requires size { size ≤ 65536 }
    requires within { at + size ≤ 2 ^ 40 }
    ensures call { CallsOn file (S.world store.old) (S.world store.new) }
    ensures torn { TornFrom at size
        (file_of file (S.world store.old)) (file_of file (S.world store.new)) }
    ensures zero { OnOk result
        (ZerosGoOn at size (file_of file (S.world store.old)) (file_of file (S.world store.new))) }
    ensures long { OnOk result
        (IfSome (file_of file (S.world store.new)) (λ f. at + size ≤ length f.bytes)) }
    ensures cause { HasCause file (S.world store.old) (S.world store.new) result }
{
    store.write_at(file, at, &ZEROS[..size])
}
