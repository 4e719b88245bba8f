//! Extents of zeros.
ghost use Rattle.std.specs.Prelude.{◌+◌, ◌<◌, OnOk};
ghost use Rattle.odb_device.specs.World.{file_of};
ghost use Rattle.odb_device.specs.Images.{EachImage};
ghost use Rattle.odb_device.specs.Calls.{HasCause};
ghost use Rattle.odb_extent.specs.Opened.{content_end, AddsZeros};
ghost use Rattle.odb_extent.specs.Standing.{WritesIn, IsBehindContent};

use crate::limits::content_end;
use odb_device::{Failed, Store, write_zeros};

/// How many bytes are zeroed by one write.
const PIECE: u64 = 65_536;

/// How many such pieces an extent has.
const PIECES: u64 = 16;

/// Makes the extent behind so many extents zeros on the disk: sixteen writes and one sync.
pub(crate) fn zero_extent<S: Store>(store: &mut S, file: u32, limit: u32) -> Result<(), Failed>
    requires { limit < 4096 }
    ensures run { WritesIn (IsBehindContent limit) (content_end (limit + 1)) file
        (S.world store.old) (S.world store.new) }
    ensures zero { OnOk result
        (EachImage (AddsZeros limit (limit + 1)) (file_of file (S.world store.new))) }
    ensures cause { HasCause file (S.world store.old) (S.world store.new) result }
{
    let start = content_end(limit);
    for piece in 0..PIECES {
        write_zeros(store, file, start + PIECE * piece, PIECE as usize)?;
    }
    store.sync(file)
}
