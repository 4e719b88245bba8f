//! Making bytes of the file zeros.
ghost use Rattle.std.specs.Prelude.{◌+◌, ◌-◌, ◌^◌, ◌<◌, ◌≤◌, OnOk};
ghost use Rattle.odb_device.specs.World.{file_of};
ghost use Rattle.odb_device.specs.Images.{EachImage};
ghost use Rattle.odb_device.specs.Calls.{HasCause};
ghost use Rattle.odb_reclog.specs.Told.{TearsOnly};
ghost use Rattle.odb_transdb.specs.Steps.{IsBlankFrom};

use crate::transdb::FILE;
use odb_device::{Failed, Store, write_zeros};

/// How many bytes are zeroed by one write.
const PIECE: u64 = 65_536;

/// Makes the bytes of file 0 from `start` to before `end` zeros on the disk, in pieces of 65,536
/// bytes, with one sync behind them.
pub(crate) fn zero_range<S: Store>(store: &mut S, start: u64, end: u64) -> Result<(), Failed>
    requires { (start < end) × (end ≤ 2 ^ 40) }
    ensures run { TearsOnly 0 start (end - start) (S.world store.old) (S.world store.new) }
    ensures blank { OnOk result
        (EachImage (IsBlankFrom start end) (file_of 0 (S.world store.new))) }
    ensures cause { HasCause 0 (S.world store.old) (S.world store.new) result }
{
    let mut at = start;
    while at < end {
        let size = (end - at).min(PIECE);
        write_zeros(store, FILE, at, size as usize)?;
        at += size;
    }
    store.sync(FILE)
}
