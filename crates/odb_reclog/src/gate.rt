//! The gate at the end of a list.
ghost use Rattle.std.specs.Prelude.{◌≡◌, ◌↔◌, ◌<◌, ◌≤◌, IsTrue, length, OnOk, IfOk, option_map};
ghost use Rattle.odb_device.specs.World.{file_of};
ghost use Rattle.odb_device.specs.Images.{IsKept};
ghost use Rattle.odb_device.specs.Calls.{HasCause};
ghost use Rattle.odb_reclog.specs.Records.{OPEN, gate_at};
ghost use Rattle.odb_reclog.specs.Told.{IfTold, OnlyReads};
ghost use Rattle.odb_reclog.specs.Regions.{IsRegion, IsLong, ListEndsAt, KeepsListFrom, TearsOpenEnd};
ghost use Rattle.odb_reclog.specs.Ends.{closed_at};

use crate::head;
use crate::region::Region;
use odb_device::{Failed, Store, write_synced};

/// Whether the gate at a place is open. One read of one byte.
#[tactic(auto, unfolding(crate::specs::Records::gate_at))]
fn is_open<S: Store>(store: &mut S, file: u32, place: u64) -> Result<bool, Failed>
    ensures run { OnlyReads file (S.world store.old) (S.world store.new) }
    ensures open { IfTold file (S.world store.old) (λ bytes. place < length bytes
        → IfOk result (λ is_open. IsTrue is_open ↔ (gate_at place bytes ≡ OPEN))) }
    ensures cause { HasCause file (S.world store.old) (S.world store.new) result }
{
    let mut gate = [0];
    let n = store.read_at(file, place, &mut gate)?;
    Ok(n == 1 && gate[0] == head::OPEN)
}

/// Closes the gate at the place where a region's list ends, where that is a place inside the region
/// and its gate is open.
///
/// One read of one byte; where the gate is open one write and one sync.
pub(crate) fn close_end<S: Store>(store: &mut S, region: Region, place: u64) -> Result<(), Failed>
    requires region { IsRegion region }
    requires within { place ≤ region.end }
    requires long { IsLong region (S.world store.old) }
    requires ends { ListEndsAt region place (S.world store.old) }
    requires kept { IsKept (file_of region.file (S.world store.old)) }
    ensures run { KeepsListFrom region.start region (S.world store.old) (S.world store.new) }
    ensures gate { TearsOpenEnd region (S.world store.old) (S.world store.new) }
    ensures closes { OnOk result (file_of region.file (S.world store.new)
        ≡ option_map (closed_at place region.end) (file_of region.file (S.world store.old))) }
    ensures cause { HasCause region.file (S.world store.old) (S.world store.new) result }
{
    if place == region.end {
        return Ok(());
    }
    if !is_open(store, region.file, place)? {
        return Ok(());
    }
    write_synced(store, region.file, place, &[0])?;
    Ok(())
}
