//! The extents that a turn adds.
ghost use Rattle.std.specs.Prelude.{◌≡◌, ◌≤◌, max, IfErr, OnOk};
ghost use Rattle.odb_device.specs.World.{file_of};
ghost use Rattle.odb_device.specs.Calls.{HasCause};
ghost use Rattle.odb_extent.specs.Standing.{Stands as ExtentStands, limit_of};
ghost use Rattle.odb_bank.specs.Growing.{IsGrowing};

use odb_device::Store;
use odb_extent::{ExtentError, Extents};

/// Adds extents until there are so many; where there are, it calls no store.
pub(crate) fn grow_to<S: Store>(
    extents: &mut Extents,
    store: &mut S,
    limit: u32,
) -> Result<(), ExtentError>
    requires most { limit ≤ extents.old.most }
    requires stands { ExtentStands extents.old
        (file_of extents.old.pair.file (S.world store.old)) }
    ensures grown { IsGrowing extents.old (S.world store.old) extents.new (S.world store.new) }
    ensures exact { OnOk result (limit_of extents.new ≡ max (limit_of extents.old) limit) }
    ensures bound { limit_of extents.new ≤ max (limit_of extents.old) limit }
    ensures refusal { IfErr result (λ e. e ≡ ExtentError.Fault) }
    ensures cause { HasCause extents.old.pair.file
        (S.world store.old) (S.world store.new) result }
{
    for reached in extents.limit()..limit {
        extents.grow(store)?;
    }
    Ok(())
}
