//! Slots for the records of a run.
ghost use Rattle.std.specs.Prelude.{◌≡◌, ◌+◌, ◌≤◌, length, IfOk};
ghost use Rattle.odb_bank.specs.Room.{HasUsed, AreFree};

use std::alloc::{AllocError, Global};
use std::collections::BTreeSet;

/// How many slots a file may have.
pub(crate) const SLOTS: u32 = 4_194_304;

/// The set of these slots. The error is want of memory.
fn set_of(alloc: Global, used: &[u32]) -> Result<BTreeSet<u32>, AllocError>
    ensures { IfOk result (HasUsed used.now) }
{
    let mut set = BTreeSet::new(alloc);
    for slot in used {
        set.insert(*slot)?;
    }
    Ok(set)
}

/// The least slots, so many, that aren't among those in use: a search for each slot in use, and for
/// each that is found. The error is want of memory.
pub(crate) fn free_slots(alloc: Global, used: &[u32], count: usize) -> Result<Vec<u32>, AllocError>
    requires { length used.now + count ≤ 4194304 }
    ensures { IfOk result (λ free. AreFree used.now count free.items) }
{
    let set = set_of(alloc, used)?;
    let mut free = Vec::new(alloc);
    for slot in 0..SLOTS {
        if free.len() == count {
            return Ok(free);
        }
        if !set.contains(&slot) {
            free.push(slot)?;
        }
    }
    Ok(free)
}
