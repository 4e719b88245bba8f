//! Which slots a turn closes.
ghost use Rattle.std.specs.Prelude.{◌≡◌, map, not, IfOk};
ghost use Rattle.std.specs.List.{filter};
ghost use Rattle.odb_bank.specs.History.{is_key};
ghost use Rattle.odb_bank.specs.Closing.{supersedes, is_older, is_open, is_stale, is_closing};

use crate::tree::Tree;
use crate::{Gate, Kept};
use odb_values::cmp_key;
use std::alloc::{AllocError, Global};
use std::cmp::Ordering;

/// The slots that a turn closes: those that are stale, and those in doubt, whose closing was begun.
/// One pass over what memory keeps, with a search or two for each record; the error is want of
/// memory.
pub(crate) fn closing_slots(alloc: Global, slots: &Tree, mark: u64) -> Result<Vec<u32>, AllocError>
    ensures { IfOk result (λ closing. closing.items
        ≡ map (λ it. it.slot) (filter (is_closing mark slots.now) slots.now)) }
{
    let mut closing = Vec::new(alloc);
    slots.push_closing(slots, mark, &mut closing)?;
    Ok(closing)
}

/// The slots of the others.
pub(crate) fn staying_slots(alloc: Global, slots: &Tree, mark: u64) -> Result<Vec<u32>, AllocError>
    ensures { IfOk result (λ staying. staying.items
        ≡ map (λ it. it.slot) (filter (λ it. not (is_closing mark slots.now it)) slots.now)) }
{
    let mut staying = Vec::new(alloc);
    slots.push_staying(slots, mark, &mut staying)?;
    Ok(staying)
}

/// Whether a turn closes the slot of a record: it is in doubt or stale.
pub(crate) fn is_closing(slots: &Tree, mark: u64, it: &Kept) -> bool
    ensures { result ≡ is_closing mark slots.now it.now }
{
    match it.gate {
        Gate::Doubtful => true,
        Gate::Shut => is_stale(slots, mark, it),
        Gate::Open => is_stale(slots, mark, it),
    }
}

/// Whether a turn leaves the slot of a record as it is.
pub(crate) fn is_staying(slots: &Tree, mark: u64, it: &Kept) -> bool
    ensures { result ≡ not (is_closing mark slots.now it.now) }
{
    !is_closing(slots, mark, it)
}

/// Whether a record that is open on the disk supersedes this one, or this is a deletion mark of at
/// most the mark, and there is none older of its key.
fn is_stale(slots: &Tree, mark: u64, it: &Kept) -> bool
    ensures { result ≡ is_stale mark slots.now it.now }
{
    slots.supersedes(it) || (!it.has_row && it.stamp <= mark && !slots.has_older(it))
}

/// Whether a gate is known to be open on the disk.
pub(crate) fn is_open(gate: Gate) -> bool
    ensures { result ≡ is_open gate }
{
    match gate {
        Gate::Open => true,
        Gate::Shut => false,
        Gate::Doubtful => false,
    }
}

/// Whether two records are of one key.
fn is_key(a: &Kept, b: &Kept) -> bool
    ensures { result ≡ is_key a.now.at b.now.at }
{
    a.at.table == b.at.table && cmp_key(&a.at.key, &b.at.key) == Ordering::Equal
}

/// Whether a record takes the place of another of its key: its stamp is higher, or it is the same and
/// its slot is lower.
pub(crate) fn supersedes(by: &Kept, it: &Kept) -> bool
    ensures { result ≡ supersedes by.now it.now }
{
    is_key(by, it) && (it.stamp < by.stamp || (by.stamp == it.stamp && by.slot < it.slot))
}

/// Whether a record is of another's key and has a lower stamp.
pub(crate) fn is_older(other: &Kept, it: &Kept) -> bool
    ensures { result ≡ is_older other.now it.now }
{
    is_key(other, it) && other.stamp < it.stamp
}
