//! The places kept of a side's records.
ghost use Rattle.std.specs.Prelude.{◌≡◌, ◌⊎◌, ◌+◌, ◌*◌, [], ◌∷◌, ◌++◌, length, slice_get, true, IfOk};

use crate::transdb::HEAD_SIZE;
use std::alloc::{AllocError, Global};
use std::marker::Model;

/// How many records lie between two places that are kept.
pub(crate) const STEP: u64 = 64;

/// The places of every 64th record of a side behind its first, in bytes from the file's start.
///
/// A reading begins at the last of them that isn't behind what is wanted, and not at the side's
/// start. Memory is taken once, for as many as the side may ever have: 8 bytes for each 832 of it.
#[derive(Debug, Drop)]
pub(crate) struct Places {
    places: Vec<u64>,
}

impl Model for Places {
    ghost use Rattle.std.specs.Prelude.{ℕ, List};

    ghost Value = { List ℕ };

    ghost view = { λ p. p.places.items };
}

impl Places {
    /// None, with memory for those of a side of so many bytes.
    pub(crate) fn of_side(alloc: Global, side_size: u64) -> Result<Places, AllocError>
        ensures { IfOk result (λ p. p ≡ []) }
    {
        let most = side_size / (STEP * HEAD_SIZE);
        Ok(Places {
            places: Vec::with_capacity(alloc, most as usize)?,
        })
    }

    /// Keeps the place of the record with this number, on a side whose first one has the number
    /// `first`, where it is the next to be kept. It takes no memory.
    pub(crate) fn keep(&mut self, first: u64, number: u64, place: u64)
        ensures { (self.new ≡ self.old) ⊎ ((self.new ≡ self.old ++ place ∷ [])
            × (first + 64 * (length self.old + 1) ≡ number)) }
    {
        let kept = self.places.len();
        if kept < self.places.capacity() && is_next(first, number, kept as u64) {
            self.places.push_reserved(place);
        }
    }

    /// Drops all of them, and keeps the memory.
    pub(crate) fn clear(&mut self)
        ensures { self.new ≡ [] }
    {
        self.places.clear();
    }

    /// How many are kept.
    pub(crate) fn len(&self) -> usize
        ensures { result ≡ length self.now }
    {
        self.places.len()
    }

    /// The place kept at an index, from 0.
    pub(crate) fn get(&self, at: usize) -> Option<u64>
        ensures { result ≡ slice_get self.now at }
    {
        self.places.get(at).copied()
    }
}

/// Whether the record with this number comes behind 64 more than those before the last place kept.
fn is_next(first: u64, number: u64, kept: u64) -> bool
    ensures { result ≡ true → first + 64 * (kept + 1) ≡ number }
{
    let before = number.saturating_sub(first);
    before % STEP == 0 && (before / STEP).checked_sub(1) == Some(kept)
}
