//! The entries of the history.
use crate::Writes;
use odb_values::{Duplicate, Frozen};
use std::alloc::{AllocError, Global};

/// What one committed transaction wrote: one entry of the history.
#[derive(Debug, Drop)]
pub struct Entry {
    /// Its place in the history, from 1.
    pub number: u64,
    /// The session that committed it, from 1 to 64.
    pub by: u32,
    /// Its writes in strictly ascending order of table and key, at least one.
    pub writes: Writes,
}

/// Entries in the order of their numbers.
pub type Entries = Frozen<Entry>;

impl Duplicate for Entry {
    fn copy(&self, alloc: Global) -> Result<Entry, AllocError> {
        Ok(Entry {
            number: self.number,
            by: self.by,
            writes: self.writes.copy(alloc)?,
        })
    }
}
