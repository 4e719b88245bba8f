//! The steps of upkeep that a control line asks for.
use odb_values::Duplicate;
use std::alloc::{AllocError, Global};

/// What a control line asks for.
#[derive(Clone, Copy, Debug, PartialEq, Eq)]
pub enum Control {
    /// Writes the records of the next entries for a copy, by its file, into free slots, behind
    /// closed gates.
    Bodies(u32),
    /// Opens the gates of those slots.
    Gates(u32),
    /// Raises the copy's mark to the number that it has reached.
    Mark(u32),
    /// Copies entries to LOGDB.
    Log,
    /// Takes TRANSDB's other side into use.
    Turn,
    /// Makes TRANSDB's other side free.
    Clean,
    /// Copies records to a new copy, by its file.
    Copy(u32),
    /// Drops LOGDB's entries up to this number.
    DropLog(u64),
    /// Begins an empty LOGDB.
    NewLog,
    /// Opens the files again.
    Reopen,
    /// Tells the state of the files.
    State,
}

impl Duplicate for Control {
    fn copy(&self, _alloc: Global) -> Result<Control, AllocError> {
        Ok(*self)
    }
}
