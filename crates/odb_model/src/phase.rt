//! What the copies of databanks are at, and what STATE tells of them, of TRANSDB and of LOGDB.
use crate::OtherSide;
use odb_values::{Duplicate, Frozen};
use std::alloc::{AllocError, Global};

/// What a copy of a databank is at: its file, a turn of it, or a copying.
#[derive(Clone, Copy, Debug, PartialEq, Eq)]
pub enum CopyPhase {
    /// A turn may begin, or a copying from it.
    Idle,
    /// The bodies of a turn are written, behind closed gates.
    Bodies,
    /// The gates of a turn are open.
    Gates,
    /// Its records are being copied to a new copy; it takes no turn until that is done.
    Source,
    /// It is new, and nothing was copied yet.
    Blank,
    /// It is new, and the records of its source are being copied.
    Filling,
    /// It is new, and all was copied.
    Copied,
    /// It takes no turns.
    Resting,
    /// It takes no part until the files are opened again.
    Out,
}

/// The numbers of the first and of the last entry of LOGDB; the last is one less than the first where
/// it has none.
#[derive(Clone, Copy, Debug, PartialEq, Eq)]
pub struct LogSpan {
    pub first: u64,
    pub last: u64,
}

/// What STATE tells of one copy.
#[derive(Clone, Copy, Debug, PartialEq, Eq)]
pub struct CopyLine {
    /// The number of its file.
    pub file: u32,
    /// The number of its databank.
    pub bank: u32,
    /// The number of the entry to which the file is complete; None of a copy that is blank, being
    /// filled or out.
    pub mark: Option<u64>,
    pub phase: CopyPhase,
}

/// Lines of copies, in ascending order of their files.
pub type CopyLines = Frozen<CopyLine>;

/// What STATE tells.
#[derive(Debug, Drop)]
pub struct StateReply {
    /// How many entries the history has.
    pub number: u64,
    /// The side of TRANSDB that takes new records: 0 or 1.
    pub active: u32,
    /// The state of its other side.
    pub other: OtherSide,
    /// The number of the first entry that TRANSDB holds.
    pub first: u64,
    /// The entries of LOGDB; None where it takes no part.
    pub log: Option<LogSpan>,
    /// The copies.
    pub copies: CopyLines,
}

impl Duplicate for CopyLine {
    fn copy(&self, _alloc: Global) -> Result<CopyLine, AllocError> {
        Ok(*self)
    }
}

impl Duplicate for StateReply {
    fn copy(&self, alloc: Global) -> Result<StateReply, AllocError> {
        Ok(StateReply {
            number: self.number,
            active: self.active,
            other: self.other,
            first: self.first,
            log: self.log,
            copies: self.copies.copy(alloc)?,
        })
    }
}
