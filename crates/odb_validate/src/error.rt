//! Why a window refuses.
use std::alloc::AllocError;
use thiserror::Error;

/// Why no place was reserved for an entry.
#[derive(Clone, Copy, Debug, PartialEq, Eq, Error)]
pub enum WindowError {
    /// Memory was missing.
    #[error("out of memory")]
    NoMemory,
}

impl From<AllocError> for WindowError {
    fn from(_: AllocError) -> WindowError {
        WindowError::NoMemory
    }
}

/// Some read is too old to be judged: entries that came after it are no longer in the window. The
/// transaction has to run again.
#[derive(Clone, Copy, Debug, PartialEq, Eq, Error)]
#[error("read where the history had {oldest} entries, before the window's start at {start}")]
pub struct Aged {
    /// The least number of entries that the history had at one of the reads.
    pub oldest: u64,
    /// How many entries the history has before the window.
    pub start: u64,
}
