//! Why a line of a row doesn't hold.

use odb_memstore::MemError;
use odb_rowfile::TextError;
use std::alloc::AllocError;
use thiserror::Error;

/// Why a line of a row doesn't hold.
#[derive(Debug, Drop, Error)]
pub enum StepError {
    #[error("out of memory")]
    NoMemory,
    /// It isn't one of the lines that the runner's head tells of.
    #[error("it can't be read")]
    Unreadable,
    /// It speaks of a pair, a log, extents or a databank file, and there is none that may be used.
    #[error("there is nothing to do this with")]
    NothingThere,
    #[error("wanted `{wanted}`, got `{got}`")]
    Differs {
        wanted: String,
        got: String,
    },
    #[error("behind {calls} calls, by pick {pick}: wanted `{wanted}`, got `{got}`")]
    DiffersAfter {
        calls: u32,
        pick: u64,
        wanted: String,
        got: String,
    },
}

impl From<AllocError> for StepError {
    fn from(_error: AllocError) -> StepError {
        StepError::NoMemory
    }
}

impl From<MemError> for StepError {
    fn from(_error: MemError) -> StepError {
        StepError::NoMemory
    }
}

impl From<TextError> for StepError {
    fn from(error: TextError) -> StepError {
        match error {
            TextError::NoMemory => StepError::NoMemory,
            TextError::BadEscape | TextError::BadHex => StepError::Unreadable,
        }
    }
}
