//! Why a table refuses.
use std::alloc::AllocError;
use thiserror::Error;

/// Why an entry wasn't folded in.
#[derive(Clone, Copy, Debug, PartialEq, Eq, Error)]
pub enum TableError {
    /// Memory was missing.
    #[error("out of memory")]
    NoMemory,
}

impl From<AllocError> for TableError {
    fn from(_: AllocError) -> TableError {
        TableError::NoMemory
    }
}
