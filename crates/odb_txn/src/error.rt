//! Why a transaction refuses.
use std::alloc::AllocError;
use thiserror::Error;

/// Why nothing was added to a transaction, or its writes weren't given.
#[derive(Clone, Copy, Debug, PartialEq, Eq, Error)]
pub enum TxnError {
    /// Memory was missing.
    #[error("out of memory")]
    NoMemory,
}

impl From<AllocError> for TxnError {
    fn from(_: AllocError) -> TxnError {
        TxnError::NoMemory
    }
}
