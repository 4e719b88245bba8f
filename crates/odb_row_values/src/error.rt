//! Why a line gives nothing that could be compared.
use std::alloc::AllocError;
use thiserror::Error;

/// Why a line of a row gives no answer.
#[derive(Debug, Drop, Error)]
pub enum LineError {
    /// The line isn't in the form of its kind, or no kind has its first word.
    #[error("the line can't be read: {0}")]
    Unreadable(&'static str),
    #[error("out of memory")]
    Memory(#[from(alloc)] AllocError),
}
