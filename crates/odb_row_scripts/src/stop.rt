//! Why the run of a row stops.

use odb_memstore::MemError;
use odb_reply::ReplyError;
use odb_rowfile::TextError;
use std::alloc::{AllocError, Global};

/// Why the run of a row stops before its end.
#[derive(Drop)]
pub enum Stop {
    /// There is no memory for it.
    NoMemory,
    /// This line doesn't hold, or can't be read.
    Wrong { line: u64, why: String },
}

/// A line that doesn't hold, and why.
pub fn wrong(alloc: Global, line: u64, why: &str) -> Stop {
    match String::from_str(alloc, why) {
        Ok(why) => Stop::Wrong { line, why },
        Err(_) => Stop::NoMemory,
    }
}

/// A text that can't be read.
pub(crate) fn unread(alloc: Global, line: u64, error: TextError) -> Stop {
    match error {
        TextError::NoMemory => Stop::NoMemory,
        TextError::BadEscape => wrong(alloc, line, "a wrong escape"),
        TextError::BadHex => wrong(alloc, line, "no pairs of hexadecimal digits"),
    }
}

impl From<AllocError> for Stop {
    fn from(_error: AllocError) -> Stop {
        Stop::NoMemory
    }
}

impl From<MemError> for Stop {
    fn from(_error: MemError) -> Stop {
        Stop::NoMemory
    }
}

impl From<ReplyError> for Stop {
    fn from(_error: ReplyError) -> Stop {
        Stop::NoMemory
    }
}
