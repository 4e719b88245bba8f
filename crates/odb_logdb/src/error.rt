//! What the calls of the longer log refuse.
ghost use Rattle.std.specs.Prelude.{◌≡◌};
ghost use Rattle.odb_logdb.specs.declared.error.LogdbError.TheVariants.{Fault, NoMemory};

use odb_device::Failed;
use std::alloc::AllocError;
use thiserror::Error;

/// What the calls of the longer log refuse.
#[derive(Clone, Copy, Debug, PartialEq, Eq, Error)]
pub enum LogdbError {
    /// 1: a call of the store on the file failed, and the file's count of faults rose.
    #[error("a call on the file failed")]
    Fault,
    /// 2: the record of the next entry needs so many bytes, and so many are left of the 1,024
    /// extents that the file may have. The entries before it are held.
    #[error("the record needs {need} bytes of {room}")]
    LogFull { need: u64, room: u64 },
    /// 3: the entries from that number on aren't all held; the first one held has this number.
    #[error("the first entry held is {first}")]
    NotHeld { first: u64 },
    /// 5: the file isn't a log in order; `at` is the byte, from the file's start, at which that
    /// shows.
    #[error("the log is damaged at byte {at}")]
    Damaged { at: u64 },
    /// Memory ran out.
    #[error("out of memory")]
    NoMemory,
}

impl From<Failed> for LogdbError {
    ghost from_gives = { λ _ e. e ≡ Fault };

    fn from(_failed: Failed) -> LogdbError {
        LogdbError::Fault
    }
}

impl From<AllocError> for LogdbError {
    ghost from_gives = { λ _ e. e ≡ NoMemory };

    fn from(_error: AllocError) -> LogdbError {
        LogdbError::NoMemory
    }
}

/// What adding a record refuses.
#[derive(Clone, Copy, Debug, PartialEq, Eq)]
pub(crate) enum AddError {
    /// A call of the store failed before the record's gate was written.
    Fault,
    /// A call failed from the gate's write on: the record may be there.
    InDoubt,
    /// The record needs so many bytes, and so many are left.
    Full { need: u64, room: u64 },
}
