//! What the calls of TRANSDB refuse.
ghost use Rattle.std.specs.Prelude.{◌≡◌};
ghost use Rattle.odb_transdb.specs.declared.error.TransdbError.TheVariants.{Fault, NoMemory};

use odb_device::Failed;
use std::alloc::AllocError;
use thiserror::Error;

/// What the calls of TRANSDB refuse.
#[derive(Clone, Copy, Debug, PartialEq, Eq, Error)]
pub enum TransdbError {
    /// 1: the file has no pair with an open place: it isn't there, or its creation didn't come to
    /// its end.
    #[error("there is no database")]
    NoDatabase,
    /// 2: the file isn't a TRANSDB in order; `at` is the byte, from the file's start, at which that
    /// shows.
    #[error("TRANSDB is damaged at byte {at}")]
    Damaged { at: u64 },
    /// 3: the record needs so many bytes, and so many are left on the active side. Nothing has
    /// changed.
    #[error("the record needs {need} bytes of {room}")]
    Full { need: u64, room: u64 },
    /// 4: a call on the file failed before the record's gate was written. The record isn't there,
    /// and the call may be made again.
    #[error("a call on the file failed before the commit")]
    FaultBefore,
    /// 5: a call on the file failed from the writing of the record's gate on. Whether the entry of
    /// this number is there is told by the next opening alone.
    #[error("it is not known whether entry {number} is there")]
    InDoubt { number: u64 },
    /// 6: the side that isn't active isn't clean: it holds entries, or what is left of some.
    /// Nothing has changed.
    #[error("the other side is not clean")]
    NotClean,
    /// 7: the live side ends with the entry `last`, and of its entries those up to `mark` alone
    /// may go. Nothing has changed.
    #[error("the live side goes up to entry {last}, and entries may go up to {mark}")]
    Held { mark: u64, last: u64 },
    /// 8: a call on the file failed.
    #[error("a call on the file failed")]
    Fault,
    /// Memory ran out.
    #[error("out of memory")]
    NoMemory,
}

impl From<Failed> for TransdbError {
    ghost from_gives = { λ _ e. e ≡ Fault };

    fn from(_failed: Failed) -> TransdbError {
        TransdbError::Fault
    }
}

impl From<AllocError> for TransdbError {
    ghost from_gives = { λ _ e. e ≡ NoMemory };

    fn from(_error: AllocError) -> TransdbError {
        TransdbError::NoMemory
    }
}
