//! What the calls of a record log refuse.
ghost use Rattle.odb_reclog.specs.declared.error.RecError.TheVariants.{Fault, NoMemory};
ghost use Rattle.std.specs.Prelude.{◌≡◌};

use odb_device::Failed;
use std::alloc::AllocError;
use thiserror::Error;

/// What the calls of a record log refuse.
#[derive(Clone, Copy, Debug, PartialEq, Eq, Error)]
pub enum RecError {
    /// 1: a call of the store on the log's file failed, and the file's count of faults rose.
    #[error("a call on the file failed")]
    Fault,
    /// 2: the record needs so many bytes, and so many are left in the region.
    #[error("the record needs {need} bytes of {room}")]
    Full { need: u64, room: u64 },
    /// There is no memory for the record that is read.
    #[error("out of memory")]
    NoMemory,
}

impl From<Failed> for RecError {
    ghost from_gives = { λ _ e. e ≡ Fault };

    fn from(_failed: Failed) -> RecError {
        RecError::Fault
    }
}

impl From<AllocError> for RecError {
    ghost from_gives = { λ _ e. e ≡ NoMemory };

    fn from(_error: AllocError) -> RecError {
        RecError::NoMemory
    }
}
