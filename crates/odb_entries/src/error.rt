//! What a walk over entries refuses.
ghost use Rattle.std.specs.Prelude.{◌≡◌};
ghost use Rattle.odb_entries.specs.declared.error.EntriesError.TheVariants.{NoMemory};

use std::alloc::AllocError;
use thiserror::Error;

/// What a walk over the entries of a log refuses.
#[derive(Clone, Copy, Debug, PartialEq, Eq, Error)]
pub enum EntriesError {
    /// 1: the record at byte `at` of the file is no entry, or isn't there any more.
    #[error("the record at byte {at} is no entry")]
    Damaged { at: u64 },
    /// 2: a read of the file failed.
    #[error("a read of the file failed")]
    Fault,
    /// Memory ran out.
    #[error("out of memory")]
    NoMemory,
}

impl From<AllocError> for EntriesError {
    ghost from_gives = { λ _ e. e ≡ NoMemory };

    fn from(_error: AllocError) -> EntriesError {
        EntriesError::NoMemory
    }
}
