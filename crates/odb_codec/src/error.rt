//! Why bytes give no value, or a value no bytes.
ghost use Rattle.std.specs.Prelude.{◌≡◌};
ghost use Rattle.odb_codec.specs.declared.error.CodecError.TheVariants.{NoMemory};

use std::alloc::{AllocError, AllocFailed};
use thiserror::Error;

/// Why bytes give no value, or a value no bytes.
#[derive(Clone, Copy, Debug, PartialEq, Eq, Error)]
pub enum CodecError {
    /// 1: the bytes are no image. The fields are read from the left, and the first one that is at
    /// fault begins at byte `at`, counted from 0.
    #[error("the bytes are no image: the field at byte {at} is at fault")]
    Malformed { at: u64 },
    /// Memory ran out.
    #[error("memory ran out")]
    NoMemory,
}

impl From<AllocError> for CodecError {
    ghost from_gives = { λ _ e. e ≡ NoMemory };

    fn from(_error: AllocError) -> CodecError {
        CodecError::NoMemory
    }
}

impl<T: Drop> From<AllocFailed<T>> for CodecError {
    ghost from_gives = { λ _ e. e ≡ NoMemory };

    fn from(_error: AllocFailed<T>) -> CodecError {
        CodecError::NoMemory
    }
}
