//! Why a reply is not printed.
ghost use Rattle.std.specs.Prelude.{◌≡◌};
ghost use Rattle.odb_reply.specs.declared.error.ReplyError.TheVariants.{NoMemory};

use std::alloc::AllocError;
use thiserror::Error;

/// Why a reply is not printed.
#[derive(Clone, Copy, Debug, PartialEq, Eq, Error)]
pub enum ReplyError {
    /// 1: memory ran out. Nothing is printed, and the reply is as before.
    #[error("memory ran out")]
    NoMemory,
}

impl From<AllocError> for ReplyError {
    ghost from_gives = { λ _ e. e ≡ NoMemory };

    fn from(_error: AllocError) -> ReplyError {
        ReplyError::NoMemory
    }
}
