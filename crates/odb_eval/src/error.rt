//! Why an expression has no value.
ghost use Rattle.std.specs.Prelude.{◌≡◌};
ghost use Rattle.odb_eval.specs.declared.error.EvalError.TheVariants.{NoMemory};

use std::alloc::{AllocError, AllocFailed};
use thiserror::Error;

/// Why an expression has no value.
#[derive(Clone, Copy, Debug, PartialEq, Eq, Error)]
pub enum EvalError {
    /// 1: the sum lies outside the numbers of 64 bits.
    #[error("the sum lies outside the numbers of 64 bits")]
    Overflow,
    /// Memory ran out.
    #[error("memory ran out")]
    NoMemory,
}

impl From<AllocError> for EvalError {
    ghost from_gives = { λ _ e. e ≡ NoMemory };

    fn from(_error: AllocError) -> EvalError {
        EvalError::NoMemory
    }
}

impl<T: Drop> From<AllocFailed<T>> for EvalError {
    ghost from_gives = { λ _ e. e ≡ NoMemory };

    fn from(_error: AllocFailed<T>) -> EvalError {
        EvalError::NoMemory
    }
}
