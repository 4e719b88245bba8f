//! Why a statement is not printed.
ghost use Rattle.std.specs.Prelude.{◌≡◌};
ghost use Rattle.odb_print.specs.declared.error.PrintError.TheVariants.{NoMemory};

use std::alloc::AllocError;
use thiserror::Error;

/// Why a statement is not printed.
#[derive(Clone, Copy, Debug, PartialEq, Eq, Error)]
pub enum PrintError {
    /// 1: memory ran out. Nothing is printed, and the statement is as before.
    #[error("memory ran out")]
    NoMemory,
}

impl From<AllocError> for PrintError {
    ghost from_gives = { λ _ e. e ≡ NoMemory };

    fn from(_error: AllocError) -> PrintError {
        PrintError::NoMemory
    }
}
