//! Why a system could not be started.
ghost use Rattle.odb_system.specs.declared.error.SystemError.TheVariants.{NoMemory};
ghost use Rattle.std.specs.Prelude.{◌≡◌};

use odb_keytable::TableError;
use std::alloc::AllocError;
use thiserror::Error;

/// Why a system could not be started.
#[derive(Clone, Copy, Debug, PartialEq, Eq, Error)]
pub enum SystemError {
    /// Memory ran out.
    #[error("out of memory")]
    NoMemory,
}

impl From<AllocError> for SystemError {
    ghost from_gives = { λ _ e. e ≡ NoMemory };

    fn from(_error: AllocError) -> SystemError {
        SystemError::NoMemory
    }
}

impl From<TableError> for SystemError {
    ghost from_gives = { λ _ e. e ≡ NoMemory };

    fn from(_error: TableError) -> SystemError {
        SystemError::NoMemory
    }
}
