//! Why a statement wasn't executed.
ghost use Rattle.std.specs.Prelude.{◌≡◌};
ghost use Rattle.odb_exec.specs.declared.error.Trouble.TheVariants.{NoMemory};
ghost use Rattle.odb_exec.specs.Outcome.{trouble_of};

use odb_rowsource::RowError;
use std::alloc::{AllocError, AllocFailed};
use thiserror::Error;

/// Why a statement wasn't executed. It has done nothing then, and may be executed again.
#[derive(Clone, Copy, Debug, PartialEq, Eq, Error)]
pub enum Trouble {
    /// Memory ran out.
    #[error("memory ran out")]
    NoMemory,
    /// A file that the rows are read from failed, and its count of faults rose.
    #[error("file {file} failed")]
    RowFault {
        /// The number of the file.
        file: u32,
    },
}

impl From<RowError> for Trouble {
    ghost from_gives = { λ e t. t ≡ trouble_of e };

    fn from(error: RowError) -> Trouble {
        match error {
            RowError::NoMemory => Trouble::NoMemory,
            RowError::Fault { file } => Trouble::RowFault { file },
        }
    }
}

impl From<AllocError> for Trouble {
    ghost from_gives = { λ _ e. e ≡ NoMemory };

    fn from(_error: AllocError) -> Trouble {
        Trouble::NoMemory
    }
}

impl<T: Drop> From<AllocFailed<T>> for Trouble {
    ghost from_gives = { λ _ e. e ≡ NoMemory };

    fn from(_error: AllocFailed<T>) -> Trouble {
        Trouble::NoMemory
    }
}
