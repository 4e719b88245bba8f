//! Why a statement is bound to no table.
ghost use Rattle.std.specs.Prelude.{◌≡◌};
ghost use Rattle.odb_plan.specs.declared.error.PlanError.TheVariants.{NoMemory};

use std::alloc::{AllocError, AllocFailed};
use thiserror::Error;

/// Why a statement is bound to no table. The numbered ones are told of its text, gone through from
/// left to right, and of the dictionary: the first that comes.
#[derive(Clone, Copy, Debug, PartialEq, Eq, Error)]
pub enum PlanError {
    /// 1: the table has no column of a name that the statement names.
    #[error("the table has no column of this name")]
    NoColumn,
    /// 2: a number stands where a text is wanted, or a text where a number is.
    #[error("a value is of another kind than its column")]
    KindMismatch,
    /// 3: the statement sets a column of the primary key.
    #[error("a column of the primary key is set")]
    KeyColumn,
    /// 4: a tuple has more or fewer values than the table has columns, or a column is set twice.
    #[error("a tuple has another number of values than the table has columns")]
    ColumnCount,
    /// Memory ran out.
    #[error("memory ran out")]
    NoMemory,
}

impl From<AllocError> for PlanError {
    ghost from_gives = { λ _ e. e ≡ NoMemory };

    fn from(_error: AllocError) -> PlanError {
        PlanError::NoMemory
    }
}

impl<T: Drop> From<AllocFailed<T>> for PlanError {
    ghost from_gives = { λ _ e. e ≡ NoMemory };

    fn from(_error: AllocFailed<T>) -> PlanError {
        PlanError::NoMemory
    }
}
