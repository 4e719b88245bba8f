//! Why a definition isn't planned.
ghost use Rattle.std.specs.Prelude.{◌≡◌};
ghost use Rattle.odb_catalog.specs.declared.error.CatalogError.TheVariants.{NoMemory};
ghost use Rattle.odb_catalog.specs.Planning.{error_of};

use odb_rowsource::RowError;
use std::alloc::{AllocError, AllocFailed};
use thiserror::Error;

/// Why a definition isn't planned: what refuses it, or what was missing to tell. Nothing has changed.
#[derive(Clone, Copy, Debug, PartialEq, Eq, Error)]
pub enum CatalogError {
    /// 1: no table has the name.
    #[error("no table has the name")]
    NoTable,
    /// 2: no databank has the name.
    #[error("no databank has the name")]
    NoBank,
    /// 3: a table has the name, or two columns have one name.
    #[error("a table has the name, or two columns have one name")]
    NameTaken,
    /// 4: the table holds a row.
    #[error("the table holds a row")]
    NotEmpty,
    /// 8: the object is fixed.
    #[error("the object is fixed")]
    Fixed,
    /// 9: a column of the primary key isn't there.
    #[error("a column of the primary key isn't there")]
    NoColumn,
    /// 10: there are more than 15 columns, or one is twice in the primary key.
    #[error("there are more than 15 columns, or one is twice in the primary key")]
    ColumnCount,
    /// 11: a VARCHAR is of other than 1 to 200 characters.
    #[error("a VARCHAR is of other than 1 to 200 characters")]
    TooLong,
    /// 12: a file that the rows are read from failed, and its count of faults rose.
    #[error("file {file} failed")]
    RowFault {
        /// The number of the file.
        file: u32,
    },
    /// 16: all numbers that the dictionary gives are used.
    #[error("all numbers are used")]
    NoNumberLeft,
    /// Memory ran out.
    #[error("memory ran out")]
    NoMemory,
}

impl From<RowError> for CatalogError {
    ghost from_gives = { λ e c. c ≡ error_of e };

    fn from(error: RowError) -> CatalogError {
        match error {
            RowError::NoMemory => CatalogError::NoMemory,
            RowError::Fault { file } => CatalogError::RowFault { file },
        }
    }
}

impl From<AllocError> for CatalogError {
    ghost from_gives = { λ _ e. e ≡ NoMemory };

    fn from(_error: AllocError) -> CatalogError {
        CatalogError::NoMemory
    }
}

impl<T: Drop> From<AllocFailed<T>> for CatalogError {
    ghost from_gives = { λ _ e. e ≡ NoMemory };

    fn from(_error: AllocFailed<T>) -> CatalogError {
        CatalogError::NoMemory
    }
}
