//! Where rows are read.
ghost use Rattle.std.specs.Prelude.{◌≡◌, ℕ, IfOk, IfErr, option_map};
ghost use Rattle.std.specs.Option.{option_copied};
ghost use Rattle.odb_model.specs.State.{State};
ghost use Rattle.odb_rowsource.specs.RowSource.{row_at, next_in, NoneFell, HasCause};

use crate::ShownRow;
use odb_values::{Duplicate, Key, Range, Row};
use std::alloc::{AllocError, Global};

/// A row of a table with its key.
#[derive(Debug, Drop)]
pub struct KeyedRow {
    /// The primary key of the row.
    pub key: Key,
    /// The values outside the key.
    pub row: Row,
}

/// Why a source gave no answer.
#[derive(Clone, Copy, Debug, PartialEq, Eq)]
pub enum RowError {
    /// Memory was missing.
    NoMemory,
    /// A file that the rows are read from failed, and its count of faults rose.
    Fault {
        /// The number of the file.
        file: u32,
    },
}

impl From<AllocError> for RowError {
    ghost use Rattle.odb_rowsource.specs.declared.row_source.RowError.TheVariants.{NoMemory};

    ghost from_gives = { λ _ e. e ≡ NoMemory };

    fn from(_: AllocError) -> RowError {
        RowError::NoMemory
    }
}

/// Where a statement reads rows: a state, read a row at a time. A walk asks for the row above the
/// last one, by `show` where it only looks at it, by `next` where it keeps it.
///
/// No call changes the state that the source tells. Each refusal is want of memory, or a fault of a
/// file whose count rose in that call.
pub trait RowSource {
    /// The rows that the source stands for.
    ghost state: { Self → State };

    /// How many faults of each file there were.
    ghost faults: { Self → ℕ → ℕ };

    /// A row as the source shows it: lent from where it lies, or a copy where it can't be.
    type Shown: ShownRow + Drop;

    /// The row at a table and a key, or None where there is none.
    fn get(&mut self, alloc: Global, table: u32, key: &Key) -> Result<Option<Row>, RowError>
        ensures state { state self.new ≡ state self.old }
        ensures counts { NoneFell (faults self.old) (faults self.new) }
        ensures row { IfOk result (λ row. row ≡ row_at table key.now (state self.old)) }
        ensures cause { IfErr result (HasCause (faults self.old) (faults self.new)) };

    /// The row with the least key of a range that is above `after`, or the least of the whole range
    /// where that is None, as the source shows it. Where it is lent this copies nothing of it.
    fn show(
        &mut self,
        alloc: Global,
        range: &Range,
        after: Option<&Key>,
    ) -> Result<Option<Self::Shown>, RowError>
        ensures state { state self.new ≡ state self.old }
        ensures counts { NoneFell (faults self.old) (faults self.new) }
        ensures row { IfOk result (λ shown. option_map Self.Shown.keyed shown
            ≡ next_in range.now (option_copied after.entry) (state self.old)) }
        ensures cause { IfErr result (HasCause (faults self.old) (faults self.new)) };

    /// A copy of the row that `show` shows.
    fn next(
        &mut self,
        alloc: Global,
        range: &Range,
        after: Option<&Key>,
    ) -> Result<Option<KeyedRow>, RowError>
        ensures state { state self.new ≡ state self.old }
        ensures counts { NoneFell (faults self.old) (faults self.new) }
        ensures row { IfOk result
            (λ row. row ≡ next_in range.now (option_copied after.entry) (state self.old)) }
        ensures cause { IfErr result (HasCause (faults self.old) (faults self.new)) }
    {
        match self.show(alloc, range, after)? {
            None => Ok(None),
            Some(shown) => Ok(Some(KeyedRow {
                key: shown.key().copy(alloc)?,
                row: shown.row().copy(alloc)?,
            })),
        }
    }
}
