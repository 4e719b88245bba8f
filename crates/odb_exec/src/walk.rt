//! The walk over the rows of a range.
ghost use Rattle.std.specs.Prelude.{◌≡◌, IfOk, IfErr, option_map};
ghost use Rattle.std.specs.Option.{option_copied, option_or};
ghost use Rattle.odb_rowsource.specs.RowSource.{NoneFell};
ghost use Rattle.odb_exec.specs.Outcome.{IsCaused};
ghost use Rattle.odb_exec.specs.Walk.{IsFirstLeft, key_shown};

use crate::Trouble;
use odb_eval::{Filter, keeps};
use odb_rowsource::{RowSource, ShownRow};
use odb_values::{Key, Range};
use std::alloc::Global;

/// The first row of a range above `after` that a WHERE keeps, or None where none is left: called
/// again with the key of the row that it gave, it goes over the rows that are kept in key order.
///
/// Each row of the range is asked of the source once, and is only looked at.
pub fn next_kept<R: RowSource>(
    rows: &mut R,
    alloc: Global,
    range: &Range,
    filter: &Option<Filter>,
    after: Option<&Key>,
) -> Result<Option<R::Shown>, Trouble>
    ensures state { R.state rows.new ≡ R.state rows.old }
    ensures counts { NoneFell (R.faults rows.old) (R.faults rows.new) }
    ensures row { IfOk result (λ row. IsFirstLeft range.now filter.now
        (option_copied after.entry) (R.state rows.old) (option_map R.Shown.keyed row)) }
    ensures cause { IfErr result (IsCaused (R.faults rows.old) (R.faults rows.new)) }
{
    let mut passed = None;
    loop {
        let Some(row) = rows.show(alloc, range, later(&passed, after))? else {
            return Ok(None);
        };
        if keeps(filter, row.key(), row.row()) {
            return Ok(Some(row));
        }
        passed = Some(row);
    }
}

/// The key of a row, where there is one.
pub fn key_shown<T: ShownRow>(row: &Option<T>) -> Option<&Key>
    ensures { option_copied result ≡ key_shown T.keyed row.now }
{
    match row {
        Some(row) => Some(row.key()),
        None => None,
    }
}

/// The key of the first row, or the other one where there is none.
fn later<'a, T: ShownRow>(passed: &'a Option<T>, after: Option<&'a Key>) -> Option<&'a Key>
    ensures { option_copied result
        ≡ option_or (key_shown T.keyed passed.now) (option_copied after.entry) }
{
    match passed {
        Some(row) => Some(row.key()),
        None => after,
    }
}
