//! SELECT.
ghost use Rattle.std.specs.Prelude.{◌≡◌, [], ◌∷◌, None, IfOk, IfErr};
ghost use Rattle.odb_rowsource.specs.RowSource.{NoneFell};
ghost use Rattle.odb_exec.specs.Outcome.{IsCaused};
ghost use Rattle.odb_exec.specs.Walk.{rows_left};
ghost use Rattle.odb_exec.specs.Told.{told_by};

use crate::Trouble;
use crate::select::{count_kept, sum_kept, values_kept};
use odb_eval::Filter;
use odb_model::Reply;
use odb_plan::BoundWhat;
use odb_rowsource::RowSource;
use odb_values::{Frozen, Range, Value};
use std::alloc::{AllocError, Global};

/// A reply of one row of one value. The error is want of memory.
fn single(alloc: Global, value: Value) -> Result<Reply, AllocError>
    ensures { IfOk result (λ reply. reply ≡ Reply.Rows ((value ∷ []) ∷ [])) }
{
    let row = Frozen::from_vec(vec![in alloc; value]?);
    Ok(Reply::Rows(Frozen::from_vec(vec![in alloc; row]?)))
}

/// What a SELECT tells of the rows of a range that a WHERE keeps. It goes over the range once.
pub fn told<R: RowSource>(
    rows: &mut R,
    alloc: Global,
    range: &Range,
    filter: &Option<Filter>,
    what: &BoundWhat,
) -> Result<Reply, Trouble>
    ensures state { R.state rows.new ≡ R.state rows.old }
    ensures counts { NoneFell (R.faults rows.old) (R.faults rows.new) }
    ensures reply { IfOk result (λ reply. reply
        ≡ told_by what.now (rows_left range.now filter.now None (R.state rows.old))) }
    ensures cause { IfErr result (IsCaused (R.faults rows.old) (R.faults rows.new)) }
{
    match what {
        BoundWhat::Columns(sources) => {
            let values = values_kept(rows, alloc, range, filter, sources.as_slice())?;
            Ok(Reply::Rows(values))
        }
        BoundWhat::Count => Ok(single(alloc, count_kept(rows, alloc, range, filter)?)?),
        BoundWhat::Sum(source) => match sum_kept(rows, alloc, range, filter, source)? {
            Some(sum) => Ok(single(alloc, sum)?),
            None => Ok(Reply::Overflow),
        },
    }
}
