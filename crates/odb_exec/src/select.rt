//! What a SELECT tells of the rows that it keeps.
ghost use Rattle.std.specs.Prelude.{◌≡◌, pos, ◌+ℤ◌, map, length, None, IfOk, IfErr};
ghost use Rattle.odb_model.specs.Sums.{total_of};
ghost use Rattle.odb_rowsource.specs.RowSource.{NoneFell};
ghost use Rattle.odb_eval.specs.Bound.{source_value};
ghost use Rattle.odb_exec.specs.Outcome.{IsCaused};
ghost use Rattle.odb_exec.specs.Walk.{rows_left};

use crate::Trouble;
use crate::copying::copied;
use crate::total::Total;
use crate::walk::{key_shown, next_kept};
use odb_eval::{Filter, Source};
use odb_model::ValueRows;
use odb_rowsource::{RowSource, ShownRow};
use odb_values::{Duplicate, Frozen, Key, Range, Row, Value, Values};
use std::alloc::{AllocError, Global};

/// The values that a SELECT gives of one row.
fn values_of(alloc: Global, sources: &[Source], key: &Key, row: &Row) -> Result<Values, AllocError>
    ensures { IfOk result (λ values. values
        ≡ map (source_value key.now row.now) sources.now) }
{
    let key = key.as_slice();
    let row = row.as_slice();
    let mut values = Vec::with_capacity(alloc, sources.len())?;
    for source in sources {
        values.push(copied(alloc, source, key, row)?)?;
    }
    Ok(Frozen::from_vec(values))
}

/// The values from these sources of each row of a range that a WHERE keeps, in key order. It takes
/// memory for what it tells.
pub fn values_kept<R: RowSource>(
    rows: &mut R,
    alloc: Global,
    range: &Range,
    filter: &Option<Filter>,
    sources: &[Source],
) -> Result<ValueRows, Trouble>
    ensures state { R.state rows.new ≡ R.state rows.old }
    ensures counts { NoneFell (R.faults rows.old) (R.faults rows.new) }
    ensures told { IfOk result (λ told. told
        ≡ map (λ e. map (source_value e.0.key e.1) sources.now)
        (rows_left range.now filter.now None (R.state rows.old))) }
    ensures cause { IfErr result (IsCaused (R.faults rows.old) (R.faults rows.new)) }
{
    let mut told = Vec::new(alloc);
    let mut last: Option<R::Shown> = None;
    while let Some(row) = next_kept(rows, alloc, range, filter, key_shown(&last))? {
        told.push(values_of(alloc, sources, row.key(), row.row())?)?;
        last = Some(row);
    }
    Ok(Frozen::from_vec(told))
}

/// One more than a count. At the greatest number of 64 bits memory is wanting, since none holds as
/// many rows.
fn one_more(count: i64) -> Result<i64, AllocError>
    ensures { IfOk result (λ more. more ≡ count +ℤ pos 1) }
{
    if count == i64::MAX {
        return Err(AllocError);
    }
    Ok(count + 1)
}

/// How many rows of a range a WHERE keeps, as a value. Counted are 2^63 - 1 at most: no memory holds
/// more, so behind them it is wanting.
pub fn count_kept<R: RowSource>(
    rows: &mut R,
    alloc: Global,
    range: &Range,
    filter: &Option<Filter>,
) -> Result<Value, Trouble>
    ensures state { R.state rows.new ≡ R.state rows.old }
    ensures counts { NoneFell (R.faults rows.old) (R.faults rows.new) }
    ensures count { IfOk result (λ value. value
        ≡ Value.Int (pos (length (rows_left range.now filter.now None (R.state rows.old))))) }
    ensures cause { IfErr result (IsCaused (R.faults rows.old) (R.faults rows.new)) }
{
    let mut count = 0i64;
    let mut last: Option<R::Shown> = None;
    while let Some(row) = next_kept(rows, alloc, range, filter, key_shown(&last))? {
        count = one_more(count)?;
        last = Some(row);
    }
    Ok(Value::Int(count))
}

/// The sum of the values from a source, of the rows of a range that a WHERE keeps: Null where each
/// is Null or there is none; None where it lies outside the numbers of 64 bits.
pub fn sum_kept<R: RowSource>(
    rows: &mut R,
    alloc: Global,
    range: &Range,
    filter: &Option<Filter>,
    source: &Source,
) -> Result<Option<Value>, Trouble>
    ensures state { R.state rows.new ≡ R.state rows.old }
    ensures counts { NoneFell (R.faults rows.old) (R.faults rows.new) }
    ensures sum { IfOk result (λ sum. sum
        ≡ total_of (map (λ e. source_value e.0.key e.1 source.now)
        (rows_left range.now filter.now None (R.state rows.old)))) }
    ensures cause { IfErr result (IsCaused (R.faults rows.old) (R.faults rows.new)) }
{
    let mut total = Total::none();
    let mut last: Option<R::Shown> = None;
    while let Some(row) = next_kept(rows, alloc, range, filter, key_shown(&last))? {
        total = total.with(source.value(row.key().as_slice(), row.row().as_slice()))?;
        last = Some(row);
    }
    Ok(total.into_value())
}
