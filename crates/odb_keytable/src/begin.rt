//! Where the search for the next key of a range begins.
ghost use Rattle.std.specs.Prelude.{◌≡◌, [], ◌∷◌, ◌++◌, IfOk};
ghost use Rattle.std.specs.Option.{option_copied};
ghost use Rattle.odb_rowsource.specs.Stand.{is_free};
ghost use Rattle.odb_keytable.specs.Begin.{begin_of, begin_from};

use crate::spot::Spot;
use odb_rowsource::stand;
use odb_values::{Duplicate, Edge, Frozen, Key, Range, Value, Values};
use std::alloc::{AllocError, Global};
use std::cmp::Ordering;
use std::ops::Bound;

/// The bound below the keys of a range that are above `after`. It takes memory for one key, whose
/// want is the error.
pub(crate) fn begin_from(
    alloc: Global,
    range: &Range,
    after: Option<&Key>,
) -> Result<Bound<Spot>, AllocError>
    ensures { IfOk result (λ bound. bound ≡ begin_from range.now (option_copied after.entry)) }
{
    match after {
        None => begin_of(alloc, range),
        Some(last) => {
            if stand(range, range.table, last) == Ordering::Less {
                begin_of(alloc, range)
            } else {
                Ok(Bound::Excluded(Spot::At(range.table, last.copy(alloc)?)))
            }
        }
    }
}

/// The bound below all keys of a range.
fn begin_of(alloc: Global, range: &Range) -> Result<Bound<Spot>, AllocError>
    ensures { IfOk result (λ bound. bound ≡ begin_of range.now) }
{
    match &range.low {
        Edge::Free => {
            let start = Spot::Start(range.table, range.prefix.copy(alloc)?);
            if is_free(&range.high) {
                Ok(Bound::Included(start))
            } else {
                Ok(Bound::Excluded(start))
            }
        }
        Edge::Closed(value) => {
            let values = with_last(alloc, &range.prefix, value)?;
            Ok(Bound::Included(Spot::Start(range.table, values)))
        }
        Edge::Beyond(value) => {
            let values = with_last(alloc, &range.prefix, value)?;
            Ok(Bound::Included(Spot::Past(range.table, values)))
        }
    }
}

fn is_free(edge: &Edge) -> bool
    ensures { result ≡ is_free edge.now }
{
    match edge {
        Edge::Free => true,
        Edge::Closed(_) => false,
        Edge::Beyond(_) => false,
    }
}

/// Copies of some values and of one behind them.
fn with_last(alloc: Global, values: &Values, last: &Value) -> Result<Values, AllocError>
    ensures { IfOk result (λ all. all ≡ values.now ++ last.now ∷ []) }
{
    let mut all = values.copy(alloc)?.into_vec();
    all.push(last.copy(alloc)?)?;
    Ok(Frozen::from_vec(all))
}
