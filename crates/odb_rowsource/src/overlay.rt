//! Rows with a transaction's intentions laid over them.
ghost use Rattle.std.specs.Prelude.{◌≡◌, IfOk, IfErr, option_map};
ghost use Rattle.std.specs.Option.{option_copied};
ghost use Rattle.odb_rowsource.specs.RowSource.{next_in, NoneFell, HasCause};
ghost use Rattle.odb_rowsource.specs.Intentions.{laid_over};
ghost use Rattle.odb_rowsource.specs.Overlay.{intended_row, first_of, overlaid};

use crate::{Intentions, LentRow, RowError, RowSource, ShownRow};
use odb_model::Intention;
use odb_values::{Duplicate, Key, Range, Row, cmp_key};
use std::alloc::{AllocError, Global};
use std::cmp::Ordering;

/// What a transaction sees: the rows of a source with its own intentions laid over them.
///
/// A row costs a look-up in the intentions, and one in the source where the transaction hasn't
/// written it. `show` costs a search in the intentions and a call of the source for the row that it
/// shows, and as much again for each row between that the transaction has deleted; it copies none.
#[derive(Drop)]
pub struct Overlay<'a, R> {
    /// The rows that are there without the transaction.
    pub base: R,
    /// What the transaction intends.
    pub own: &'a Intentions,
}

/// A row that an overlay shows.
#[derive(Drop)]
pub enum OverlaidRow<'a, T> {
    /// One of the source below.
    Base(T),
    /// One that the transaction intends.
    Own(LentRow<'a>),
}

impl<'a, T: ShownRow> ShownRow for OverlaidRow<'a, T> {
    ghost keyed = { overlaid T.keyed };

    fn key(&self) -> &Key {
        match self {
            OverlaidRow::Base(row) => row.key(),
            OverlaidRow::Own(row) => row.key,
        }
    }

    fn row(&self) -> &Row {
        match self {
            OverlaidRow::Base(row) => row.row(),
            OverlaidRow::Own(row) => row.row,
        }
    }
}

impl<'a, R: RowSource> RowSource for Overlay<'a, R> {
    ghost state = { λ overlay. laid_over (R.state overlay.base) overlay.own.now.items };

    ghost faults = { λ overlay. R.faults overlay.base };

    fn get(&mut self, alloc: Global, table: u32, key: &Key) -> Result<Option<Row>, RowError> {
        let own = self.own;
        match own.get(table, key) {
            Some(intention) => Ok(row_of(alloc, intention)?),
            None => self.base.get(alloc, table, key),
        }
    }

    type Shown = OverlaidRow<'a, R::Shown>;

    fn show(
        &mut self,
        alloc: Global,
        range: &Range,
        after: Option<&Key>,
    ) -> Result<Option<OverlaidRow<'a, R::Shown>>, RowError> {
        show_over(&mut self.base, alloc, self.own, range, after)
    }
}

/// A copy of the row that is intended, or None where it is deleted. The error is want of memory.
fn row_of(alloc: Global, intention: &Intention) -> Result<Option<Row>, AllocError>
    ensures { IfOk result (λ row. row ≡ intention.now.row) }
{
    match &intention.row {
        None => Ok(None),
        Some(row) => Ok(Some(row.copy(alloc)?)),
    }
}

/// The row with the least key of a range that is above `after`, of a source with intentions laid
/// over it.
fn show_over<'a, R: RowSource>(
    base: &mut R,
    alloc: Global,
    own: &'a Intentions,
    range: &Range,
    after: Option<&Key>,
) -> Result<Option<OverlaidRow<'a, R::Shown>>, RowError>
    ensures state { R.state base.new ≡ R.state base.old }
    ensures counts { NoneFell (R.faults base.old) (R.faults base.new) }
    ensures row { IfOk result (λ shown. option_map (overlaid R.Shown.keyed) shown
        ≡ next_in range.now (option_copied after.entry)
        (laid_over (R.state base.old) own.now.items)) }
    ensures cause { IfErr result (HasCause (R.faults base.old) (R.faults base.new)) }
{
    let mut last = after;
    while let Some(intention) = own.next(range, last) {
        let found = base.show(alloc, range, last)?;
        match first_of(found, intention) {
            Some(row) => return Ok(Some(row)),
            None => last = Some(&intention.table_key.key),
        }
    }
    Ok(of_base(base.show(alloc, range, last)?))
}

/// What a source shows, as a row of one with intentions laid over it.
fn of_base<'a, T: ShownRow>(found: Option<T>) -> Option<OverlaidRow<'a, T>>
    ensures { option_map (overlaid T.keyed) result ≡ option_map T.keyed found }
{
    match found {
        Some(row) => Some(OverlaidRow::Base(row)),
        None => None,
    }
}

/// Of the next row of a source and the next intention the one with the lesser key, which is the
/// intention's where both are for one key; None where that intention deletes.
fn first_of<'a, T: ShownRow + Drop>(
    found: Option<T>,
    intention: &'a Intention,
) -> Option<OverlaidRow<'a, T>>
    ensures { option_map (overlaid T.keyed) result
        ≡ first_of (option_map T.keyed found) intention.now }
{
    match found {
        Some(row) => {
            if cmp_key(row.key(), &intention.table_key.key) == Ordering::Less {
                return Some(OverlaidRow::Base(row));
            }
            intended_row(intention)
        }
        None => intended_row(intention),
    }
}

/// The row that is intended with its key, or None where it is deleted.
fn intended_row<'a, T: ShownRow>(intention: &'a Intention) -> Option<OverlaidRow<'a, T>>
    ensures { option_map (overlaid T.keyed) result ≡ intended_row intention.now }
{
    match &intention.row {
        None => None,
        Some(row) => Some(OverlaidRow::Own(LentRow {
            key: &intention.table_key.key,
            row,
        })),
    }
}
