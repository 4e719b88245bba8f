//! The rows of a table as a source.
ghost use Rattle.std.specs.Prelude.{◌≡◌, option_map};
ghost use Rattle.odb_keytable.specs.Table.{lent_row};

use crate::KeyTable;
use crate::copying::compact_row;
use crate::place::{Place, go_on, step};
use odb_rowsource::{LentRow, RowError, RowSource};
use odb_values::{Key, Range, Row};
use std::alloc::Global;
use std::marker::Model;

/// The rows of a table, lent as a source, and the place of the row that was given last. Contracts
/// see the table.
///
/// It reads no file. `get` costs a search, and memory for a key and for the row. `show` costs a
/// search, and memory for a key, but where it is asked for the row behind the one that it showed
/// last: then it goes on from that place, without a search, and takes no memory.
#[derive(Drop)]
pub struct Rows<'a> {
    table: &'a KeyTable,
    place: Option<Place<'a>>,
}

impl<'a> Model for Rows<'a> {
    ghost use Rattle.std.specs.Prelude.{IfSome};
    ghost use Rattle.odb_keytable.specs.Rows.{Seen, seen_code};
    ghost use Rattle.odb_keytable.specs.Place.{IsPlace};

    ghost Value = { Seen };

    ghost coded = { seen_code };

    ghost view = { λ a. record { table = record { now = a.table.now } } };

    ghost invariant = { λ a.
        IfSome a.place (λ p. IsPlace a.table.now p.table p.key.now p.rest) };
}

impl<'a> Rows<'a> {
    /// The rows of a table, before the first of them. It takes no memory.
    pub fn new(table: &'a KeyTable) -> Rows<'a>
        ensures { result.table.now ≡ table.now }
    {
        Rows { table, place: None }
    }
}

impl<'a> RowSource for Rows<'a> {
    ghost use Rattle.std.specs.Prelude.{ℕ};

    ghost state = { λ rows. rows.table.now };

    ghost faults = { λ _ _. 0 };

    fn get(&mut self, alloc: Global, table: u32, key: &Key) -> Result<Option<Row>, RowError> {
        match self.table.row(alloc, table, key)? {
            None => Ok(None),
            Some(row) => Ok(Some(compact_row(alloc, row)?)),
        }
    }

    type Shown = LentRow<'a>;

    fn show(
        &mut self,
        alloc: Global,
        range: &Range,
        after: Option<&Key>,
    ) -> Result<Option<LentRow<'a>>, RowError> {
        if let Some(found) = go_on(&mut self.place, range, after) {
            return Ok(lent(found));
        }
        let rest = self.table.rows_from(alloc, range, after)?;
        let (found, place) = step(rest, range);
        self.place = place;
        Ok(lent(found))
    }
}

/// A row that is there, as one that is lent.
fn lent<'a>(found: Option<(&'a Key, &'a Row)>) -> Option<LentRow<'a>>
    ensures { option_map (λ r. record { key = r.key.now; row = r.row.now }) result
        ≡ option_map lent_row found.entry }
{
    match found {
        None => None,
        Some((key, row)) => Some(LentRow { key, row }),
    }
}
