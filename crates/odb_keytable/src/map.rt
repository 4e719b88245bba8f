//! Rows in a map of spots.
ghost use Rattle.std.specs.Prelude.{◌≡◌, Some, None, IsTrue, OnOk, OnErr, IfErr, option_map};
ghost use Rattle.std.specs.BTreeMap.{IsOrdered};
ghost use Rattle.std.specs.BTreeMap.Range.{entries_between};
ghost use Rattle.std.specs.declared.ops.Bound.TheVariants.{Unbounded};
ghost use Rattle.odb_model.specs.State.{changed};
ghost use Rattle.odb_rowsource.specs.RowSource.{keyed_row};
ghost use Rattle.odb_keytable.specs.Spot.{is_row, table_key_at, table_of, values_of, spot_cmp};
ghost use Rattle.odb_keytable.specs.Table.{AreRows, state_of, row_entry, is_inside_row, where_passes, lent_entry, lent_row};

use crate::spot::Spot;
use odb_model::Write;
use odb_values::{Key, Range, Row};
use std::alloc::AllocFailed;
use std::collections::BTreeMap;
use std::collections::btree_map::Range as Entries;
use std::ops::Bound;

/// Puts a row at its place. Where memory is missing both come back.
pub(crate) fn insert_row(
    rows: &mut BTreeMap<Spot, Row>,
    spot: Spot,
    row: Row,
) -> Result<(), AllocFailed<(Spot, Row)>>
    requires place { IsTrue (is_row spot) }
    requires rows { AreRows rows.old.entries }
    ensures ok { OnOk result (state_of rows.new.entries
        ≡ changed (state_of rows.old.entries) (table_key_at spot) (Some row)) }
    ensures err { OnErr result (rows.new.entries ≡ rows.old.entries) }
    ensures back { IfErr result (λ failed. failed.value ≡ (spot, row)) }
    ensures rows { AreRows rows.new.entries }
{
    match rows.insert(spot, row) {
        Ok(_replaced) => Ok(()),
        Err(failed) => Err(failed),
    }
}

/// The write of a row at its place, in this databank.
pub(crate) fn write_of(bank: u32, spot: Spot, row: Row) -> Write
    requires { IsTrue (is_row spot) }
    ensures { result ≡ record {
      bank = bank;
      table = table_of spot;
      key = values_of spot;
      row = Some row;
    } }
{
    match spot {
        Spot::At(table, key) => Write {
            bank,
            table,
            key,
            row: Some(row),
        },
        Spot::Start(_, _) | Spot::Past(_, _) => unreachable!(),
    }
}

/// Takes the row at a place away.
pub(crate) fn remove_row(rows: &mut BTreeMap<Spot, Row>, spot: &Spot)
    requires place { IsTrue (is_row spot.now) }
    requires rows { AreRows rows.old.entries }
    ensures removed { state_of rows.new.entries
        ≡ changed (state_of rows.old.entries) (table_key_at spot.now) None }
    ensures rows { AreRows rows.new.entries }
{
    rows.remove(spot);
}

/// The entries from a bound on, in their order. It takes the time of a search, and each of them is
/// then reached from the one before.
pub(crate) fn entries_behind(
    rows: &BTreeMap<Spot, Row>,
    begin: Bound<Spot>,
) -> Entries<'_, Spot, Row>
    ensures entries { result
        ≡ entries_between spot_cmp begin Unbounded rows.now.entries }
    ensures ordered { IsOrdered spot_cmp rows.now }
{
    rows.range((begin, Bound::Unbounded))
}

/// The key and the row of an entry, where it is a row of a range.
pub(crate) fn where_inside<'a>(
    first: Option<(&'a Spot, &'a Row)>,
    range: &Range,
) -> Option<(&'a Key, &'a Row)>
    ensures { option_map lent_row result
        ≡ option_map keyed_row (option_map row_entry
        (where_passes (is_inside_row range.now) (option_map lent_entry first.entry))) }
{
    match first {
        None => None,
        Some((spot, row)) => row_inside(spot, row, range),
    }
}

/// The key and the row of an entry, where it is a row of a range.
fn row_inside<'a>(spot: &'a Spot, row: &'a Row, range: &Range) -> Option<(&'a Key, &'a Row)>
    ensures { option_map lent_row result
        ≡ option_map keyed_row (option_map row_entry
        (where_passes (is_inside_row range.now) (Some (spot.now, row.now)))) }
{
    match spot {
        Spot::At(table, key) => {
            if range.contains(*table, key) {
                Some((key, row))
            } else {
                None
            }
        }
        Spot::Start(_, _) => None,
        Spot::Past(_, _) => None,
    }
}
