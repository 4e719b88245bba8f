//! Places of columns in a table, in its key and in its rows.
ghost use Rattle.std.specs.Prelude.{◌≡◌, ◌<◌, ◌≤◌, ◌+◌, ◌^◌, length, filter, is_none, IfSome};
ghost use Rattle.std.specs.List.{range_with_len};
ghost use Rattle.odb_model.specs.Table.{column_place, place_in};

use crate::ColumnDef;
use odb_values::Text;

/// The place of the first column of this name, from 0.
pub fn column_place(columns: &[ColumnDef], name: &Text) -> Option<u32>
    requires { length columns.now < 2 ^ 32 }
    ensures place { result ≡ column_place columns.now name.now }
    ensures within { IfSome result (λ place. place < length columns.now) }
{
    match columns {
        [] => None,
        [first, rest @ ..] => {
            if first.is_named(name) {
                return Some(0);
            }
            let place = column_place(rest, name)?;
            Some(place + 1)
        }
    }
}

/// The place of the first of these numbers that is `number`, from 0.
pub fn place_in(numbers: &[u32], number: u32) -> Option<usize>
    ensures place { result ≡ place_in numbers.now number }
    ensures within { IfSome result (λ place. place < length numbers.now) }
{
    match numbers {
        [] => None,
        [first, rest @ ..] => {
            if *first == number {
                return Some(0);
            }
            let place = place_in(rest, number)?;
            Some(place + 1)
        }
    }
}

/// The place of the column `place` among those of these columns that aren't in the key, where the
/// first of these columns stands at `from` in the table.
pub fn place_outside(columns: &[ColumnDef], key: &[u32], from: u32, place: u32) -> Option<usize>
    requires { from + length columns.now < 2 ^ 32 }
    ensures place { result ≡ place_in (filter (λ other. is_none (place_in key.now other))
        (range_with_len from (length columns.now))) place }
    ensures within { IfSome result (λ at. at < length columns.now) }
{
    match columns {
        [] => None,
        [_, rest @ ..] => {
            if place_in(key, from).is_some() {
                return place_outside(rest, key, from + 1, place);
            }
            if from == place {
                return Some(0);
            }
            let at = place_outside(rest, key, from + 1, place)?;
            Some(at + 1)
        }
    }
}
