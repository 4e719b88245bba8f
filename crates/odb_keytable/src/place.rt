//! Where a walk over rows stands.
ghost use Rattle.std.specs.Prelude.{◌≡◌, ℕ, List, Option, Some, None, IfSome, option_map};
ghost use Rattle.std.specs.Option.{option_copied};
ghost use Rattle.odb_values.specs.declared.value.Value.{Value as Cell};
ghost use Rattle.odb_model.specs.State.{State};
ghost use Rattle.odb_rowsource.specs.RowSource.{next_in};
ghost use Rattle.odb_keytable.specs.declared.spot.Spot.TheVariants.{At};
ghost use Rattle.odb_keytable.specs.Table.{lent_row};
ghost use Rattle.odb_keytable.specs.Place.{IsPlace, IsLeft, goes_on};

use crate::map::where_inside;
use crate::spot::Spot;
use odb_rowsource::{cmp_table_keys, stand};
use odb_values::{Key, Range, Row};
use std::cmp::Ordering;
use std::collections::btree_map::Range as Entries;

/// The place of a row among all rows of a table: its table key, and the entries behind it.
#[derive(Drop)]
pub(crate) struct Place<'a> {
    pub(crate) table: u32,
    pub(crate) key: &'a Key,
    pub(crate) rest: Entries<'a, Spot, Row>,
}

impl<'a> Place<'a> {
    /// Goes to the entry behind, where there is one, and tells its row, where it is inside a range.
    fn advance(&mut self, range: &Range) -> Option<(&'a Key, &'a Row)>
        ensures found { (s : State) (after : Option (List Cell))
            → IsLeft range.now after s self.old.rest
            → option_map lent_row result ≡ next_in range.now after s }
        ensures place { (s : State) (after : Option (List Cell))
            → IsPlace s self.old.table self.old.key.now self.old.rest
            → IsLeft range.now after s self.old.rest
            → IsPlace s self.new.table self.new.key.now self.new.rest }
    {
        let first = self.rest.next();
        self.stand_at(first);
        where_inside(first, range)
    }

    /// Takes the place of an entry for its own, where it is a row's.
    fn stand_at(&mut self, first: Option<(&'a Spot, &'a Row)>)
        ensures none { first.entry ≡ None → self.new ≡ self.old }
        ensures at { (table : ℕ) (key : List Cell)
            → option_map (λ e. e.0.now) first.entry ≡ Some (At table key)
            → (self.new.table ≡ table) × (self.new.key.now ≡ key) }
        ensures rest { self.new.rest ≡ self.old.rest }
    {
        match first {
            None => {}
            Some((spot, _)) => match spot {
                Spot::At(table, key) => {
                    self.table = *table;
                    self.key = key;
                }
                Spot::Start(_, _) => {}
                Spot::Past(_, _) => {}
            },
        }
    }
}

/// Whether the next row of a range above `after` is the first one behind the row with this table
/// and key, or there is none: it is that row's key, and not before the range.
pub(crate) fn goes_on(table: u32, key: &Key, range: &Range, after: Option<&Key>) -> bool
    ensures { result ≡ goes_on table key.now range.now (option_copied after.entry) }
{
    match after {
        None => false,
        Some(last) => {
            cmp_table_keys(range.table, last, table, key) == Ordering::Equal
                && stand(range, range.table, last) != Ordering::Less
        }
    }
}

/// Goes on to the next row of a range above `after`, where that is the key of the row at a place, and
/// not before the range: tells the row, or that there is none. Else it is None, and the place stays.
/// It takes no memory, and no search.
pub(crate) fn go_on<'a>(
    place: &mut Option<Place<'a>>,
    range: &Range,
    after: Option<&Key>,
) -> Option<Option<(&'a Key, &'a Row)>>
    ensures found { (s : State) → IfSome place.old (λ p. IsPlace s p.table p.key.now p.rest)
        → IfSome result (λ found. option_map lent_row found
        ≡ next_in range.now (option_copied after.entry) s) }
    ensures place { (s : State) → IfSome place.old (λ p. IsPlace s p.table p.key.now p.rest)
        → IfSome place.new (λ p. IsPlace s p.table p.key.now p.rest) }
{
    match place {
        None => None,
        Some(place) => {
            if goes_on(place.table, place.key, range, after) {
                Some(place.advance(range))
            } else {
                None
            }
        }
    }
}

/// The first of the rows that are left of a range, where it is inside, and its place. It takes no
/// memory.
pub(crate) fn step<'a>(
    mut rest: Entries<'a, Spot, Row>,
    range: &Range,
) -> (Option<(&'a Key, &'a Row)>, Option<Place<'a>>)
    ensures found { (s : State) (after : Option (List Cell))
        → IsLeft range.now after s rest.entry
        → option_map lent_row result.0 ≡ next_in range.now after s }
    ensures place { (s : State) (after : Option (List Cell))
        → IsLeft range.now after s rest.entry
        → IfSome result.1 (λ p. IsPlace s p.table p.key.now p.rest) }
{
    let first = rest.next();
    (where_inside(first, range), placed(first, rest))
}

/// The place of an entry, with those behind it.
fn placed<'a>(first: Option<(&'a Spot, &'a Row)>, rest: Entries<'a, Spot, Row>) -> Option<Place<'a>>
    ensures at { IfSome result (λ p. option_map (λ e. e.0.now) first.entry
        ≡ Some (At p.table p.key.now)) }
    ensures rest { IfSome result (λ p. p.rest ≡ rest.entry) }
{
    match first {
        None => None,
        Some((spot, _)) => match spot {
            Spot::At(table, key) => Some(Place {
                table: *table,
                key,
                rest,
            }),
            Spot::Start(_, _) => None,
            Spot::Past(_, _) => None,
        },
    }
}
