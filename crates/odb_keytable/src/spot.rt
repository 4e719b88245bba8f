//! Spots in the order of keys.
ghost use Rattle.std.specs.Prelude.{◌≡◌};
ghost use Rattle.odb_keytable.specs.Spot.{table_of, values_of, is_past, marked_cmp, spot_cmp};

use odb_values::{Key, Value, Values, cmp_value};
use std::cmp::Ordering;

/// A row's place, or an end of the keys that start with some values. A table is keyed by spots, so
/// that a search may begin between two keys.
#[derive(Debug, Drop)]
pub(crate) enum Spot {
    /// The place of the row with this table and key.
    At(u32, Key),
    /// Where the keys of a table begin that start with these values.
    Start(u32, Values),
    /// Behind all keys of a table that start with these values.
    Past(u32, Values),
}

impl Spot {
    fn table(&self) -> u32
        ensures { result ≡ table_of self.now }
    {
        match self {
            Spot::At(table, _) => *table,
            Spot::Start(table, _) => *table,
            Spot::Past(table, _) => *table,
        }
    }

    fn values(&self) -> &[Value]
        ensures { result.now ≡ values_of self.now }
    {
        match self {
            Spot::At(_, key) => key.as_slice(),
            Spot::Start(_, values) => values.as_slice(),
            Spot::Past(_, values) => values.as_slice(),
        }
    }

    fn is_past(&self) -> bool
        ensures { result ≡ is_past self.now }
    {
        match self {
            Spot::At(_, _) => false,
            Spot::Start(_, _) => false,
            Spot::Past(_, _) => true,
        }
    }
}

/// How two spots stand: by table, then value by value.
fn cmp_spots(a: &Spot, b: &Spot) -> Ordering
    ensures { result ≡ spot_cmp a.now b.now }
{
    match a.table().cmp(&b.table()) {
        Ordering::Equal => cmp_marked(a.is_past(), b.is_past(), a.values(), b.values()),
        other => other,
    }
}

/// How two lists of values stand, where each may be past its values.
fn cmp_marked(past_a: bool, past_b: bool, a: &[Value], b: &[Value]) -> Ordering
    ensures { result ≡ marked_cmp past_a past_b a.now b.now }
{
    match a {
        [] => match b {
            [] => past_a.cmp(&past_b),
            [_, ..] => {
                if past_a {
                    Ordering::Greater
                } else {
                    Ordering::Less
                }
            }
        },
        [x, xs @ ..] => match b {
            [] => {
                if past_b {
                    Ordering::Less
                } else {
                    Ordering::Greater
                }
            }
            [y, ys @ ..] => match cmp_value(x, y) {
                Ordering::Equal => cmp_marked(past_a, past_b, xs, ys),
                other => other,
            },
        },
    }
}

impl PartialEq for Spot {
    ghost use Rattle.std.specs.Ordering.{eq_by_cmp};
    ghost use Rattle.std.specs.Cmp.{eq_by_cmp_equiv, partial_equiv_from_equiv};
    ghost use Rattle.odb_keytable.specs.Spot.{spot_cmp};
    ghost use Rattle.odb_keytable.specs.SpotOrder.{spot_cmp_total};

    ghost eq = { eq_by_cmp spot_cmp };

    ghost laws = { partial_equiv_from_equiv (eq_by_cmp_equiv spot_cmp_total) };

    fn eq(&self, other: &Spot) -> bool {
        cmp_spots(self, other) == Ordering::Equal
    }
}

impl Eq for Spot {
    ghost use Rattle.std.specs.Cmp.{eq_by_cmp_equiv};
    ghost use Rattle.odb_keytable.specs.SpotOrder.{spot_cmp_total};

    ghost laws = { eq_by_cmp_equiv spot_cmp_total };
}

impl PartialOrd for Spot {
    ghost use Rattle.std.specs.Prelude.{Some, refl};
    ghost use Rattle.std.specs.Cmp.{po};
    ghost use Rattle.odb_keytable.specs.Spot.{spot_cmp};
    ghost use Rattle.odb_keytable.specs.SpotOrder.{spot_cmp_total};

    ghost partial_cmp = { λ a b. Some (spot_cmp a b) };

    ghost laws = { po spot_cmp_total (λ _ _. refl) };

    fn partial_cmp(&self, other: &Spot) -> Option<Ordering> {
        Some(cmp_spots(self, other))
    }
}

impl Ord for Spot {
    ghost use Rattle.std.specs.Prelude.{refl};
    ghost use Rattle.odb_keytable.specs.Spot.{spot_cmp};
    ghost use Rattle.odb_keytable.specs.SpotOrder.{spot_cmp_total};

    ghost cmp = { spot_cmp };

    ghost total = { spot_cmp_total };

    ghost matches_partial_cmp = { λ _ _. refl };

    ghost matches_eq = { λ _ _. refl };

    fn cmp(&self, other: &Spot) -> Ordering {
        cmp_spots(self, other)
    }
}
