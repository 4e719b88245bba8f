//! Rows wherever they lie.
ghost use Rattle.std.specs.Prelude.{◌≡◌};
ghost use Rattle.odb_rowsource.specs.declared.row_source.KeyedRow.{KeyedRow as Keyed};

use crate::KeyedRow;
use odb_values::{Key, Row};

/// A row with its key, wherever they lie.
pub trait ShownRow {
    /// The row with its key.
    ghost keyed: { Self → Keyed };

    /// The primary key of the row.
    fn key(&self) -> &Key
        ensures { result.now ≡ (keyed self.now).key };

    /// The values outside the key.
    fn row(&self) -> &Row
        ensures { result.now ≡ (keyed self.now).row };
}

impl ShownRow for KeyedRow {
    ghost keyed = { λ r. r };

    fn key(&self) -> &Key {
        &self.key
    }

    fn row(&self) -> &Row {
        &self.row
    }
}

/// A row that is lent from where it lies.
#[derive(Clone, Copy, Debug)]
pub struct LentRow<'a> {
    /// The primary key of the row.
    pub key: &'a Key,
    /// The values outside the key.
    pub row: &'a Row,
}

impl<'a> ShownRow for LentRow<'a> {
    ghost keyed = { λ r. record { key = r.key.now; row = r.row.now } };

    fn key(&self) -> &Key {
        self.key
    }

    fn row(&self) -> &Row {
        self.row
    }
}
