//! Rows.
ghost use Rattle.std.specs.Prelude.{◌≡◌};

use crate::same::same_items;
use crate::{Duplicate, Same, Value, Values};
use std::alloc::{AllocError, Global};
use std::marker::Model;

/// The values of a row outside its key, in column order; there may be none. Contracts see it as
/// the list of its values.
#[derive(Clone, Debug, Drop)]
pub struct Row {
    values: Values,
}

impl Model for Row {
    ghost use Rattle.std.specs.Prelude.{List};
    ghost use Rattle.odb_values.specs.declared.value.Value.{Value as Cell};

    ghost Value = { List Cell };

    ghost view = { λ a. a.values };
}

impl Row {
    /// The row of these values.
    pub fn new(values: Values) -> Row
        ensures { result ≡ values }
    {
        Row { values }
    }

    /// The values in column order.
    pub fn as_slice(&self) -> &[Value]
        ensures { result.now ≡ self.now }
    {
        self.values.as_slice()
    }

    /// The values in column order, as a list of their own.
    pub fn into_values(self) -> Values
        ensures { result ≡ self }
    {
        let Row { values } = self;
        values
    }
}

impl Duplicate for Row {
    fn copy(&self, alloc: Global) -> Result<Row, AllocError> {
        Ok(Row {
            values: self.values.copy(alloc)?,
        })
    }
}

impl Same for Row {
    fn same(&self, other: &Row) -> bool {
        same_items(self.as_slice(), other.as_slice())
    }
}
