//! Columns.
ghost use Rattle.std.specs.Prelude.{◌≡◌, ◌==◌};
ghost use Rattle.odb_model.specs.Table.{is_named};

use crate::name::is_named;
use odb_values::{Frozen, Text};
use std::marker::Model;

/// A column of a table. Contracts see it as the definitions' [`Column`].
#[derive(Debug, Drop)]
pub struct ColumnDef {
    name: Text,
    kind: u32,
    not_null: bool,
}

/// The columns of a table, in their order.
pub type ColumnDefs = Frozen<ColumnDef>;

impl Model for ColumnDef {
    ghost use Rattle.odb_model.specs.Table.{Column};

    ghost Value = { Column };

    ghost view = { λ a. record { name = a.name; kind = a.kind; not_null = a.not_null } };
}

impl ColumnDef {
    /// A column of this name, which is in capitals. The kind is 0 for INTEGER, n for VARCHAR(n).
    /// `not_null` tells whether NOT NULL is said of it, or it is in the primary key.
    pub fn new(name: Text, kind: u32, not_null: bool) -> ColumnDef
        ensures { result ≡ record { name = name; kind = kind; not_null = not_null } }
    {
        ColumnDef {
            name,
            kind,
            not_null,
        }
    }

    /// The name, in capitals.
    pub fn name(&self) -> &Text
        ensures { result.now ≡ self.now.name }
    {
        &self.name
    }

    /// The kind: 0 for INTEGER, n for VARCHAR(n), where n is the most characters of a value.
    pub fn kind(&self) -> u32
        ensures { result ≡ self.now.kind }
    {
        self.kind
    }

    /// Whether it holds numbers: INTEGER. Else it holds texts.
    pub fn is_number(&self) -> bool
        ensures { result ≡ (self.now.kind == 0) }
    {
        self.kind == 0
    }

    /// Whether NOT NULL is said of it, or it is in the primary key.
    pub fn not_null(&self) -> bool
        ensures { result ≡ self.now.not_null }
    {
        self.not_null
    }

    /// Whether this is its name, byte by byte.
    pub fn is_named(&self, name: &Text) -> bool
        ensures { result ≡ is_named name.now self.now.name }
    {
        is_named(name, &self.name)
    }
}
