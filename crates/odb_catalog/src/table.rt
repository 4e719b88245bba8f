//! Tables.
ghost use Rattle.std.specs.Prelude.{◌≡◌, ◌<◌, length, IfOk, IfSome, slice_get};
ghost use Rattle.std.specs.Option.{option_copied};
ghost use Rattle.odb_model.specs.Table.{IsTable, kv, column_place, place_in, places_outside};

use crate::place::{column_place, place_in, place_outside};
use crate::{ColumnDef, ColumnDefs};
use odb_values::{Frozen, Text};
use std::alloc::{AllocError, Global};
use std::marker::Model;

/// Places of columns in a table, from 0.
pub type Places = Frozen<u32>;

/// A table of the dictionary: at most 15 columns, and 1 to 15 of them in the primary key, none
/// twice. Contracts see it as the definitions' `Table`.
#[derive(Debug, Drop)]
pub struct TableDef {
    number: u32,
    bank: u32,
    columns: ColumnDefs,
    key: Places,
}

impl Model for TableDef {
    ghost use Rattle.odb_model.specs.Table.{Table, IsTable};

    ghost Value = { Table };

    ghost view = { λ a. record { number = a.number; bank = a.bank; columns = a.columns; key = a.key } };

    ghost invariant = { λ a. IsTable (record {
      number = a.number;
      bank = a.bank;
      columns = a.columns;
      key = a.key;
    }) };
}

impl TableDef {
    /// A table with this number in the databank of that one. `key` has the places of the primary
    /// key's columns, in key order.
    pub fn new(number: u32, bank: u32, columns: ColumnDefs, key: Places) -> TableDef
        requires { IsTable (record { number = number; bank = bank; columns = columns; key = key }) }
        ensures { result ≡ record { number = number; bank = bank; columns = columns; key = key } }
    {
        TableDef {
            number,
            bank,
            columns,
            key,
        }
    }

    /// The fixed table KV of the databank MAIN: K INTEGER, the key, and V INTEGER. The error is
    /// want of memory.
    pub fn kv(alloc: Global) -> Result<TableDef, AllocError>
        ensures { IfOk result (λ t. t ≡ kv) }
    {
        let key = Text::from_str(alloc, "K")?.unwrap();
        let value = Text::from_str(alloc, "V")?.unwrap();
        let columns = vec![in alloc;
            ColumnDef::new(key, 0, true),
            ColumnDef::new(value, 0, false),
        ]?;
        let places = vec![in alloc; 0]?;
        Ok(TableDef {
            number: 5,
            bank: 4,
            columns: Frozen::from_vec(columns),
            key: Frozen::from_vec(places),
        })
    }

    /// The table's number.
    pub fn number(&self) -> u32
        ensures { result ≡ self.now.number }
    {
        self.number
    }

    /// The number of the databank that has the table.
    pub fn bank(&self) -> u32
        ensures { result ≡ self.now.bank }
    {
        self.bank
    }

    /// The columns in their order, at most 15.
    pub fn columns(&self) -> &[ColumnDef]
        ensures columns { result.now ≡ self.now.columns }
        ensures table { IsTable self.now }
    {
        self.columns.as_slice()
    }

    /// The places of the primary key's columns, in key order.
    pub fn key(&self) -> &[u32]
        ensures key { result.now ≡ self.now.key }
        ensures table { IsTable self.now }
    {
        self.key.as_slice()
    }

    /// The place of the column of this name, from 0; None where there is no such column.
    pub fn column_place(&self, name: &Text) -> Option<u32>
        ensures place { result ≡ column_place self.now.columns name.now }
        ensures within { IfSome result (λ place. place < length self.now.columns) }
    {
        column_place(self.columns.as_slice(), name)
    }

    /// The place in a key of the column at a place in the table; None where it isn't in the key.
    pub fn place_in_key(&self, place: u32) -> Option<usize>
        ensures { result ≡ place_in self.now.key place }
    {
        place_in(self.key.as_slice(), place)
    }

    /// The place in a row of the column at a place in the table; None where it is in the key.
    pub fn place_in_row(&self, place: u32) -> Option<usize>
        ensures { result ≡ place_in (places_outside self.now) place }
    {
        place_outside(self.columns.as_slice(), self.key.as_slice(), 0, place)
    }
}
