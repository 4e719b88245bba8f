//! Rows in a map.
ghost use Rattle.std.specs.Prelude.{◌≡◌, is_some, OnOk, OnErr};
ghost use Rattle.std.specs.Option.{option_copied};
ghost use Rattle.std.specs.FinMap as map;
ghost use Rattle.odb_model.specs.State.{table_key_of, changed};

use odb_model::{TableKey, Write};
use odb_values::{Duplicate, Row};
use std::alloc::{AllocError, Global};
use std::collections::BTreeMap;
use std::collections::btree_map::Iter;
use std::marker::Model;

/// Rows by their table and key. Contracts see them as a state.
#[derive(Drop)]
pub struct Rows {
    rows: BTreeMap<TableKey, Row>,
}

impl Model for Rows {
    ghost use Rattle.std.specs.FinMap.{from_entries};
    ghost use Rattle.odb_model.specs.State.{State};
    ghost use Rattle.std.specs.Coded.{coded_list};
    ghost use Rattle.std.specs.FinMap.{code};
    ghost use Rattle.odb_values.specs.contracts.value.Value as cell;
    ghost use Rattle.odb_model.specs.contracts.table_key.TableKey as table_key;

    ghost Value = { State };

    ghost coded = { code table_key.the_row.coded (coded_list cell.the_row.coded) };

    ghost view = { λ a. from_entries a.rows.entries };
}

impl Rows {
    /// No row. It takes no memory, and keeps the allocator.
    pub fn new(alloc: Global) -> Rows
        ensures { result ≡ map.empty }
    {
        Rows {
            rows: BTreeMap::new(alloc),
        }
    }

    /// Puts a copy of the row of a write at its table key, or takes away the row there where the
    /// write deletes. The error is want of memory.
    pub fn put(&mut self, alloc: Global, write: &Write) -> Result<(), AllocError>
        ensures ok { OnOk result
            (self.new ≡ changed self.old (table_key_of write.now) write.now.row) }
        ensures err { OnErr result (self.new ≡ self.old) }
    {
        let at = TableKey::of(alloc, write)?;
        match &write.row {
            Some(row) => self.insert(at, row.copy(alloc)?)?,
            None => self.remove(&at),
        }
        Ok(())
    }

    fn insert(&mut self, at: TableKey, row: Row) -> Result<(), AllocError>
        ensures ok { OnOk result (self.new ≡ map.insert self.old at row) }
        ensures err { OnErr result (self.new ≡ self.old) }
    {
        let _replaced = self.rows.insert(at, row)?;
        Ok(())
    }

    fn remove(&mut self, at: &TableKey)
        ensures { self.new ≡ map.remove self.old at.now }
    {
        self.rows.remove(at);
    }

    /// Whether there is a row at a table and a key. It takes no memory.
    pub fn has(&self, at: &TableKey) -> bool
        ensures { result ≡ is_some (map.get self.now at.now) }
    {
        self.rows.contains_key(at)
    }

    /// The row at a table and a key, where there is one. It takes no memory.
    pub fn get(&self, at: &TableKey) -> Option<&Row>
        ensures { option_copied result ≡ map.get self.now at.now }
    {
        self.rows.get(at)
    }

    /// The rows with their table keys, by table and then in key order. It takes no memory.
    pub fn iter(&self) -> Iter<'_, TableKey, Row>
        ensures { result ≡ map.entries self.now }
    {
        self.rows.iter()
    }
}
