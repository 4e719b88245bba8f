//! Rows by table and key.
ghost use Rattle.std.specs.Prelude.{◌≡◌, ◌≤◌, [], Option, Some, None, IsTrue, OnOk, OnErr, IfOk, IfErr, option_map, reverse, length};
ghost use Rattle.std.specs.Option.{option_copied};
ghost use Rattle.std.specs.FinMap as map;
ghost use Rattle.odb_model.specs.State.{changed, table_key_of, after_writes};
ghost use Rattle.odb_rowsource.specs.RowSource.{row_at, next_in};
ghost use Rattle.odb_keytable.specs.Spot.{is_row, table_key_at};
ghost use Rattle.odb_keytable.specs.Table.{lent_row};
ghost use Rattle.odb_keytable.specs.Place.{IsLeft};

use crate::TableError;
use crate::begin::begin_from;
use crate::copying::{compact_key, compact_row};
use crate::map::{entries_behind, insert_row, remove_row, write_of};
use crate::place::step;
use crate::spot::Spot;
use odb_model::{Entry, Write};
use odb_values::{Duplicate, Key, Range, Row};
use std::alloc::{AllocError, AllocFailed, Global};
use std::collections::BTreeMap;
use std::collections::btree_map::Range as Entries;
use std::marker::Model;

/// The rows of a database by table and key: the state after the entries that were folded in.
/// Contracts see the state.
#[derive(Drop)]
pub struct KeyTable {
    rows: BTreeMap<Spot, Row>,
}

impl Model for KeyTable {
    ghost use Rattle.std.specs.Coded.{coded_list};
    ghost use Rattle.std.specs.FinMap.{code};
    ghost use Rattle.odb_values.specs.contracts.value.Value as cell;
    ghost use Rattle.odb_model.specs.contracts.table_key.TableKey as table_key;
    ghost use Rattle.odb_model.specs.State.{State};

    ghost Value = { State };

    ghost coded = { code table_key.the_row.coded (coded_list cell.the_row.coded) };

    ghost use Rattle.odb_keytable.specs.Table.{state_of, AreRows};

    ghost view = { λ a. state_of a.rows.entries };

    ghost invariant = { λ a. AreRows a.rows.entries };
}

impl KeyTable {
    /// A table of no row, which keeps the allocator. It takes no memory.
    pub fn new(alloc: Global) -> KeyTable
        ensures { result ≡ map.empty }
    {
        KeyTable {
            rows: BTreeMap::new(alloc),
        }
    }

    /// Puts the writes of an entry in, in the time of a search for each. The error is want of
    /// memory: then the table may have some of the writes, so that with the entry laid over it
    /// reads as if it had none.
    pub fn fold(&mut self, alloc: Global, entry: &Entry) -> Result<(), TableError>
        ensures ok { OnOk result (self.new ≡ after_writes self.old entry.now.writes) }
        ensures err { OnErr result (after_writes self.new entry.now.writes
            ≡ after_writes self.old entry.now.writes) }
    {
        self.put_all(alloc, entry.writes.as_slice())?;
        Ok(())
    }

    /// Puts writes in, the first of them first, or some first ones where memory is missing.
    fn put_all(&mut self, alloc: Global, writes: &[Write]) -> Result<(), AllocError>
        ensures ok { OnOk result (self.new ≡ after_writes self.old writes.now) }
        ensures err { OnErr result
            (after_writes self.new writes.now ≡ after_writes self.old writes.now) }
    {
        for write in writes {
            self.put(alloc, write)?;
        }
        Ok(())
    }

    /// Puts a copy of the row of a write at its table key, or takes away the row there where the
    /// write deletes. The error is want of memory.
    fn put(&mut self, alloc: Global, write: &Write) -> Result<(), AllocError>
        ensures ok { OnOk result
            (self.new ≡ changed self.old (table_key_of write.now) write.now.row) }
        ensures err { OnErr result (self.new ≡ self.old) }
    {
        let spot = Spot::At(write.table, compact_key(alloc, &write.key)?);
        match &write.row {
            Some(row) => {
                self.insert(spot, compact_row(alloc, row)?)?;
                Ok(())
            }
            None => {
                self.remove(&spot);
                Ok(())
            }
        }
    }

    /// Moves writes in, the last one first, in the time of a search for each. The error is want of
    /// memory: then those are left that aren't in yet, in their places.
    pub(crate) fn take_in(&mut self, writes: &mut Vec<Write>) -> Result<(), AllocError>
        ensures state { after_writes self.new (reverse writes.new.items)
            ≡ after_writes self.old (reverse writes.old.items) }
        ensures ok { OnOk result (writes.new.items ≡ []) }
        ensures fewer { length writes.new.items ≤ length writes.old.items }
    {
        writes.reserve(0)?;
        while let Some(write) = writes.pop() {
            if let Err(back) = self.take(write) {
                writes.push_reserved(back);
                return Err(AllocError);
            }
        }
        Ok(())
    }

    /// Moves a write in. Where memory is missing it comes back.
    fn take(&mut self, write: Write) -> Result<(), Write>
        ensures ok { OnOk result (self.new ≡ changed self.old (table_key_of write) write.row) }
        ensures err { OnErr result (self.new ≡ self.old) }
        ensures back { IfErr result (λ back. back ≡ write) }
    {
        let Write {
            bank,
            table,
            key,
            row,
        } = write;
        let spot = Spot::At(table, key);
        let Some(row) = row else {
            self.remove(&spot);
            return Ok(());
        };
        match self.insert(spot, row) {
            Ok(()) => Ok(()),
            Err(failed) => {
                let (spot, row) = failed.value;
                Err(write_of(bank, spot, row))
            }
        }
    }

    /// Puts a row at its place. Where memory is missing both come back.
    fn insert(&mut self, spot: Spot, row: Row) -> Result<(), AllocFailed<(Spot, Row)>>
        requires { IsTrue (is_row spot) }
        ensures ok { OnOk result (self.new ≡ changed self.old (table_key_at spot) (Some row)) }
        ensures err { OnErr result (self.new ≡ self.old) }
        ensures back { IfErr result (λ failed. failed.value ≡ (spot, row)) }
    {
        insert_row(&mut self.rows, spot, row)
    }

    fn remove(&mut self, spot: &Spot)
        requires { IsTrue (is_row spot.now) }
        ensures { self.new ≡ changed self.old (table_key_at spot.now) None }
    {
        remove_row(&mut self.rows, spot);
    }

    /// The row at a table and a key, in the time of a search. It takes memory for the key, whose
    /// want is the error.
    pub fn row(&self, alloc: Global, table: u32, key: &Key) -> Result<Option<&Row>, AllocError>
        ensures { IfOk result (λ row. option_copied row ≡ row_at table key.now self.now) }
    {
        let spot = Spot::At(table, key.copy(alloc)?);
        Ok(self.rows.get(&spot))
    }

    /// The row with the least key of a range that is above `after`, or the least of the whole range
    /// where that is None, in the time of a search. It takes memory for one key, whose want is the
    /// error.
    pub fn next_row(
        &self,
        alloc: Global,
        range: &Range,
        after: Option<&Key>,
    ) -> Result<Option<(&Key, &Row)>, AllocError>
        ensures { IfOk result (λ next. option_map lent_row next
            ≡ next_in range.now (option_copied after.entry) self.now) }
    {
        let rest = self.rows_from(alloc, range, after)?;
        let (found, _place) = step(rest, range);
        Ok(found)
    }

    /// The entries from where the next row of a range may be, in the time of a search. It takes
    /// memory for one key, whose want is the error.
    pub(crate) fn rows_from(
        &self,
        alloc: Global,
        range: &Range,
        after: Option<&Key>,
    ) -> Result<Entries<'_, Spot, Row>, AllocError>
        ensures { IfOk result (IsLeft range.now (option_copied after.entry) self.now) }
    {
        let begin = begin_from(alloc, range, after)?;
        Ok(entries_behind(&self.rows, begin))
    }
}
