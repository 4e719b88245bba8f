//! A listing, told a line at a time.
ghost use Rattle.std.specs.Prelude.{◌≡◌, ◌||◌, None, Some, IfOk, IfErr, OnErr};
ghost use Rattle.odb_rowsource.specs.RowSource.{NoneFell, HasCause};
ghost use Rattle.odb_model.specs.State.{State};
ghost use Rattle.odb_check.specs.Tables.{named, comes_before_kv};
ghost use Rattle.odb_check.specs.Told.{check_lines};
ghost use Rattle.odb_check.specs.Left.{lines_left, Tells, TellsRow, TellsOpen, TellsTable, TellsFixed, Opens};
ghost use Rattle.odb_check.specs.Found.{IsFound, OpensFound};

use crate::found::{FoundTable, comes_before_kv, count_rows, further_table, kv_name, whole};
use crate::line::{number_line, row_line, table_line};
use odb_catalog::TableDef;
use odb_rowsource::{RowError, RowSource};
use odb_values::{Duplicate, Key, Text};
use std::alloc::{AllocError, Global};

/// A table whose rows are being told.
#[derive(Debug, Drop)]
pub struct OpenTable {
    table: TableDef,
    /// The key of the last row that was told.
    last: Option<Key>,
}

/// What is still to be told of a database: the number of its history, and its tables in the byte
/// order of their names, each with how many rows it has and, where they are wanted, with each row.
///
/// It keeps its place and no line: it takes memory for one row at a time.
#[derive(Debug, Drop)]
pub struct Listing {
    with_rows: bool,
    /// The number, until it is told.
    number: Option<u64>,
    /// The table whose rows are being told.
    table: Option<OpenTable>,
    /// The key of the last row of the dictionary whose table was told.
    after: Option<Key>,
    /// Whether the fixed table is told.
    is_kv_told: bool,
}

impl Listing {
    /// The whole listing of a history of so many entries.
    pub fn new(number: u64, with_rows: bool) -> Listing
        ensures { (s : State) → lines_left s result ≡ check_lines with_rows number s }
    {
        Listing {
            with_rows,
            number: Some(number),
            table: None,
            after: None,
            is_kv_told: false,
        }
    }

    /// The next line, with its LF, of what the source tells; None where all is told.
    ///
    /// The state that the source tells has to be the same at each call. A table's line costs a walk
    /// over its rows, and each row's a search. After an error the line is still the next one.
    pub fn next_line<R: RowSource>(
        &mut self,
        rows: &mut R,
        alloc: Global,
    ) -> Result<Option<String>, RowError>
        ensures state { R.state rows.new ≡ R.state rows.old }
        ensures counts { NoneFell (R.faults rows.old) (R.faults rows.new) }
        ensures told { IfOk result (λ line. Tells (lines_left (R.state rows.old) self.old) line
            (lines_left (R.state rows.old) self.new)) }
        ensures refused { OnErr result (lines_left (R.state rows.old) self.new
            ≡ lines_left (R.state rows.old) self.old) }
        ensures cause { IfErr result (HasCause (R.faults rows.old) (R.faults rows.new)) }
    {
        if let Some(number) = self.number {
            let line = number_line(alloc, number)?;
            self.number = None;
            return Ok(Some(line));
        }
        match self.next_row(rows, alloc)? {
            Some(line) => Ok(Some(line)),
            None => self.next_table(rows, alloc),
        }
    }

    /// The line of the next row of the table that is being told; None where none is left.
    fn next_row<R: RowSource>(
        &mut self,
        rows: &mut R,
        alloc: Global,
    ) -> Result<Option<String>, RowError>
        ensures state { R.state rows.new ≡ R.state rows.old }
        ensures counts { NoneFell (R.faults rows.old) (R.faults rows.new) }
        ensures told { IfOk result
            (λ line. TellsRow (R.state rows.old) self.old line self.new) }
        ensures refused { OnErr result (self.new ≡ self.old) }
        ensures cause { IfErr result (HasCause (R.faults rows.old) (R.faults rows.new)) }
    {
        let Some(open_table) = &mut self.table else {
            return Ok(None);
        };
        match open_table.next_row(rows, alloc)? {
            Some(line) => Ok(Some(line)),
            None => {
                self.table = None;
                Ok(None)
            }
        }
    }

    /// The line of the next table; None where none is left.
    fn next_table<R: RowSource>(
        &mut self,
        rows: &mut R,
        alloc: Global,
    ) -> Result<Option<String>, RowError>
        requires { self.old.table ≡ None }
        ensures state { R.state rows.new ≡ R.state rows.old }
        ensures counts { NoneFell (R.faults rows.old) (R.faults rows.new) }
        ensures told { IfOk result
            (λ line. TellsTable (R.state rows.old) self.old line self.new) }
        ensures refused { OnErr result (self.new ≡ self.old) }
        ensures cause { IfErr result (HasCause (R.faults rows.old) (R.faults rows.new)) }
    {
        let after = copy_of(alloc, &self.after)?;
        match further_table(rows, alloc, after)? {
            Some(found) => self.next_of(rows, alloc, found),
            None => self.next_fixed(rows, alloc),
        }
    }

    /// The line of the table that was found next in the dictionary, or of the fixed one where that
    /// comes before it.
    fn next_of<R: RowSource>(
        &mut self,
        rows: &mut R,
        alloc: Global,
        found: FoundTable,
    ) -> Result<Option<String>, RowError>
        requires { self.old.table ≡ None }
        ensures state { R.state rows.new ≡ R.state rows.old }
        ensures counts { NoneFell (R.faults rows.old) (R.faults rows.new) }
        ensures told { IfOk result
            (λ line. IsFound (R.state rows.old) self.old.after (Some found)
            → TellsTable (R.state rows.old) self.old line self.new) }
        ensures refused { OnErr result (self.new ≡ self.old) }
        ensures cause { IfErr result (HasCause (R.faults rows.old) (R.faults rows.new)) }
    {
        if self.is_next(&found) {
            self.open_found(rows, alloc, found)
        } else {
            self.next_fixed(rows, alloc)
        }
    }

    /// Whether a table that was found comes before the fixed one, or that is told.
    fn is_next(&self, found: &FoundTable) -> bool
        ensures { result ≡ (self.now.is_kv_told || comes_before_kv found.now.name) }
    {
        self.is_kv_told || comes_before_kv(&found.name)
    }

    /// The line of a table that a row of the dictionary tells of.
    fn open_found<R: RowSource>(
        &mut self,
        rows: &mut R,
        alloc: Global,
        found: FoundTable,
    ) -> Result<Option<String>, RowError>
        requires { self.old.table ≡ None }
        ensures state { R.state rows.new ≡ R.state rows.old }
        ensures counts { NoneFell (R.faults rows.old) (R.faults rows.new) }
        ensures told { IfOk result
            (λ line. OpensFound (R.state rows.old) found self.old line self.new) }
        ensures refused { OnErr result (self.new ≡ self.old) }
        ensures cause { IfErr result (HasCause (R.faults rows.old) (R.faults rows.new)) }
    {
        let FoundTable { key, name, table } = found;
        let line = self.open(rows, alloc, &name, table)?;
        self.after = Some(key);
        Ok(Some(line))
    }

    /// The line of the fixed table, where it isn't told yet.
    fn next_fixed<R: RowSource>(
        &mut self,
        rows: &mut R,
        alloc: Global,
    ) -> Result<Option<String>, RowError>
        requires { self.old.table ≡ None }
        ensures state { R.state rows.new ≡ R.state rows.old }
        ensures counts { NoneFell (R.faults rows.old) (R.faults rows.new) }
        ensures told { IfOk result
            (λ line. TellsFixed (R.state rows.old) self.old line self.new) }
        ensures refused { OnErr result (self.new ≡ self.old) }
        ensures cause { IfErr result (HasCause (R.faults rows.old) (R.faults rows.new)) }
    {
        if self.is_kv_told {
            return Ok(None);
        }
        let name = kv_name(alloc)?;
        let line = self.open(rows, alloc, &name, TableDef::kv(alloc)?)?;
        self.is_kv_told = true;
        Ok(Some(line))
    }

    /// The line of a table, whose rows come next where rows are told.
    fn open<R: RowSource>(
        &mut self,
        rows: &mut R,
        alloc: Global,
        name: &Text,
        table: TableDef,
    ) -> Result<String, RowError>
        requires { self.old.table ≡ None }
        ensures state { R.state rows.new ≡ R.state rows.old }
        ensures counts { NoneFell (R.faults rows.old) (R.faults rows.new) }
        ensures told { IfOk result
            (λ line. Opens (R.state rows.old) (named name.now table) self.old line self.new) }
        ensures refused { OnErr result (self.new ≡ self.old) }
        ensures cause { IfErr result (HasCause (R.faults rows.old) (R.faults rows.new)) }
    {
        let count = count_rows(rows, alloc, table.number())?;
        let line = table_line(alloc, name, count)?;
        if self.with_rows {
            self.table = Some(OpenTable { table, last: None });
        }
        Ok(line)
    }
}

impl OpenTable {
    /// The line of the next row; None where none is left.
    fn next_row<R: RowSource>(
        &mut self,
        rows: &mut R,
        alloc: Global,
    ) -> Result<Option<String>, RowError>
        ensures state { R.state rows.new ≡ R.state rows.old }
        ensures counts { NoneFell (R.faults rows.old) (R.faults rows.new) }
        ensures told { IfOk result
            (λ line. TellsOpen (R.state rows.old) self.old line self.new) }
        ensures refused { OnErr result (self.new ≡ self.old) }
        ensures cause { IfErr result (HasCause (R.faults rows.old) (R.faults rows.new)) }
    {
        let range = whole(alloc, self.table.number());
        let Some(row) = rows.next(alloc, &range, self.last.as_ref())? else {
            return Ok(None);
        };
        let line = row_line(alloc, &self.table, row.key.as_slice(), row.row.as_slice())?;
        self.last = Some(row.key);
        Ok(Some(line))
    }
}

/// A copy of a key, where there is one. The error is want of memory.
fn copy_of(alloc: Global, key: &Option<Key>) -> Result<Option<Key>, AllocError>
    ensures { IfOk result (λ copy. copy ≡ key.now) }
{
    match key {
        None => Ok(None),
        Some(key) => Ok(Some(key.copy(alloc)?)),
    }
}
