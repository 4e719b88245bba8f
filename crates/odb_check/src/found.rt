//! Tables and rows, as a source tells them.
ghost use Rattle.std.specs.Prelude.{◌≡◌, length, codes, IfOk, IfErr};
ghost use Rattle.odb_model.specs.Table.{is_named};
ghost use Rattle.std.specs.Option.{option_copied};
ghost use Rattle.odb_model.specs.State.{rows_of};
ghost use Rattle.odb_rowsource.specs.RowSource.{NoneFell, HasCause};
ghost use Rattle.odb_check.specs.Tables.{table_rows, name_told, comes_before_kv};
ghost use Rattle.odb_check.specs.Left.{whole};
ghost use Rattle.odb_check.specs.Told.{capped};
ghost use Rattle.odb_check.specs.Found.{IsFound, IsTold};

use odb_catalog::{TableDef, has_name_form, table_in_row};
use odb_rowsource::{KeyedRow, RowError, RowSource};
use odb_values::{Duplicate, Edge, Frozen, Key, Range, Text, Value};
use std::alloc::{AllocError, Global};
use std::cmp::Ordering;

/// The number of the dictionary's table.
const DICTIONARY: u32 = 6;

/// The first value of the key of a row that tells of a table.
const KIND_TABLE: i64 = 2;

/// A table, as a row of the dictionary tells of it.
#[derive(Debug, Drop)]
pub(crate) struct FoundTable {
    /// The key of the row.
    pub(crate) key: Key,
    /// The table's name.
    pub(crate) name: Text,
    pub(crate) table: TableDef,
}

/// The first table behind the row of the dictionary with a key, or the first of all. It goes over
/// the rows that tell of none.
pub(crate) fn further_table<R: RowSource>(
    rows: &mut R,
    alloc: Global,
    mut last: Option<Key>,
) -> Result<Option<FoundTable>, RowError>
    ensures state { R.state rows.new ≡ R.state rows.old }
    ensures counts { NoneFell (R.faults rows.old) (R.faults rows.new) }
    ensures found { IfOk result (IsFound (R.state rows.old) last) }
    ensures cause { IfErr result (HasCause (R.faults rows.old) (R.faults rows.new)) }
{
    let range = table_rows(alloc)?;
    while let Some(row) = rows.next(alloc, &range, last.as_ref())? {
        if let Some(found) = table_told(alloc, &row)? {
            return Ok(Some(found));
        }
        last = Some(row.key);
    }
    Ok(None)
}

/// The range of the rows that tell of tables. The error is want of memory.
fn table_rows(alloc: Global) -> Result<Range, AllocError>
    ensures { IfOk result (λ range. range ≡ table_rows) }
{
    let prefix = vec![in alloc; Value::Int(KIND_TABLE)]?;
    Ok(Range {
        table: DICTIONARY,
        prefix: Frozen::from_vec(prefix),
        low: Edge::Free,
        high: Edge::Free,
    })
}

/// The range of all rows of a table. It takes no memory.
pub(crate) fn whole(alloc: Global, table: u32) -> Range
    ensures { result ≡ whole table }
{
    Range {
        table,
        prefix: Frozen::empty(alloc),
        low: Edge::Free,
        high: Edge::Free,
    }
}

/// The table that a row of the dictionary tells of. The error is want of memory.
fn table_told(alloc: Global, row: &KeyedRow) -> Result<Option<FoundTable>, AllocError>
    ensures { IfOk result (IsTold row.now) }
{
    let Some(name) = name_told(&row.key) else {
        return Ok(None);
    };
    match table_in_row(alloc, &row.row)? {
        None => Ok(None),
        Some(table) => Ok(Some(FoundTable {
            key: row.key.copy(alloc)?,
            name: name.copy(alloc)?,
            table,
        })),
    }
}

/// The name in the key of a row that may tell of a table other than KV.
fn name_told(key: &Key) -> Option<&Text>
    ensures { option_copied result ≡ name_told key.now }
{
    match key.as_slice() {
        [Value::Int(kind), Value::Text(name)] => {
            if *kind == KIND_TABLE && has_name_form(name.as_bytes()) && !is_kv(name) {
                Some(name)
            } else {
                None
            }
        }
        _ => None,
    }
}

/// Whether a name is that of the fixed table.
fn is_kv(name: &Text) -> bool
    ensures { result ≡ is_named name.now (codes "KV") }
{
    name.as_bytes() == b"KV".as_slice()
}

/// The name of the fixed table. The error is want of memory.
pub(crate) fn kv_name(alloc: Global) -> Result<Text, AllocError>
    ensures { IfOk result (λ name. name ≡ codes "KV") }
{
    Ok(Text::from_str(alloc, "KV")?.unwrap())
}

/// Whether a name comes before that of the fixed table.
pub(crate) fn comes_before_kv(name: &Text) -> bool
    ensures { result ≡ comes_before_kv name.now }
{
    name.as_bytes().cmp(b"KV".as_slice()) == Ordering::Less
}

/// How many rows a table has, or 2^64 - 1 where it has more. It goes over them once.
pub(crate) fn count_rows<R: RowSource>(
    rows: &mut R,
    alloc: Global,
    table: u32,
) -> Result<u64, RowError>
    ensures state { R.state rows.new ≡ R.state rows.old }
    ensures counts { NoneFell (R.faults rows.old) (R.faults rows.new) }
    ensures count { IfOk result
        (λ count. count ≡ capped (length (rows_of table (R.state rows.old)))) }
    ensures cause { IfErr result (HasCause (R.faults rows.old) (R.faults rows.new)) }
{
    let range = whole(alloc, table);
    let mut count: u64 = 0;
    let mut last: Option<Key> = None;
    while let Some(row) = rows.next(alloc, &range, last.as_ref())? {
        count = count.saturating_add(1);
        last = Some(row.key);
    }
    Ok(count)
}
