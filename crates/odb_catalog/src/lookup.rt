//! What the dictionary tells, looked up in a source of rows.
ghost use Rattle.std.specs.Prelude.{◌≡◌, ℕ, ◌<◌, ◌^◌, false, [], ◌∷◌, length, codes, option_map, find, nat_lt, Err, IfOk, IfErr};
ghost use Rattle.std.specs.FinMap.{entries};
ghost use Rattle.odb_model.specs.State.{rows_of, part_in};
ghost use Rattle.odb_model.specs.Table.{is_named};
ghost use Rattle.odb_model.specs.Dictionary.{table_of};
ghost use Rattle.odb_model.specs.Databanks.{is_main, is_sysdb, databank_rows, databanks_told, that_count, main_in, databank_named, number_in_row, next_number};
ghost use Rattle.odb_rowsource.specs.RowSource.{NoneFell, HasCause};
ghost use Rattle.odb_catalog.specs.Databanks.{without_name};
ghost use Rattle.odb_catalog.specs.Rows.{natural_of, number_from};

use crate::databank::{DatabankRow, databank_in_row, is_main, is_sysdb, pass_row};
use crate::name::has_name_form;
use crate::number::{is_number_from, natural_of};
use crate::row::{DICTIONARY, KIND_DATABANK, KIND_NUMBER, main_name, number_name, row_key};
use crate::{TableDef, dictionary_key, table_of};
use odb_rowsource::{RowError, RowSource};
use odb_values::{Edge, Frozen, Key, Range, Row, Text, Value};
use std::alloc::{AllocError, Global};

/// The number of the databank SYSDB.
pub(crate) const SYSDB: u32 = 2;

/// The number of the databank MAIN.
const MAIN: u32 = 4;

/// The file of the fixed shadow of SYSDB.
const FIXED_SHADOW: u32 = 3;

/// The first number that the dictionary gives.
const FIRST_NUMBER: u32 = 16;

/// The table of this name, or None where the dictionary that a source tells has none. It costs one
/// look-up in the source, and none for KV, which is fixed.
pub fn table_named<R: RowSource>(
    rows: &mut R,
    alloc: Global,
    name: &Text,
) -> Result<Option<TableDef>, RowError>
    ensures state { R.state rows.new ≡ R.state rows.old }
    ensures counts { NoneFell (R.faults rows.old) (R.faults rows.new) }
    ensures table { IfOk result (λ table. table ≡ table_of (R.state rows.old) name.now) }
    ensures cause { IfErr result (HasCause (R.faults rows.old) (R.faults rows.new)) }
    ensures needed { (file : ℕ) → result ≡ Err (RowError.Fault file)
        → is_named name.now (codes "KV") ≡ false }
{
    if name.as_bytes() == b"KV".as_slice() {
        return Ok(Some(TableDef::kv(alloc)?));
    }
    if !has_name_form(name.as_bytes()) {
        return Ok(None);
    }
    let key = dictionary_key(alloc, name)?;
    let row = rows.get(alloc, DICTIONARY, &key)?;
    Ok(table_of(alloc, name, &row)?)
}

/// Whether a table of this number holds a row. It costs one search in the source.
pub(crate) fn has_row<R: RowSource>(
    rows: &mut R,
    alloc: Global,
    table: u32,
) -> Result<bool, RowError>
    ensures state { R.state rows.new ≡ R.state rows.old }
    ensures counts { NoneFell (R.faults rows.old) (R.faults rows.new) }
    ensures there { IfOk result
        (λ there. there ≡ nat_lt 0 (length (rows_of table (R.state rows.old)))) }
    ensures cause { IfErr result (HasCause (R.faults rows.old) (R.faults rows.new)) }
{
    let range = Range {
        table,
        prefix: Frozen::empty(alloc),
        low: Edge::Free,
        high: Edge::Free,
    };
    Ok(rows.next(alloc, &range, None)?.is_some())
}

/// The number that the next object of the dictionary gets. It costs one look-up in the source.
pub(crate) fn next_number<R: RowSource>(rows: &mut R, alloc: Global) -> Result<u32, RowError>
    ensures state { R.state rows.new ≡ R.state rows.old }
    ensures counts { NoneFell (R.faults rows.old) (R.faults rows.new) }
    ensures number { IfOk result (λ number. number ≡ next_number (R.state rows.old)) }
    ensures range { IfOk result (λ number. number < 2 ^ 32) }
    ensures cause { IfErr result (HasCause (R.faults rows.old) (R.faults rows.new)) }
{
    let name = number_name(alloc)?;
    let key = row_key(alloc, KIND_NUMBER, &name)?;
    match rows.get(alloc, DICTIONARY, &key)? {
        None => Ok(FIRST_NUMBER),
        Some(row) => Ok(number_in_row(&row).unwrap_or(FIRST_NUMBER)),
    }
}

/// The number that a row has, where it has the form of a row of the next number.
fn number_in_row(row: &Row) -> Option<u32>
    ensures { result ≡ number_in_row row.now }
{
    match row.as_slice() {
        [number] => number_from(natural_of(number)),
        _ => None,
    }
}

/// A number that the dictionary may give.
fn number_from(number: Option<u64>) -> Option<u32>
    ensures { result ≡ number_from number }
{
    match number {
        Some(number) if is_number_from(16, number) => Some(number as u32),
        _ => None,
    }
}

/// The number of the databank of this name, or None where the dictionary that a source tells has
/// none. It costs nothing for the fixed ones; for another name it looks MAIN up and goes over the
/// rows of the databanks, up to the one of the name.
pub(crate) fn databank_named<R: RowSource>(
    rows: &mut R,
    alloc: Global,
    name: &Text,
) -> Result<Option<u32>, RowError>
    ensures state { R.state rows.new ≡ R.state rows.old }
    ensures counts { NoneFell (R.faults rows.old) (R.faults rows.new) }
    ensures number { IfOk result (λ number. number
        ≡ option_map (λ b. b.number) (databank_named (R.state rows.old) name.now)) }
    ensures cause { IfErr result (HasCause (R.faults rows.old) (R.faults rows.new)) }
    ensures needed { (file : ℕ) → result ≡ Err (RowError.Fault file)
        → (is_sysdb name.now ≡ false) × (is_main name.now ≡ false) }
{
    if is_sysdb(name) {
        return Ok(Some(SYSDB));
    }
    if is_main(name) {
        return Ok(Some(MAIN));
    }
    let main = main_databank(rows, alloc)?;
    further_databank(rows, alloc, fixed_files(alloc, main)?, name)
}

/// The files of the fixed copies. The error is want of memory.
fn fixed_files(alloc: Global, main: DatabankRow) -> Result<Vec<u32>, AllocError>
    ensures { IfOk result (λ files. files.items ≡ 2 ∷ 3 ∷ main.file ∷ []) }
{
    Ok(vec![in alloc; SYSDB, FIXED_SHADOW, main.file]?)
}

/// The databank MAIN: a row of it takes the place of the fixed one. It costs one look-up.
fn main_databank<R: RowSource>(rows: &mut R, alloc: Global) -> Result<DatabankRow, RowError>
    ensures state { R.state rows.new ≡ R.state rows.old }
    ensures counts { NoneFell (R.faults rows.old) (R.faults rows.new) }
    ensures main { IfOk result (λ main. main ≡ without_name (main_in (R.state rows.old))) }
    ensures cause { IfErr result (HasCause (R.faults rows.old) (R.faults rows.new)) }
{
    let fixed = DatabankRow {
        number: MAIN,
        file: 4,
    };
    let name = main_name(alloc)?;
    let key = row_key(alloc, KIND_DATABANK, &name)?;
    match rows.get(alloc, DICTIONARY, &key)? {
        None => Ok(fixed),
        Some(row) => Ok(databank_in_row(&name, &row).unwrap_or(fixed)),
    }
}

/// The range of the rows of databanks. The error is want of memory.
fn databank_rows(alloc: Global) -> Result<Range, AllocError>
    ensures { IfOk result (λ range. range ≡ databank_rows) }
{
    Ok(Range {
        table: DICTIONARY,
        prefix: Frozen::from_vec(vec![in alloc; Value::Int(1)]?),
        low: Edge::Free,
        high: Edge::Free,
    })
}

/// The number of the first databank of this name that counts behind copies of these files.
fn further_databank<R: RowSource>(
    rows: &mut R,
    alloc: Global,
    mut files: Vec<u32>,
    name: &Text,
) -> Result<Option<u32>, RowError>
    ensures state { R.state rows.new ≡ R.state rows.old }
    ensures counts { NoneFell (R.faults rows.old) (R.faults rows.new) }
    ensures number { IfOk result (λ number. number ≡ option_map (λ b. b.number)
        (find (λ b. is_named name.now b.name) (that_count files.items
        (databanks_told (entries (part_in databank_rows (R.state rows.old))))))) }
    ensures cause { IfErr result (HasCause (R.faults rows.old) (R.faults rows.new)) }
{
    let range = databank_rows(alloc)?;
    let mut last: Option<Key> = None;
    while let Some(row) = rows.next(alloc, &range, last.as_ref())? {
        if let Some(number) = pass_row(&mut files, name, &row)? {
            return Ok(Some(number));
        }
        last = Some(row.key);
    }
    Ok(None)
}
