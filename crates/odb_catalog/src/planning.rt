//! What a definition writes into the dictionary.
ghost use Rattle.std.specs.Prelude.{◌≡◌, ◌≢◌, ℕ, ◌<◌, ◌≤◌, ◌+◌, ◌^◌, false, true, [], length, codes, Err, IfOk, IfErr, IsTrue};
ghost use Rattle.std.specs.List.{list_any};
ghost use Rattle.odb_model.specs.declared.statement.Statement.TheVariants.{CreateTable, DropTable};
ghost use Rattle.odb_model.specs.Table.{is_named};
ghost use Rattle.odb_model.specs.Dictionary.{names_differ};
ghost use Rattle.odb_model.specs.Databanks.{next_number};
ghost use Rattle.odb_model.specs.Definitions.{IsSpelled, Plans, is_definition, text_names, is_out_of_range, plan_unless, creation_refusal, creation_writes, planned};
ghost use Rattle.odb_model.specs.Storable.{IsStorableList};
ghost use Rattle.odb_rowsource.specs.RowSource.{NoneFell};
ghost use Rattle.odb_catalog.specs.Planning.{IsRefusal, IsCaused, IsTableText, IsPlan, text_refusal, takes_rows};

use crate::asked::{are_columns, columns_differ, has_length_out_of_range, names_differ, table_row};
use crate::lookup::{SYSDB, databank_named, has_row, next_number};
use crate::name::is_kv;
use crate::row::{KIND_TABLE, dictionary_write, number_write};
use crate::{CatalogError, Definition, FileWork, table_named};
use odb_model::{ColumnText, Statement, Writes};
use odb_rowsource::RowSource;
use odb_values::{Frozen, Text};
use std::alloc::{AllocError, Global};

/// The number that is never given: all others are used where it is the next one.
const LAST_NUMBER: u32 = 4294967295;

/// The most columns of a table.
const MOST_COLUMNS: usize = 15;

/// What a definition comes to on the rows that a source tells: its writes into the dictionary, or why
/// it is refused. CREATE TABLE and DROP TABLE are built; the statement is one of them, and some text
/// spells it.
///
/// A CREATE TABLE takes one number, which no other object gets. The first refusal of the order comes
/// that applies, and of the source no more is asked than it takes to tell it: a look-up of the table
/// and of the next number, and for a databank other than SYSDB and MAIN a look-up of MAIN and a walk
/// over the rows of the databanks. A DROP TABLE looks the table up, and for a row of it. It takes memory
/// for the rows that it writes. The names of a CREATE TABLE are compared each with each: a key of a text
/// of 65,536 bytes has some 16,600 at most, which are 140 million pairs. The source's rows stay.
pub fn plan_definition<R: RowSource>(
    rows: &mut R,
    alloc: Global,
    statement: &Statement,
) -> Result<Definition, CatalogError>
    requires definition { IsTrue (is_definition statement.now) }
    requires spelled { IsSpelled statement.now }
    ensures state { R.state rows.new ≡ R.state rows.old }
    ensures counts { NoneFell (R.faults rows.old) (R.faults rows.new) }
    ensures planned { IfOk result (IsPlan (planned statement.now (R.state rows.old))) }
    ensures storable { IfOk result (λ plan. IsStorableList plan.writes) }
    ensures some { IfOk result (λ plan. plan.writes ≢ []) }
    ensures refused { IfErr result (IsRefusal (planned statement.now (R.state rows.old))) }
    ensures cause { IfErr result (IsCaused (R.faults rows.old) (R.faults rows.new)) }
    ensures needed { (file : ℕ) → result ≡ Err (CatalogError.RowFault file)
        → IsTrue (takes_rows statement.now) }
{
    let writes = match statement {
        Statement::CreateTable {
            name,
            columns,
            key,
            bank,
        } => plan_table(rows, alloc, name, columns.as_slice(), key.as_slice(), bank)?,
        Statement::DropTable { name } => plan_drop(rows, alloc, name)?,
        _ => unreachable!(),
    };
    Ok(Definition {
        writes,
        file: 0,
        work: FileWork::Nothing,
    })
}

/// The writes of a CREATE TABLE.
fn plan_table<R: RowSource>(
    rows: &mut R,
    alloc: Global,
    name: &Text,
    columns: &[ColumnText],
    key: &[Text],
    bank: &Text,
) -> Result<Writes, CatalogError>
    requires { IsTableText name.now columns.now key.now }
    ensures state { R.state rows.new ≡ R.state rows.old }
    ensures counts { NoneFell (R.faults rows.old) (R.faults rows.new) }
    ensures planned { IfOk result (λ writes. planned
        (CreateTable name.now columns.now key.now bank.now) (R.state rows.old) ≡ Plans writes) }
    ensures storable { IfOk result IsStorableList }
    ensures some { IfOk result (λ writes. writes ≢ []) }
    ensures refused { IfErr result (IsRefusal (planned
        (CreateTable name.now columns.now key.now bank.now) (R.state rows.old))) }
    ensures cause { IfErr result (IsCaused (R.faults rows.old) (R.faults rows.new)) }
    ensures needed { (file : ℕ) → result ≡ Err (CatalogError.RowFault file)
        → IsTrue (takes_rows (CreateTable name.now columns.now key.now bank.now)) }
{
    let Some(bank) = databank_named(rows, alloc, bank)? else {
        return Err(CatalogError::NoBank);
    };
    if bank == SYSDB {
        return Err(CatalogError::Fixed);
    }
    plan_table_in(rows, alloc, bank, name, columns, key)
}

/// The writes of a CREATE TABLE in the databank of this number.
fn plan_table_in<R: RowSource>(
    rows: &mut R,
    alloc: Global,
    bank: u32,
    name: &Text,
    columns: &[ColumnText],
    key: &[Text],
) -> Result<Writes, CatalogError>
    requires { IsTableText name.now columns.now key.now }
    ensures state { R.state rows.new ≡ R.state rows.old }
    ensures counts { NoneFell (R.faults rows.old) (R.faults rows.new) }
    ensures planned { IfOk result (λ writes. plan_unless
        (creation_refusal (R.state rows.old) name.now columns.now key.now)
        (creation_writes (next_number (R.state rows.old)) bank name.now columns.now key.now)
        ≡ Plans writes) }
    ensures storable { IfOk result IsStorableList }
    ensures some { IfOk result (λ writes. writes ≢ []) }
    ensures refused { IfErr result (IsRefusal (plan_unless
        (creation_refusal (R.state rows.old) name.now columns.now key.now)
        (creation_writes (next_number (R.state rows.old)) bank name.now columns.now key.now))) }
    ensures cause { IfErr result (IsCaused (R.faults rows.old) (R.faults rows.new)) }
    ensures needed { (file : ℕ) → result ≡ Err (CatalogError.RowFault file)
        → (is_named name.now (codes "KV") ≡ false)
        × (names_differ (text_names columns.now) ≡ true) }
{
    if !columns_differ(columns) {
        return Err(CatalogError::NameTaken);
    }
    if table_named(rows, alloc, name)?.is_some() {
        return Err(CatalogError::NameTaken);
    }
    if let Some(refusal) = text_refusal(columns, key) {
        return Err(refusal);
    }
    let number = next_number(rows, alloc)?;
    if number == LAST_NUMBER {
        return Err(CatalogError::NoNumberLeft);
    }
    Ok(creation_writes(alloc, number, bank, name, columns, key)?)
}

/// What refuses a CREATE TABLE of columns with different names by its text alone.
fn text_refusal(columns: &[ColumnText], key: &[Text]) -> Option<CatalogError>
    ensures { result ≡ text_refusal columns.now key.now }
{
    if MOST_COLUMNS < columns.len() || !names_differ(key) {
        return Some(CatalogError::ColumnCount);
    }
    if has_length_out_of_range(columns) {
        return Some(CatalogError::TooLong);
    }
    if !are_columns(columns, key) {
        return Some(CatalogError::NoColumn);
    }
    None
}

/// The writes of a CREATE TABLE that nothing refuses. The error is want of memory.
fn creation_writes(
    alloc: Global,
    number: u32,
    bank: u32,
    name: &Text,
    columns: &[ColumnText],
    key: &[Text],
) -> Result<Writes, AllocError>
    requires text { IsTableText name.now columns.now key.now }
    requires number { number + 1 < 2 ^ 32 }
    requires few { length columns.now ≤ 15 }
    requires short { length key.now ≤ 15 }
    requires range { list_any (λ c. is_out_of_range c.length) columns.now ≡ false }
    ensures writes { IfOk result (λ writes. writes
        ≡ creation_writes number bank name.now columns.now key.now) }
    ensures storable { IfOk result IsStorableList }
{
    let row = table_row(alloc, number, bank, columns, key)?;
    let writes = vec![in alloc;
        dictionary_write(alloc, KIND_TABLE, name, Some(row))?,
        number_write(alloc, number)?,
    ]?;
    Ok(Frozen::from_vec(writes))
}

/// The writes of a DROP TABLE.
fn plan_drop<R: RowSource>(rows: &mut R, alloc: Global, name: &Text) -> Result<Writes, CatalogError>
    ensures state { R.state rows.new ≡ R.state rows.old }
    ensures counts { NoneFell (R.faults rows.old) (R.faults rows.new) }
    ensures planned { IfOk result
        (λ writes. planned (DropTable name.now) (R.state rows.old) ≡ Plans writes) }
    ensures storable { IfOk result IsStorableList }
    ensures some { IfOk result (λ writes. writes ≢ []) }
    ensures refused { IfErr result
        (IsRefusal (planned (DropTable name.now) (R.state rows.old))) }
    ensures cause { IfErr result (IsCaused (R.faults rows.old) (R.faults rows.new)) }
    ensures needed { (file : ℕ) → result ≡ Err (CatalogError.RowFault file)
        → is_named name.now (codes "KV") ≡ false }
{
    if is_kv(name) {
        return Err(CatalogError::Fixed);
    }
    let Some(table) = table_named(rows, alloc, name)? else {
        return Err(CatalogError::NoTable);
    };
    if has_row(rows, alloc, table.number())? {
        return Err(CatalogError::NotEmpty);
    }
    let writes = vec![in alloc; dictionary_write(alloc, KIND_TABLE, name, None)?]?;
    Ok(Frozen::from_vec(writes))
}
