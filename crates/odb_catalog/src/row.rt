//! Rows of the dictionary: where they stand, and how they are written.
ghost use Rattle.std.specs.Prelude.{◌≡◌, ◌+◌, ◌<◌, ◌^◌, codes, IfOk, IsTrue};
ghost use Rattle.odb_model.specs.Dictionary.{has_name_form};
ghost use Rattle.odb_model.specs.Databanks.{row_key};
ghost use Rattle.odb_model.specs.Definitions.{dictionary_write, number_write};

use odb_model::Write;
use odb_values::{Duplicate, Frozen, Key, Row, Text, Value, Values};
use std::alloc::{AllocError, Global};

/// The number of the dictionary's table.
pub(crate) const DICTIONARY: u32 = 6;

/// The number of the databank that has the dictionary's table.
const SYSDB: u32 = 2;

/// The first value of the key of a row that tells of a databank.
pub(crate) const KIND_DATABANK: u32 = 1;

/// The first value of the key of a row that tells of a table.
pub(crate) const KIND_TABLE: u32 = 2;

/// The first value of the key of the row that has the next number.
pub(crate) const KIND_NUMBER: u32 = 5;

/// The name of the fixed databank whose row may take its place. The error is want of memory.
pub(crate) fn main_name(alloc: Global) -> Result<Text, AllocError>
    ensures { IfOk result (λ name. name ≡ codes "MAIN") }
{
    Ok(Text::from_str(alloc, "MAIN")?.unwrap())
}

/// The name of the row that has the next number. The error is want of memory.
pub(crate) fn number_name(alloc: Global) -> Result<Text, AllocError>
    ensures { IfOk result (λ name. name ≡ codes "NEXT") }
{
    Ok(Text::from_str(alloc, "NEXT")?.unwrap())
}

/// The values of the key of a row of the dictionary. The error is want of memory.
pub(crate) fn key_values(alloc: Global, kind: u32, name: &Text) -> Result<Values, AllocError>
    ensures { IfOk result (λ values. values ≡ row_key kind name.now) }
{
    let values = vec![in alloc; Value::Int(kind as i64), Value::Text(name.copy(alloc)?)]?;
    Ok(Frozen::from_vec(values))
}

/// The key of a row of the dictionary, in table 6. The error is want of memory.
pub(crate) fn row_key(alloc: Global, kind: u32, name: &Text) -> Result<Key, AllocError>
    requires { IsTrue (has_name_form name.now) }
    ensures { IfOk result (λ key. key ≡ row_key kind name.now) }
{
    match Key::new(key_values(alloc, kind, name)?) {
        Ok(key) => Ok(key),
        Err(_) => unreachable!(),
    }
}

/// A row of the dictionary that is put, or taken away. The error is want of memory.
pub(crate) fn dictionary_write(
    alloc: Global,
    kind: u32,
    name: &Text,
    row: Option<Row>,
) -> Result<Write, AllocError>
    requires { IsTrue (has_name_form name.now) }
    ensures { IfOk result (λ write. write ≡ dictionary_write kind name.now row) }
{
    Ok(Write {
        bank: SYSDB,
        table: DICTIONARY,
        key: row_key(alloc, kind, name)?,
        row,
    })
}

/// The write by which a number is used. The error is want of memory.
pub(crate) fn number_write(alloc: Global, used: u32) -> Result<Write, AllocError>
    requires { used + 1 < 2 ^ 32 }
    ensures { IfOk result (λ write. write ≡ number_write used) }
{
    let values = vec![in alloc; Value::Int((used + 1) as i64)]?;
    let row = Row::new(Frozen::from_vec(values));
    dictionary_write(alloc, KIND_NUMBER, &number_name(alloc)?, Some(row))
}
