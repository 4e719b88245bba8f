//! Databanks, as rows of the dictionary tell them.
ghost use Rattle.std.specs.Prelude.{◌≡◌, ◌==◌, None, option_map, IfOk};
ghost use Rattle.std.specs.List.{list_any};
ghost use Rattle.std.specs.Option.{option_copied};
ghost use Rattle.odb_model.specs.Databanks.{is_main, is_sysdb, is_databank_number, databank_in_row, name_in_key, databank_of, may_be_copy};
ghost use Rattle.odb_catalog.specs.Databanks.{without_name, databank_from, number_found, files_after};

use crate::name::{has_name_form, is_named};
use crate::number::{is_number_from, natural_of};
use odb_rowsource::KeyedRow;
use odb_values::{Key, Row, Text, Value};
use std::alloc::AllocError;

/// The most copies of databanks that there are, the fixed ones among them.
const MOST_COPIES: usize = 16;

/// What a row of the dictionary tells of a databank beside its name.
#[derive(Clone, Copy, Debug)]
pub(crate) struct DatabankRow {
    /// The databank's number.
    pub(crate) number: u32,
    /// The file of its master.
    pub(crate) file: u32,
}

/// Whether a name is that of the databank MAIN, which is fixed but for its row.
pub(crate) fn is_main(name: &Text) -> bool
    ensures { result ≡ is_main name.now }
{
    name.as_bytes() == b"MAIN".as_slice()
}

/// Whether a name is that of the databank SYSDB, which is fixed.
pub(crate) fn is_sysdb(name: &Text) -> bool
    ensures { result ≡ is_sysdb name.now }
{
    name.as_bytes() == b"SYSDB".as_slice()
}

/// Whether a databank of this name may have this number.
fn is_databank_number(name: &Text, number: u64) -> bool
    ensures { result ≡ is_databank_number name.now number }
{
    if is_main(name) {
        number == 4
    } else {
        is_number_from(16, number)
    }
}

/// The databank of a row with these numbers, where they are those of one.
fn databank_from(
    name: &Text,
    number: Option<u64>,
    option: Option<u64>,
    file: Option<u64>,
) -> Option<DatabankRow>
    ensures { result ≡ option_map without_name (databank_from name.now number option file) }
{
    let (Some(number), Some(option), Some(file)) = (number, option, file) else {
        return None;
    };
    if is_databank_number(name, number) && option == 1 && is_number_from(4, file) {
        Some(DatabankRow {
            number: number as u32,
            file: file as u32,
        })
    } else {
        None
    }
}

/// The databank of this name that a row tells of, or None where the row hasn't the form of one.
pub(crate) fn databank_in_row(name: &Text, row: &Row) -> Option<DatabankRow>
    ensures { result ≡ option_map without_name (databank_in_row name.now row.now) }
{
    match row.as_slice() {
        [number, option, file] => {
            let number = natural_of(number);
            let option = natural_of(option);
            databank_from(name, number, option, natural_of(file))
        }
        _ => None,
    }
}

/// The name in the key of a row of a databank other than the fixed ones.
fn name_in_key(key: &Key) -> Option<&Text>
    ensures { option_copied result ≡ name_in_key key.now }
{
    match key.as_slice() {
        [Value::Int(kind), Value::Text(name)] => {
            if *kind == 1 && has_name_form(name.as_bytes()) && !(is_sysdb(name) || is_main(name)) {
                Some(name)
            } else {
                None
            }
        }
        _ => None,
    }
}

/// Whether one of the copies is this file.
fn is_copy(files: &[u32], file: u32) -> bool
    ensures { result ≡ list_any (λ other. other == file) files.now }
{
    files.iter().any(|other| *other == file)
}

/// Whether none of the copies is this file, and there may be a further copy.
fn may_be_copy(files: &[u32], file: u32) -> bool
    ensures { result ≡ may_be_copy files.now file }
{
    !is_copy(files, file) && files.len() < MOST_COPIES
}

/// Goes past a row behind copies of these files: the number of its databank, where that counts and
/// has this name; else its file is one of the copies, where it counts. The error is want of memory.
pub(crate) fn pass_row(
    files: &mut Vec<u32>,
    name: &Text,
    row: &KeyedRow,
) -> Result<Option<u32>, AllocError>
    ensures found { IfOk result (λ found. found
        ≡ number_found files.old.items name.now (databank_of row.now.key row.now.row)) }
    ensures files { IfOk result (λ found. found ≡ None → files.new.items
        ≡ files_after files.old.items (databank_of row.now.key row.now.row)) }
{
    let Some(own) = name_in_key(&row.key) else {
        return Ok(None);
    };
    let Some(bank) = databank_in_row(own, &row.row) else {
        return Ok(None);
    };
    if !may_be_copy(files.as_slice(), bank.file) {
        return Ok(None);
    }
    if is_named(name, own) {
        return Ok(Some(bank.number));
    }
    files.push(bank.file)?;
    Ok(None)
}
