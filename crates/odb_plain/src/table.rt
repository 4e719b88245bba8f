//! The table of a name, as the dictionary of a state tells it.
ghost use Rattle.std.specs.Prelude.{◌≡◌, IfOk, IsTrue};
ghost use Rattle.odb_model.specs.Dictionary.{table_of, in_dictionary, has_name_form};

use crate::Rows;
use odb_catalog::{TableDef, dictionary_key, has_name_form, table_in_row};
use odb_model::TableKey;
use odb_values::Text;
use std::alloc::{AllocError, Global};

/// The number of the dictionary's table.
const DICTIONARY: u32 = 6;

/// Where the row of the dictionary stands that tells of a table.
fn in_dictionary(alloc: Global, name: &Text) -> Result<TableKey, AllocError>
    requires { IsTrue (has_name_form name.now) }
    ensures { IfOk result (λ at. at ≡ in_dictionary name.now) }
{
    Ok(TableKey {
        table: DICTIONARY,
        key: dictionary_key(alloc, name)?,
    })
}

/// The table of this name: KV is fixed, another is told by its row in the dictionary. The error is
/// want of memory.
pub(crate) fn table_of(
    alloc: Global,
    rows: &Rows,
    name: &Text,
) -> Result<Option<TableDef>, AllocError>
    ensures { IfOk result (λ table. table ≡ table_of rows.now name.now) }
{
    if name.as_bytes() == b"KV".as_slice() {
        return Ok(Some(TableDef::kv(alloc)?));
    }
    if !has_name_form(name.as_bytes()) {
        return Ok(None);
    }
    match rows.get(&in_dictionary(alloc, name)?) {
        Some(row) => table_in_row(alloc, row),
        None => Ok(None),
    }
}
