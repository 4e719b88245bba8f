//! What a row has to meet before it is put into its table.
ghost use Rattle.std.specs.Prelude.{◌≡◌, ◌*◌, ◌+◌, ◌<◌, ◌≤◌, ◌^◌, length};
ghost use Rattle.std.specs.List.{list_any, zip};
ghost use Rattle.odb_values.specs.Value.{is_null};
ghost use Rattle.odb_model.specs.Table.{row_of};
ghost use Rattle.odb_model.specs.Width.{row_fits};
ghost use Rattle.odb_model.specs.Fitting.{characters, lacks_item, lacks_value, is_long_for, has_long_text, row_refusal};

use odb_catalog::{ColumnDef, TableDef};
use odb_model::Reply;
use odb_values::{Text, Value, width_of_all};

/// The most bytes of a key's image.
const WIDEST_KEY: usize = 256;

/// How many characters a text has: the bytes with which one begins.
fn characters(text: &Text) -> usize
    ensures { result ≡ characters text.now }
{
    let bytes = text.as_bytes();
    bytes
        .iter()
        .filter(|byte| **byte < 128 || 192 <= **byte)
        .count()
}

/// Whether a value is a text of more characters than this.
fn is_long_for(most: u32, value: &Value) -> bool
    ensures { result ≡ is_long_for most value.now }
{
    match value {
        Value::Text(text) => (most as usize) < characters(text),
        Value::Null => false,
        Value::Int(_) => false,
    }
}

/// Whether one of these values is Null.
pub(crate) fn has_null(values: &[Value]) -> bool
    ensures { result ≡ list_any is_null values.now }
{
    values.iter().any(|value| value.is_null())
}

/// Whether one of these values is Null at a column that takes none.
fn lacks_item(columns: &[ColumnDef], values: &[Value]) -> bool
    ensures { result ≡ list_any lacks_item (zip columns.now values.now) }
{
    match columns {
        [] => false,
        [column, columns @ ..] => match values {
            [] => false,
            [value, values @ ..] => {
                (column.not_null() && value.is_null()) || lacks_item(columns, values)
            }
        },
    }
}

/// Whether one of these texts has more characters than its column takes.
fn has_long_item(columns: &[ColumnDef], values: &[Value]) -> bool
    ensures { result
        ≡ list_any (λ item. is_long_for item.0.kind item.1) (zip columns.now values.now) }
{
    match columns {
        [] => false,
        [column, columns @ ..] => match values {
            [] => false,
            [value, values @ ..] => {
                is_long_for(column.kind(), value) || has_long_item(columns, values)
            }
        },
    }
}

/// Whether a key and a row of these images fit together, by the format of the database.
fn row_fits(format: u16, key: &[Value], row: &[Value]) -> bool
    requires key { length key.now ≤ 15 }
    requires row { length row.now ≤ 15 }
    ensures { result ≡ row_fits format key.now row.now }
{
    let row = width_of_all(row);
    if format == 2 {
        row <= 7936
    } else {
        row <= 1006 && width_of_all(key) <= 1006 - row
    }
}

/// The first refusal of a row with this key, whose values are given in column order, and those
/// outside the key once more. It takes no memory.
pub(crate) fn row_refusal(
    format: u16,
    table: &TableDef,
    key: &[Value],
    values: &[Value],
    row: &[Value],
) -> Option<Reply>
    requires key { length key.now ≤ 15 }
    requires row { row.now ≡ row_of table.now values.now }
    ensures { result ≡ row_refusal format table.now key.now values.now }
{
    let columns = table.columns();
    if has_null(key) || lacks_item(columns, values) {
        return Some(Reply::NullNotAllowed);
    }
    if has_long_item(columns, values) {
        return Some(Reply::TooLong);
    }
    if width_of_all(key) > WIDEST_KEY {
        return Some(Reply::KeyTooWide);
    }
    if !row_fits(format, key, row) {
        return Some(Reply::RowTooWide);
    }
    None
}
