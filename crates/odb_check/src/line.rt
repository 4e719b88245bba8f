//! The lines of a listing.
ghost use Rattle.std.specs.Prelude.{◌≡◌, List, ℕ, option_map, unwrap_or, string_bytes, IfOk};
ghost use Rattle.std.specs.Option.{option_copied};
ghost use Rattle.odb_values.specs.declared.value.Value.TheVariants.{Null};
ghost use Rattle.odb_lex.specs.Written.{Appends};
ghost use Rattle.odb_model.specs.Canonical.{value_text};
ghost use Rattle.odb_model.specs.Print.{values_text};
ghost use Rattle.odb_model.specs.Table.{stored_value, in_columns};
ghost use Rattle.odb_check.specs.Told.{number_line, table_line, row_line};

use odb_catalog::TableDef;
use odb_lex::put_quoted;
use odb_values::{Text, Value};
use std::alloc::{AllocError, Global};

/// The line of the history's number.
pub(crate) fn number_line(alloc: Global, number: u64) -> Result<String, AllocError>
    ensures { IfOk result (λ line. string_bytes line ≡ number_line number) }
{
    format!(in alloc; "NUMBER {number}\n")
}

/// The line of a table with so many rows.
pub(crate) fn table_line(alloc: Global, name: &Text, count: u64) -> Result<String, AllocError>
    ensures { IfOk result (λ line. string_bytes line ≡ table_line name.now count) }
{
    let mut line = String::from_str(alloc, "TABLE ")?;
    line.push_str(name.as_str())?;
    writeln!(line, " {count}")?;
    Ok(line)
}

/// The line of a row, with the values of all columns in column order.
pub(crate) fn row_line(
    alloc: Global,
    table: &TableDef,
    key: &[Value],
    row: &[Value],
) -> Result<String, AllocError>
    ensures { IfOk result
        (λ line. string_bytes line ≡ row_line (in_columns table.now key.now row.now)) }
{
    let mut line = String::from_str(alloc, "ROW ")?;
    put_values(&mut line, table, key, row)?;
    line.push_str("\n")?;
    Ok(line)
}

/// The values of a row in column order, with a comma between two.
fn put_values(
    out: &mut String,
    table: &TableDef,
    key: &[Value],
    row: &[Value],
) -> Result<(), AllocError>
    ensures { Appends result out.old out.new (values_text (in_columns table.now key.now row.now)) }
{
    for place in 0..table.columns().len() as u32 {
        if place > 0 {
            out.push_str(",")?;
        }
        put_value(out, stored_value(table, key, row, place))?;
    }
    Ok(())
}

/// The value of the column at a place, from a key and a row; None stands for NULL.
fn stored_value<'a>(
    table: &TableDef,
    key: &'a [Value],
    row: &'a [Value],
    place: u32,
) -> Option<&'a Value>
    ensures { unwrap_or (option_copied result) Null
        ≡ stored_value table.now key.now row.now place }
{
    match table.place_in_key(place) {
        Some(at) => key.get(at),
        None => match table.place_in_row(place) {
            Some(at) => row.get(at),
            None => None,
        },
    }
}

/// A value, or NULL for None.
fn put_value(out: &mut String, value: Option<&Value>) -> Result<(), AllocError>
    ensures { Appends result out.old out.new
        (value_text (unwrap_or (option_copied value.entry) Null)) }
{
    match value {
        None | Some(Value::Null) => out.push_str("NULL"),
        Some(Value::Int(number)) => write!(out, "{number}"),
        Some(Value::Text(text)) => put_quoted(out, text.as_str()),
    }
}
