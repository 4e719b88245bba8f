//! The kinds of values and columns.
ghost use Rattle.std.specs.Prelude.{◌≡◌, option_map};
ghost use Rattle.odb_model.specs.Binding.{value_kind, column_kind, is_words, differ, named_kind, operand_kind};
ghost use Rattle.odb_plain.specs.Kinds.{kind_in};

use odb_catalog::{ColumnDef, TableDef};
use odb_model::Operand;
use odb_values::{Text, Value};

/// The kind of a value or of a column.
#[derive(Clone, Copy, Debug, PartialEq, Eq)]
pub(crate) enum Kind {
    /// A number: INTEGER.
    Number,
    /// A text: VARCHAR.
    Words,
}

/// The kind of a value; Null is of any.
pub(crate) fn value_kind(value: &Value) -> Option<Kind>
    ensures { option_map kind_in result ≡ value_kind value.now }
{
    match value {
        Value::Null => None,
        Value::Int(_) => Some(Kind::Number),
        Value::Text(_) => Some(Kind::Words),
    }
}

/// The kind of a column's values.
pub(crate) fn column_kind(column: &ColumnDef) -> Kind
    ensures { kind_in result ≡ column_kind column.now }
{
    if column.kind() == 0 {
        Kind::Number
    } else {
        Kind::Words
    }
}

/// Whether it is known to be a text's.
pub(crate) fn is_words(kind: Option<Kind>) -> bool
    ensures { result ≡ is_words (option_map kind_in kind) }
{
    match kind {
        Some(Kind::Words) => true,
        Some(Kind::Number) | None => false,
    }
}

/// Whether both kinds are known, and they are two.
pub(crate) fn differ(a: Option<Kind>, b: Option<Kind>) -> bool
    ensures { result ≡ differ (option_map kind_in a) (option_map kind_in b) }
{
    match (a, b) {
        (Some(Kind::Number), Some(Kind::Words)) => true,
        (Some(Kind::Words), Some(Kind::Number)) => true,
        (Some(Kind::Number), Some(Kind::Number)) => false,
        (Some(Kind::Words), Some(Kind::Words)) => false,
        (Some(Kind::Number), None) => false,
        (Some(Kind::Words), None) => false,
        (None, _) => false,
    }
}

/// The kind of the column of this name; None where there is no such column.
pub(crate) fn named_kind(table: &TableDef, name: &Text) -> Option<Kind>
    ensures { option_map kind_in result ≡ named_kind table.now.columns name.now }
{
    match table.column_place(name) {
        Some(place) => Some(column_kind(&table.columns()[place as usize])),
        None => None,
    }
}

/// The kind of an operand.
pub(crate) fn operand_kind(table: &TableDef, operand: &Operand) -> Option<Kind>
    ensures { option_map kind_in result ≡ operand_kind table.now.columns operand.now }
{
    match operand {
        Operand::Column(name) => named_kind(table, name),
        Operand::Literal(value) => value_kind(value),
    }
}
