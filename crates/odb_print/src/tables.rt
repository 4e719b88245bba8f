//! The texts of columns, as a CREATE TABLE has them.
ghost use Rattle.odb_lex.specs.Written.{Appends};
ghost use Rattle.odb_model.specs.Canonical.{kind_text, column_text};

use crate::put::Put;
use odb_model::ColumnText;
use std::alloc::AllocError;

impl Put for ColumnText {
    ghost text = { column_text };

    fn put(&self, out: &mut String) -> Result<(), AllocError> {
        self.name.put(out)?;
        put_kind(out, self.length)?;
        out.push_str(if self.not_null { " NOT NULL" } else { "" })
    }
}

/// The kind of a column, with the most characters of a VARCHAR.
fn put_kind(out: &mut String, length: Option<u64>) -> Result<(), AllocError>
    ensures { Appends result out.old out.new (kind_text length) }
{
    match length {
        None => out.push_str(" INTEGER"),
        Some(length) => write!(out, " VARCHAR({length})"),
    }
}
