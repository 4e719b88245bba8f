//! The texts of names and values.
ghost use Rattle.odb_model.specs.Canonical.{value_text, tuple_text};

use crate::put::{Put, put_joined};
use odb_lex::put_quoted;
use odb_values::{Text, Value, Values};
use std::alloc::AllocError;

/// A name, which is in capitals.
impl Put for Text {
    ghost text = { λ name. name };

    fn put(&self, out: &mut String) -> Result<(), AllocError> {
        out.push_str(self.as_str())
    }
}

impl Put for Value {
    ghost text = { value_text };

    fn put(&self, out: &mut String) -> Result<(), AllocError> {
        match self {
            Value::Null => out.push_str("NULL"),
            Value::Int(number) => write!(out, "{number}"),
            Value::Text(text) => put_quoted(out, text.as_str()),
        }
    }
}

/// A tuple of an INSERT.
impl Put for Values {
    ghost text = { tuple_text };

    fn put(&self, out: &mut String) -> Result<(), AllocError> {
        out.push_str("(")?;
        put_joined(out, self.as_slice())?;
        out.push_str(")")
    }
}
