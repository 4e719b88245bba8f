//! The texts of values.
ghost use Rattle.std.specs.Prelude.{OnOk};
ghost use Rattle.odb_lex.specs.Written.{Appends};
ghost use Rattle.odb_model.specs.Canonical.{value_text};
ghost use Rattle.odb_model.specs.Print.{values_text};
ghost use Rattle.odb_reply.specs.Unbroken.{IsUnbroken, IsUnbrokenRow};

use odb_lex::put_quoted;
use odb_values::Value;
use std::alloc::AllocError;

/// The values of a row with a comma between two.
pub fn put_values(out: &mut String, values: &[Value]) -> Result<(), AllocError>
    ensures text { Appends result out.old out.new (values_text values.now) }
    ensures unbroken { OnOk result (IsUnbrokenRow values.now) }
{
    for (at, value) in values.iter().enumerate() {
        if at > 0 {
            out.push_str(",")?;
        }
        put_value(out, value)?;
    }
    Ok(())
}

/// A value, whose text has no LF, since a text that is stored has none.
fn put_value(out: &mut String, value: &Value) -> Result<(), AllocError>
    ensures text { Appends result out.old out.new (value_text value.now) }
    ensures unbroken { IsUnbroken value.now }
{
    match value {
        Value::Null => out.push_str("NULL"),
        Value::Int(number) => write!(out, "{number}"),
        Value::Text(text) => put_quoted(out, text.as_str()),
    }
}
