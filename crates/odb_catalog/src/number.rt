//! Numbers in rows of the dictionary.
ghost use Rattle.std.specs.Prelude.{◌≡◌};
ghost use Rattle.odb_model.specs.Dictionary.{is_number_from};
ghost use Rattle.odb_catalog.specs.Rows.{natural, natural_of};

use odb_values::Value;

/// A number that isn't below 0.
fn natural(number: i64) -> Option<u64>
    ensures { result ≡ natural number }
{
    match u64::try_from(number) {
        Ok(number) => Some(number),
        Err(_) => None,
    }
}

/// The number of a value, where it has one that isn't below 0.
pub fn natural_of(value: &Value) -> Option<u64>
    ensures { result ≡ natural_of value.now }
{
    match value {
        Value::Int(number) => natural(*number),
        Value::Null | Value::Text(_) => None,
    }
}

/// Whether a number is one of the dictionary: this one at least, and below 2^32.
pub(crate) fn is_number_from(least: u64, number: u64) -> bool
    ensures { result ≡ is_number_from least number }
{
    least <= number && number < 4294967296
}
