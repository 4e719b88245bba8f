//! Copies of values from where they lie.
ghost use Rattle.std.specs.Prelude.{◌≡◌, IfOk};
ghost use Rattle.odb_eval.specs.Bound.{source_value};

use odb_eval::Source;
use odb_values::{Duplicate, Value};
use std::alloc::{AllocError, Global};

/// A copy of the value from a source. The error is want of memory.
pub fn copied(
    alloc: Global,
    source: &Source,
    key: &[Value],
    row: &[Value],
) -> Result<Value, AllocError>
    ensures { IfOk result (λ value. value ≡ source_value key.now row.now source.now) }
{
    match source.value(key, row) {
        Some(value) => value.copy(alloc),
        None => Ok(Value::Null),
    }
}
