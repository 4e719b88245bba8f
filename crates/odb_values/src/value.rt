//! Values, and how they are ordered.
ghost use Rattle.std.specs.Prelude.{◌≡◌, ◌≤◌};
ghost use Rattle.odb_values.specs.Value.{width_of, is_null, value_cmp};

use crate::{Duplicate, Frozen, Same, Text};
use std::alloc::{AllocError, Global};
use std::cmp::Ordering;

/// A value of a column.
#[derive(Clone, Debug, Drop)]
pub enum Value {
    /// The missing value, which no key holds.
    Null,
    /// A number of an INTEGER column.
    Int(i64),
    /// A text of a VARCHAR column.
    Text(Text),
}

/// A list of values at rest: a prefix of a range, or what a key or a row is made of.
pub type Values = Frozen<Value>;

impl Value {
    /// How many bytes its image has where it is stored: 1 for Null, 9 for a number, and 3 more
    /// than its own for a text, so 803 at most.
    pub fn width(&self) -> usize
        ensures value { result ≡ width_of self.now }
        ensures bound { result ≤ 803 }
    {
        match self {
            Value::Null => 1,
            Value::Int(_) => 9,
            Value::Text(text) => 3 + text.as_bytes().len(),
        }
    }

    /// Whether it is Null.
    pub fn is_null(&self) -> bool
        ensures { result ≡ is_null self.now }
    {
        match self {
            Value::Null => true,
            Value::Int(_) | Value::Text(_) => false,
        }
    }
}

/// How two values stand in a key: Null before Int before Text, Int by number, Text by bytes.
pub fn cmp_value(a: &Value, b: &Value) -> Ordering
    ensures { result ≡ value_cmp a.now b.now }
{
    match (a, b) {
        (Value::Null, Value::Null) => Ordering::Equal,
        (Value::Null, _) => Ordering::Less,
        (_, Value::Null) => Ordering::Greater,
        (Value::Int(a), Value::Int(b)) => a.cmp(b),
        (Value::Int(_), Value::Text(_)) => Ordering::Less,
        (Value::Text(_), Value::Int(_)) => Ordering::Greater,
        (Value::Text(a), Value::Text(b)) => a.as_bytes().cmp(b.as_bytes()),
    }
}

impl Duplicate for Value {
    fn copy(&self, alloc: Global) -> Result<Value, AllocError> {
        match self {
            Value::Null => Ok(Value::Null),
            Value::Int(n) => Ok(Value::Int(*n)),
            Value::Text(text) => Ok(Value::Text(text.copy(alloc)?)),
        }
    }
}

impl Same for Value {
    fn same(&self, other: &Value) -> bool {
        match (self, other) {
            (Value::Null, Value::Null) => true,
            (Value::Int(a), Value::Int(b)) => a == b,
            (Value::Text(a), Value::Text(b)) => a.same(b),
            (Value::Null, Value::Int(_) | Value::Text(_)) => false,
            (Value::Int(_), Value::Null | Value::Text(_)) => false,
            (Value::Text(_), Value::Null | Value::Int(_)) => false,
        }
    }
}
