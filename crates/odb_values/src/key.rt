//! Keys, and how they are ordered.
ghost use Rattle.std.specs.Prelude.{◌≡◌, ◌↔◌, ◌*◌, ◌^◌, ◌<◌, ◌≤◌, length, not, IfOk, IsOk, IsErrOf, IsTrue};
ghost use Rattle.std.specs.List.{list_all};
ghost use Rattle.odb_values.specs.Value.{is_null, values_cmp};
ghost use Rattle.odb_values.specs.Key.{IsKeyed, IsKey, width_of_all};

use crate::same::same_items;
use crate::value::cmp_value;
use crate::{Duplicate, Same, Value, Values};
use std::alloc::{AllocError, Global};
use std::cmp::Ordering;
use std::marker::Model;
use thiserror::Error;

/// Why no key is made of some values.
#[derive(Clone, Copy, Debug, PartialEq, Eq, Error)]
pub enum ValuesError {
    /// 1: the key's image would have more than 256 bytes.
    #[error("the image of the key has more than 256 bytes")]
    KeyTooWide,
}

/// The key of a row: 1 to 15 values, none of them Null, whose image has at most 256 bytes.
/// Contracts see it as the list of its values.
///
/// Keys are ordered as `cmp_key` says, and only equal keys tie, so an ordered map may be keyed by
/// them.
#[derive(Clone, Debug, Drop)]
pub struct Key {
    values: Values,
}

impl Model for Key {
    ghost use Rattle.std.specs.Prelude.{List};
    ghost use Rattle.odb_values.specs.declared.value.Value.{Value as Cell};
    ghost use Rattle.odb_values.specs.Key.{IsKey};

    ghost Value = { List Cell };

    ghost view = { λ a. a.values };

    ghost invariant = { λ a. IsKey a.values };
}

impl Key {
    /// The key of these values. [`is_keyed`] is the test of the condition.
    pub fn new(values: Values) -> Result<Key, ValuesError>
        requires { IsKeyed values }
        ensures value { IfOk result (λ key. key ≡ values) }
        ensures narrow { IsOk result ↔ (width_of_all values ≤ 256) }
        ensures wide { IsErrOf result ValuesError.KeyTooWide ↔ (256 < width_of_all values) }
    {
        if width_of_all(values.as_slice()) > 256 {
            return Err(ValuesError::KeyTooWide);
        }
        Ok(Key { values })
    }

    /// The values in key order.
    pub fn as_slice(&self) -> &[Value]
        ensures value { result.now ≡ self.now }
        ensures key { IsKey self.now }
    {
        self.values.as_slice()
    }

    /// The values in key order, as a list of their own.
    pub fn into_values(self) -> Values
        ensures value { result ≡ self }
        ensures key { IsKey self }
    {
        let Key { values } = self;
        values
    }
}

/// Whether a key may be made of these values, but for its width: 1 to 15, none of them Null.
pub fn is_keyed(values: &[Value]) -> bool
    ensures { IsTrue result ↔ IsKeyed values.now }
{
    !values.is_empty() && values.len() <= 15 && are_full(values)
}

/// Whether none of the values is Null.
fn are_full(values: &[Value]) -> bool
    ensures { result ≡ list_all (λ v. not (is_null v)) values.now }
{
    values.iter().all(|value| !value.is_null())
}

/// How many bytes the image of a key or a row of these values has. A value has at most 803, so the
/// condition keeps the sum from wrapping.
pub fn width_of_all(values: &[Value]) -> usize
    requires { 803 * length values.now < 2 ^ 64 }
    ensures { result ≡ width_of_all values.now }
{
    let mut width = 0usize;
    for value in values {
        width += value.width();
    }
    width
}

/// How two lists of values stand as keys: column by column, a proper prefix first. It takes no
/// memory.
pub fn cmp_values(a: &[Value], b: &[Value]) -> Ordering
    ensures { result ≡ values_cmp a.now b.now }
{
    match a {
        [] => match b {
            [] => Ordering::Equal,
            [_, ..] => Ordering::Less,
        },
        [x, xs @ ..] => match b {
            [] => Ordering::Greater,
            [y, ys @ ..] => match cmp_value(x, y) {
                Ordering::Equal => cmp_values(xs, ys),
                other => other,
            },
        },
    }
}

/// How two keys stand: column by column, Int before Text, Int by number, Text by bytes, a proper
/// prefix first.
pub fn cmp_key(a: &Key, b: &Key) -> Ordering
    ensures { result ≡ values_cmp a.now b.now }
{
    cmp_values(a.as_slice(), b.as_slice())
}

impl Duplicate for Key {
    fn copy(&self, alloc: Global) -> Result<Key, AllocError> {
        Ok(Key {
            values: self.values.copy(alloc)?,
        })
    }
}

impl Same for Key {
    fn same(&self, other: &Key) -> bool {
        same_items(self.as_slice(), other.as_slice())
    }
}
