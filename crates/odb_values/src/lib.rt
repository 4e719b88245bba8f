//! Values, keys, rows and ranges: what every other crate stores, compares and looks up.
//!
//! Contracts see a [`Text`] as its bytes, a [`Key`] and a [`Row`] as their lists of values, a
//! [`Frozen`] list as its items, and a [`Range`] as the record of its fields. `specs/` has the
//! definitions: what a text and a key are, how values are ordered, and which keys are in a range.
//!
//! A call without `alloc` takes no memory, but for `reserve` and `append` of a [`List`], which
//! keeps its allocator.
#![tactic(auto)]

mod duplicate;
mod edge;
mod frozen;
mod key;
mod list;
mod ord;
mod order;
mod range;
mod row;
mod same;
mod text;
mod value;

pub use duplicate::Duplicate;
pub use edge::Edge;
pub use frozen::{Bytes, Frozen};
pub use key::{Key, ValuesError, cmp_key, cmp_values, is_keyed, width_of_all};
pub use list::List;
pub use order::orders_keys;
pub use range::Range;
pub use row::Row;
pub use same::Same;
pub use text::{Text, is_text};
pub use value::{Value, Values, cmp_value};
