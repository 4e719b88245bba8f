//! Truth of predicates and values of expressions on a row, as a key and the values outside it.
//!
//! Names are bound to places once, by `Filter::of` and `BoundExpression::of`; a row is then judged
//! without a look at a name, without a copy of its values, and without memory.
#![tactic(auto)]

mod above;
mod compare;
mod error;
mod expression;
mod filter;
mod joint;
mod judge;
mod source;
mod value;

pub use error::EvalError;
pub use expression::{BoundExpression, BoundTerm, BoundTerms};
pub use filter::Filter;
pub use judge::{keeps, truth};
pub use source::Source;
pub use value::value_of;
