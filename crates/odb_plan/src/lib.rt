//! What a statement asks of its table: what refuses it by its text and the dictionary alone, its
//! parts with their names bound to places, and the range of keys that it reads.
#![tactic(auto)]

mod binding;
mod edge;
mod error;
mod kind;
mod operands;
mod predicates;
mod range;
mod refusal;
mod sets;
mod tests_of;
mod tuples;
mod what;

pub use binding::{BoundStatement, Set, Sets, bind};
pub use error::PlanError;
pub use range::range_of;
pub use refusal::binding_refusal;
pub use what::{BoundWhat, Sources};
