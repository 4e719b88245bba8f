//! The plain program that computes the definitions on lists.
//!
//! The contract of each function is the definition itself, and its body is one equation of it, or
//! one pass over a whole list. It is what the program is compared with, and no part of it.
#![tactic(auto)]

mod above;
mod binding;
mod changes;
mod columns;
mod conflict;
mod edge;
mod effect;
mod effect_of;
mod execution;
mod fitting;
mod insert;
mod kept;
mod kind;
mod names;
mod net;
mod new_values;
mod part;
mod range;
mod reads;
mod rows;
mod serial;
mod sets;
mod state;
mod sums;
mod table;
mod tests_of;
mod told;
mod truth;
mod update;

pub use conflict::first_conflict;
pub use execution::{execute, execute_on};
pub use net::net_writes;
pub use part::rows_in;
pub use rows::Rows;
pub use serial::{SerialRun, alone};
pub use state::state_after;
