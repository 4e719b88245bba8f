//! Reading statements and control lines.
//!
//! [`parse`] answers each text as the grammar of `odb_model` says: with the statement that it
//! spells, or with what refuses it, and where. [`control_of`] gives the control that a line asks
//! for, and [`decimal_of`] reads a number without a leading zero. Each text has one answer
//! ([`answers_once`]).
//!
//! `specs/` has the *reading functions*: for each function of the parser one that gives what it
//! gives, on a list of what the text's tokens stand for. `proofs/` shows that they fit the grammar
//! (`..Fit`) and read all that it spells (`..Read`).
//!
//! A call without `alloc` takes no memory.
#![tactic(auto)]

mod columns;
mod control;
mod decimal;
mod definitions;
mod error;
mod kind;
mod laws;
mod lists;
mod predicates;
mod statements;
mod sums;
mod text;
mod tokens;

pub use control::control_of;
pub use decimal::decimal_of;
pub use error::ParseError;
pub use laws::answers_once;
pub use text::parse;
