//! The canonical text of a statement.
//!
//! [`print_statement`] gives what `statement_text` of `odb_model` says, byte by byte, and by
//! [`prints_back`] that text spells the statement.
#![tactic(auto)]

mod error;
mod laws;
mod predicates;
mod put;
mod statements;
mod sums;
mod tables;
mod values;

pub use error::PrintError;
pub use laws::prints_back;
pub use statements::print_statement;
