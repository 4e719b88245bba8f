//! Numbers in fields of fixed widths, one behind another, with zeros behind them: definitions, and
//! the laws that they are read as they were written.
//!
//! A payload of fixed size that holds a few numbers is stated by the list of its widths, and its
//! reading comes with these laws.
#![tactic(auto)]

mod laws;

pub use laws::reads_fields;
