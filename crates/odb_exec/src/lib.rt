//! Statements on rows, executed over any source of rows.
//!
//! A statement is bound once, and its range is walked once in key order; nothing of a table is
//! copied but what the reply tells and what is written.
#![tactic(auto)]

mod changes;
mod columns;
mod copying;
mod delete;
mod effect;
mod error;
mod execution;
mod fitting;
mod insert;
mod kept;
mod on_table;
mod placing;
mod reads;
mod rows;
mod select;
mod told;
mod total;
mod update;
mod walk;

pub use error::Trouble;
pub use execution::execute;
pub use on_table::execute_on;
