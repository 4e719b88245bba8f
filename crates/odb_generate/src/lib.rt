//! The script that `generate` makes from a number of rounds, and the summary of its replies.
//!
//! [`Generator`] makes the script a line at a time and keeps none. [`Summary`] counts the replies,
//! and [`print_summary`] gives the six lines that are said in the end.
#![tactic(auto)]

mod generator;
mod step;
mod summary;

pub use generator::Generator;
pub use summary::{Summary, print_summary};
