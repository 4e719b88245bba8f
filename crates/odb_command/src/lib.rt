//! The words of the command line: which commands there are, and which words ask for one.
//!
//! [`command_of`] reads the words by a command of `clap`, and tells exactly which words are refused.
#![tactic(auto)]

mod choice;
mod command;
mod error;
mod laws;
mod number;
mod read;
mod words;

pub use choice::{Choice, Choices};
pub use command::Command;
pub use error::CommandError;
pub use laws::asks_for_one;
pub use read::command_of;
