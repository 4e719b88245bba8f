//! The longer log of a database, file 1: the entries of the history from a first number on.
//!
//! It takes the entries of the log of commits before that one lets them go. Each entry is one record,
//! and counts from the moment at which the record's gate is open on the disk. The file has extents
//! of 1 MiB, up to 1,024 of them. Here it is made, opened, read and added to; no entry is dropped yet.
#![tactic(auto)]

mod adding;
mod appending;
mod error;
mod fields;
mod finishing;
mod logdb;
mod making;
mod opening;
mod reading;
mod state;

pub use error::LogdbError;
pub use fields::LogFields;
pub use logdb::Logdb;
pub use state::ListState;
