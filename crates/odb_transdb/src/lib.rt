//! TRANSDB: the log of commits, file 0 of a database.
//!
//! A commit is one record, and counts from the moment at which that record's gate is open on the
//! disk. Two sides of the file take records in turn; what the sides are stands in a pair at the
//! file's front.
#![tactic(auto)]

mod clean;
mod create;
mod error;
mod force;
mod header;
mod opening;
mod places;
mod reading;
mod run;
mod transdb;
mod turn;
mod zeros;

pub use error::TransdbError;
pub use header::Header;
pub use opening::OpenedTransdb;
pub use transdb::Transdb;
