//! The machine that answers statements: the book of one history, the rows that it makes, and 64
//! sessions.
//!
//! A transaction takes no lock. It collects the ranges that it reads and the rows that it writes,
//! and its COMMIT asks whether an entry of the history that came after a read wrote a row of its
//! range. Where none did and writes are left, they become the next entry, whose record is on the
//! disk before the COMMIT is answered. A definition, CREATE TABLE or DROP TABLE, becomes an entry in the
//! same way, by what it writes into the dictionary.
#![tactic(auto)]

mod carrying;
mod defining;
mod error;
mod executing;
mod replies;
mod sealing;
mod system;
mod taking;

pub use error::SystemError;
pub use system::System;
