//! Entries one behind another in a record log: each record's payload is the image of the entry of
//! the record's number.
//!
//! It is what every log of entries has in common: what the payloads of a list stand for, and the
//! walk over them in bounded memory.
#![tactic(auto)]

mod error;
mod reading;

pub use error::EntriesError;
pub use reading::add_entries;
