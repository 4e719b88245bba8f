//! What rows over the store in memory stand on: that store, as proofs are told of it, the numbers,
//! bytes and picks that lines spell, and why a line doesn't hold.
#![tactic(auto)]

mod error;
mod untold;
mod words;

pub use error::StepError;
pub use untold::Untold;
pub use words::{
    byte_number, byte_of, bytes_of, fewer, hex_of, number, picks_of, short, short_number,
};
