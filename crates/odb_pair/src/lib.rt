//! A value of forty bytes at two places of a file, of which one always counts.
//!
//! The value is changed at the place that doesn't count, behind a closed gate: so a crash at any
//! moment leaves the old value or the new one, or one that a put had tried that broke off. Other
//! parts of the same file may stand behind its first 1,024 bytes: what is written there leaves the
//! pair, by the two laws in `specs/Laws.antt`.
#![tactic(auto)]

mod error;
mod pair;
mod reading;

pub use error::PairError;
pub use pair::Pair;
pub use reading::value_of;
