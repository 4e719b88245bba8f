//! What the bytes of all files stand for: what they read as, what they open to, by which choices a
//! database may be opened, and what a crash leaves of a machine.
//!
//! Definitions and laws stand here: the opening itself is to be written. The machine, below, knows the
//! files only as they read (`odb_machine/specs/Readings.antt`); this crate says of which bytes they
//! read so.
#![tactic(auto)]

mod laws;

pub use laws::{opens_to_prefix, reads_as_opened};
