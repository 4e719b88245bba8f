//! The outside as traits: numbered files with a model of what a crash leaves, a console, links and
//! a listener.
//!
//! The clauses of files and console speak of one plain record, `World`, and those of a link or a
//! listener of one of its own: the bytes, where they are told, the counts of faults, and whether
//! the input has ended. What tells nothing of content has `None` in the place of bytes, and keeps
//! the rest.
#![tactic(auto)]

mod connection;
mod gate;
mod outside;
mod steps;
mod zeros;

pub use connection::{Link, Listener};
pub use gate::{NoGate, Place, StepGate};
pub use outside::{Console, Failed, Host, Outside, Store};
pub use steps::{say_all, write_synced};
pub use zeros::write_zeros;
