//! The machine of the whole server: its state, and what each line of a script may do to it.
//!
//! The definitions stand in `specs/`: the sides of the log, copies and the turns that carry entries to
//! them, the longer log, what an opening finds, the steps of sessions and of control lines, and a
//! script played. The laws about them are the contracts of the functions in `laws`.
#![tactic(auto)]

mod laws;

pub use laws::runs_serially;
