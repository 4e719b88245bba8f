//! Databank files: records in slots, up to a mark in the history of commits.
//!
//! A file stands for the history where its open records are writes of it and none of the last
//! writes up to the mark lacks. The calls of a turn keep it standing at each moment; the laws say
//! why, each as the contract of a function with nothing to do.
#![tactic(auto)]

mod assigning;
mod bank;
mod begin;
mod closing;
mod decoding;
mod error;
mod fields;
mod files;
mod growing;
mod kept;
mod known;
mod latest;
mod laws;
mod making;
mod opens;
mod phase;
mod room;
mod rows;
mod tree;
mod turn;
mod walking;

pub use bank::Bank;
pub use error::BankError;
pub use fields::BankFields;
pub use files::{lies_in_content, spells_records};
pub use kept::{Gate, Kept};
pub use known::{closes_stale, keeps_known, stands_by_what_is_known};
pub use laws::{gathers_run, keeps_banks, keeps_standing, reads_history, replays_history};
pub use phase::Phase;
