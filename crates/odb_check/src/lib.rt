//! What `check` tells of a database: the number of its history, and its tables with their rows.
//!
//! [`Listing`] tells it a line at a time, from any source of rows.
#![tactic(auto)]

mod found;
mod line;
mod listing;

pub use listing::{Listing, OpenTable};
