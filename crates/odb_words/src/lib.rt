//! The word of the running server, and what each part of it knows of the history.
//!
//! The word is one count, which all threads see: how many entries the history has. Beside it stand
//! seats, tokens of no bytes: one for each session, its [`Pass`]; one beside the part that decides
//! commits, [`BookSeat`]; one beside the rows that statements read, [`ViewSeat`]; one for each copy
//! of a databank and one for LOGDB, [`CopySeat`]. A seat has a list, the entries that it has seen;
//! each list is a prefix of the ViewSeat's. An entry is appended by [`ViewSeat::append`] alone,
//! with the one pen, which the BookSeat has, and the one right of the entry's session, which its
//! pass has. What a seat has seen goes to another one by a [`Note`].
//!
//! [`steps_keep_the_rule`] and [`the_rule_says`] are the rule that holds between any two steps,
//! whatever threads take them. No file and no lock is used here; nothing but [`Passes::new`] takes
//! memory.
#![tactic(auto)]

mod error;
mod laws;
mod making;
mod opening;
mod pass_list;
mod rule;
mod seats;
mod steps;
mod view;

pub use error::WordError;
pub use laws::{steps_keep_the_rule, the_rule_says};
pub use making::{CopySeats, Passes, WordParts};
pub use opening::{OpenedRows, Opening};
pub use pass_list::PassList;
pub use seats::{BookSeat, CopySeat, Note, Pass, ViewSeat};
