//! The definitions that the whole server is proved against, and the types that they speak of.
//!
//! The definitions stand in `specs/`: states and histories, what a statement means and which ranges
//! it reads, the lines of a script and the texts of replies, and when a transaction is serial. The
//! laws about them are the contracts of the functions in `laws`.
#![tactic(auto)]

mod control;
mod entry;
mod event;
mod intention;
mod joint;
mod keyword;
mod laws;
mod numbers;
mod outcome;
mod phase;
mod predicate;
mod reply;
mod side;
mod sign;
mod statement;
mod status;
mod table_key;
mod truth;
mod write;

pub use control::Control;
pub use entry::{Entries, Entry};
pub use event::Event;
pub use intention::Intention;
pub use keyword::Keyword;
pub use laws::{
    agrees_on_reads, answers_alone, covers_matches, intends_net, stays_storable, tells_tables,
};
pub use numbers::{LF, SESSIONS};
pub use outcome::{Outcome, Ranges, Read};
pub use phase::{CopyLine, CopyLines, CopyPhase, LogSpan, StateReply};
pub use predicate::{Compare, Operand, Predicate};
pub use reply::{Head, Reply};
pub use side::OtherSide;
pub use sign::Sign;
pub use statement::{
    Assignment, Assignments, ColumnText, ColumnTexts, Expression, Names, Statement, Term, Terms,
    ValueRows, What,
};
pub use status::Status;
pub use table_key::TableKey;
pub use truth::Truth;
pub use write::{Write, Writes};
