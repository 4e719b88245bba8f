//! Commits: the book that judges a transaction and seals its entry.
//!
//! A [`Book`] has the log of commits and the window of the history's last entries. `prepare` judges a
//! transaction and makes its entry; `seal` makes it durable. That a book stands for the book of the
//! definitions is the law [`stands_for_book`].
#![tactic(auto)]

mod book;
mod error;
mod laws;
mod ready;

pub use book::Book;
pub use error::CommitError;
pub use laws::{prepares_by_verdict, stands_for_book};
pub use ready::Ready;
