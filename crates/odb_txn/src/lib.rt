//! An open transaction: what it has read, and what it intends.
//!
//! A [`Transaction`] keeps of its statements what a commit is judged by, and no more: the ranges
//! that they read in a [`ReadSet`], and the last write to each row in `Intentions`. What is kept
//! stands for the transaction of the definitions, by the law `stands_for_transaction`.
#![tactic(auto)]

mod error;
mod laws;
mod range_order;
mod read_set;
mod transaction;

pub use error::TxnError;
pub use laws::{judges_alike, means_as_it_writes, stands_for_transaction, tells_by_statement};
pub use read_set::ReadSet;
pub use transaction::Transaction;
