//! Rows by key: the table of all committed rows, the entries that aren't folded in yet, and what a
//! transaction sees of both with its own intentions laid over.
//!
//! `KeyTable` is an ordered map, whose contracts are about the state that it stands for. It is
//! keyed by spots and not by table keys alone, so that a search may begin between two keys, as
//! behind all those that start with some values.
#![tactic(auto)]

mod begin;
mod committed;
mod copying;
mod error;
mod key_table;
mod map;
mod pending;
mod place;
mod rows;
mod spot;

pub use committed::CommittedRows;
pub use error::TableError;
pub use key_table::KeyTable;
pub use pending::{Pending, Placed};
pub use rows::Rows;
