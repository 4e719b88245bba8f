//! Where statements read rows.
//!
//! A [`RowSource`] tells a state, a row at a time. [`Intentions`] are what a transaction has
//! written, in the order of the keys; an [`Overlay`] lays them over a source and is one again.
//! `stand` and `is_from` say how a key stands to a range, for whoever searches keys in their order.
#![tactic(auto)]

mod intentions;
mod laws;
mod overlay;
mod row_source;
mod shown;
mod standing;

pub use intentions::Intentions;
pub use laws::{intends_as_it_writes, lays_rows_over, walks_a_range};
pub use overlay::{OverlaidRow, Overlay};
pub use row_source::{KeyedRow, RowError, RowSource};
pub use shown::{LentRow, ShownRow};
pub use standing::{cmp_table_keys, is_from, stand, stands_without_gap};
