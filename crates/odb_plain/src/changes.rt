//! What a statement makes of rows.
use odb_model::{Reply, Write, Writes};

/// What a statement makes of one row.
#[derive(Drop)]
pub(crate) enum Change {
    /// It is put.
    Made(Write),
    /// The statement is refused.
    Refused(Reply),
}

/// What a statement makes of all its rows.
#[derive(Drop)]
pub(crate) enum Changes {
    /// These writes, in their order.
    Made(Writes),
    /// The statement is refused.
    Refused(Reply),
}
