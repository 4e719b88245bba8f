//! What is ready to be committed.
use odb_model::Entry;
use odb_values::Bytes;

/// What `prepare` makes of a transaction that nothing refuses.
#[derive(Debug, Drop)]
pub enum Ready {
    /// It leaves nothing, and is over: so many entries the history has.
    Ended(u64),
    /// This entry is to be sealed, and this is its image.
    Sealing(Entry, Bytes),
}
