//! What is known of a log's list.

/// What memory knows of the list of the log's records.
#[derive(Clone, Copy, Debug, PartialEq, Eq)]
pub enum ListState {
    /// All of it.
    Known,
    /// All but whether the record is there whose gate was to be opened when a call failed.
    Unknown,
    /// The file is Dirty: it holds no entry, and its content may be any bytes.
    Dirty,
}
