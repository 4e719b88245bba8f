//! What a definition does.
use odb_model::Writes;

/// What a definition does: its writes, and its work on a file.
#[derive(Debug, Drop)]
pub struct Definition {
    /// What it puts into the dictionary and takes out of it, in ascending order of table and key: one
    /// entry of the history.
    pub writes: Writes,
    /// The file on which it works, or 0 where it works on none.
    pub file: u32,
    /// What it does with that file.
    pub work: FileWork,
}

/// What a definition does with a file, beside its writes.
#[derive(Clone, Copy, Debug, PartialEq, Eq)]
pub enum FileWork {
    /// Nothing: it works on no file.
    Nothing,
}
