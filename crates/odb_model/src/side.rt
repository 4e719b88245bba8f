//! The state of the side of TRANSDB that takes no new records.

/// The state of the side of TRANSDB that takes no new records.
#[derive(Clone, Copy, Debug, PartialEq, Eq)]
pub enum OtherSide {
    /// It holds the entries right before those of the active side.
    Live,
    /// It was begun to be cleared, and holds no entry.
    Dirty,
    /// It is zeros, and holds no entry.
    Clean,
}
