//! What memory keeps of a slot.
use odb_model::TableKey;

/// What is known of the gate of a slot, whatever a crash leaves of it.
#[derive(Clone, Copy, Debug, PartialEq, Eq)]
pub enum Gate {
    /// It is closed.
    Shut,
    /// It is open.
    Open,
    /// It is the one or the other: a write of it isn't known to be on the disk.
    Doubtful,
}

/// What memory keeps of a slot that isn't free: all of its record but the row.
#[derive(Debug, Drop)]
pub struct Kept {
    /// The table and the key of the record.
    pub at: TableKey,
    /// The number of the entry that wrote it.
    pub stamp: u64,
    /// The slot, from 0.
    pub slot: u32,
    /// Whether it has a row; without one it is a deletion mark.
    pub has_row: bool,
    /// What is known of the slot's gate.
    pub gate: Gate,
}
