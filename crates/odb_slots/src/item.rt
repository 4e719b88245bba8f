//! A record as a slot has it.
use odb_values::{Bytes, Frozen};

/// A record: its slot, and what the slot's body says.
#[derive(Debug, Drop)]
pub struct SlotItem {
    /// Its slot, from 0.
    pub slot: u32,
    /// 1 a row, 2 a deletion mark.
    pub kind: u8,
    pub table: u32,
    /// The number of the entry that wrote it.
    pub stamp: u64,
    /// The image of its key, 1 to 256 bytes.
    pub key: Bytes,
    /// The image of its row; of a deletion mark no byte. With the key's at most 1,006 bytes.
    pub row: Bytes,
}

/// Records, in the order of their slots where a scan gives them.
pub type SlotItems = Frozen<SlotItem>;
