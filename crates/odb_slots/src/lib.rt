//! The slots of a databank file: records behind gates of one byte, which count where the gate is
//! open.
//!
//! Slot n stands at byte 1,024 + 1,024 * n, in 1,024 bytes: its gate, and its body of 1,023. Here
//! key and row are bytes; what they spell is judged above. A call without `alloc` takes no memory.
#![tactic(auto)]

mod bodies;
mod error;
mod gates;
mod head;
mod item;
mod laws;
mod scanning;
mod slot;

pub use bodies::put_bodies;
pub use error::SlotError;
pub use gates::{close_stale, open_gates};
pub use item::{SlotItem, SlotItems};
pub use laws::{leaves_records, lists_records, reads_images};
pub use scanning::scan;
pub use slot::read_slot;
