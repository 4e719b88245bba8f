//! A host in memory, a store without a console, and a link: each records what is called, and tells
//! all.
//!
//! So a host tells all that a crash at any of its calls may leave, and tests may choose among it.
//! A call without `alloc` takes no memory.
#![tactic(auto)]

mod console;
mod copying;
mod crash;
mod error;
mod files;
mod host;
mod link;
mod mem_store;
mod recorder;
mod setup;
mod store;

pub use error::MemError;
pub use host::MemHost;
pub use link::MemLink;
pub use mem_store::MemStore;
pub use recorder::{Call, Recorded, Refused};
