//! Files that grow by extents of 1 MiB, behind a pair that says how many there are.
//!
//! What lies inside the limit is the owner's: a call here leaves it as it is, at every moment. An
//! extent that is added is zeros, on the disk, before any crash can leave a limit that counts it.
//! No call takes memory but arrays on the stack.
#![tactic(auto)]

mod error;
mod extents;
mod limits;
mod zeroing;

pub use error::ExtentError;
pub use extents::Extents;
