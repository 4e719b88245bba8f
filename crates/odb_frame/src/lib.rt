//! Frames: bodies over a connection, each behind its length.
//!
//! A frame is the length of its body in four bytes, big-endian, and the body. It is read however
//! the link cuts its bytes, and takes no byte of the next one. A body's length is judged before
//! memory is taken for it, so that what a peer sends takes 65,536 bytes at most.
#![tactic(auto)]

mod error;
mod laws;
mod reading;
mod sending;

pub use error::FrameError;
pub use laws::{finds_first, reads_written};
pub use reading::read_frame;
pub use sending::{send_all, write_frame};
