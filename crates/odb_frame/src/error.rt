//! What reading and writing frames refuse.
ghost use Rattle.odb_frame.specs.declared.error.FrameError.TheVariants.{LinkFault, NoMemory};
ghost use Rattle.std.specs.Prelude.{◌≡◌};

use odb_device::Failed;
use std::alloc::AllocError;
use thiserror::Error;

/// What reading and writing frames refuse.
#[derive(Clone, Copy, Debug, PartialEq, Eq, Error)]
pub enum FrameError {
    /// 1: the frame's body would have so many bytes, more than 65,536. Nothing of it was received.
    #[error("a body of {length} bytes is too long")]
    TooLong { length: u32 },
    /// 2: the bytes received end inside a frame.
    #[error("the input ends inside a frame")]
    Cut,
    /// 3: a call of the link failed, and its count of faults rose.
    #[error("a call of the link failed")]
    LinkFault,
    /// There is no memory for the body. The frame's length was received, and nothing of the body.
    #[error("out of memory")]
    NoMemory,
}

impl From<Failed> for FrameError {
    ghost from_gives = { λ _ e. e ≡ LinkFault };

    fn from(_failed: Failed) -> FrameError {
        FrameError::LinkFault
    }
}

impl From<AllocError> for FrameError {
    ghost from_gives = { λ _ e. e ≡ NoMemory };

    fn from(_error: AllocError) -> FrameError {
        FrameError::NoMemory
    }
}
