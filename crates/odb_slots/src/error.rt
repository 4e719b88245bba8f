//! What the calls on slots refuse.
ghost use Rattle.std.specs.Prelude.{◌≡◌};
ghost use Rattle.odb_slots.specs.declared.error.SlotError.TheVariants.{Fault, NoMemory};

use odb_device::Failed;
use std::alloc::AllocError;
use thiserror::Error;

/// What the calls on slots refuse.
#[derive(Clone, Copy, Debug, PartialEq, Eq, Error)]
pub enum SlotError {
    /// 1: a call of the store on the file failed, and the file's count of faults rose.
    #[error("a call on the file failed")]
    Fault,
    /// 2: this slot is open, and its body isn't in the slot grammar.
    #[error("slot {slot} is malformed")]
    Malformed { slot: u32 },
    /// There is no memory for a record that is read.
    #[error("out of memory")]
    NoMemory,
}

impl From<Failed> for SlotError {
    ghost from_gives = { λ _ e. e ≡ Fault };

    fn from(_failed: Failed) -> SlotError {
        SlotError::Fault
    }
}

impl From<AllocError> for SlotError {
    ghost from_gives = { λ _ e. e ≡ NoMemory };

    fn from(_error: AllocError) -> SlotError {
        SlotError::NoMemory
    }
}
