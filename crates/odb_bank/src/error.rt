//! What the calls of a databank file refuse.
ghost use Rattle.std.specs.Prelude.{◌≡◌};
ghost use Rattle.odb_bank.specs.declared.error.BankError.TheVariants.{Fault, NoMemory};
ghost use Rattle.odb_bank.specs.Refusals.{refusal_of};

use crate::Phase;
use odb_device::Failed;
use odb_slots::SlotError;
use std::alloc::{AllocError, AllocFailed};
use thiserror::Error;

/// What the calls of a databank file refuse.
#[derive(Clone, Copy, Debug, PartialEq, Eq, Error)]
pub enum BankError {
    /// 1: a call of the store on the file failed, and the file's count of faults rose. What it
    /// leaves is said at each call.
    #[error("a call on the file failed")]
    Fault,
    /// 2: the file isn't one of this databank in order; `at` is the byte, from the file's start, at
    /// which that shows.
    #[error("the file is damaged at byte {at}")]
    Damaged { at: u64 },
    /// 3: the first entry given isn't the one behind the mark. Nothing has changed.
    #[error("the entry behind {mark} is wanted, and {first} is given")]
    NotNext { mark: u64, first: u64 },
    /// 4: the call isn't one of this phase. Nothing has changed.
    #[error("the turn is in phase {now:?}")]
    Phase { now: Phase },
    /// 5: the file can't get as many slots as the entries need. Nothing has changed.
    #[error("the file can't get as many slots as the entries need")]
    Limit,
    /// Memory ran out. Nothing has changed.
    #[error("out of memory")]
    NoMemory,
}

impl From<Failed> for BankError {
    ghost from_gives = { λ _ e. e ≡ Fault };

    fn from(_failed: Failed) -> BankError {
        BankError::Fault
    }
}

impl From<AllocError> for BankError {
    ghost from_gives = { λ _ e. e ≡ NoMemory };

    fn from(_error: AllocError) -> BankError {
        BankError::NoMemory
    }
}

impl<T: Drop> From<AllocFailed<T>> for BankError {
    ghost from_gives = { λ _ e. e ≡ NoMemory };

    fn from(_error: AllocFailed<T>) -> BankError {
        BankError::NoMemory
    }
}

impl From<SlotError> for BankError {
    ghost from_gives = { λ refused e. e ≡ refusal_of refused };

    fn from(refused: SlotError) -> BankError {
        match refused {
            SlotError::Fault => BankError::Fault,
            SlotError::Malformed { slot } => BankError::Damaged {
                at: 1024 + 1024 * u64::from(slot),
            },
            SlotError::NoMemory => BankError::NoMemory,
        }
    }
}
