//! Why a commit isn't made.
ghost use Rattle.std.specs.Prelude.{◌≡◌};
ghost use Rattle.odb_commit.specs.declared.error.CommitError.TheVariants as e;

use odb_txn::TxnError;
use odb_validate::{Aged, WindowError};
use thiserror::Error;

/// Why a commit isn't made, or isn't known to be.
#[derive(Clone, Copy, Debug, PartialEq, Eq, Error)]
pub enum CommitError {
    /// 1: the entry of this number is in doubt: its record may be in the log, and only a new opening
    /// tells. The transaction stands.
    #[error("entry {number} is in doubt")]
    Halted { number: u64 },
    /// 2: the transaction read where the history had `oldest` entries, and those up to `start` are no
    /// longer kept, so that it can't be judged. It is over.
    #[error("read where the history had {oldest} entries, before the window's start at {start}")]
    Aged { oldest: u64, start: u64 },
    /// 3: the entry of this number wrote what the transaction had read before. It is over.
    #[error("entry {number} wrote what was read before")]
    Conflict { number: u64 },
    /// 4: the record needs so many bytes, and so many are left on the active side. The transaction
    /// stands.
    #[error("the record needs {need} bytes of {room}")]
    Full { need: u64, room: u64 },
    /// 5: a call on the log's file failed before the record's gate was written. The entry isn't there,
    /// and the transaction stands.
    #[error("a call on the file failed before the commit")]
    FaultBefore,
    /// 6: a call on the log's file failed from the writing of the record's gate on. Whether the entry
    /// of this number is there is told by the next opening alone. The transaction is over.
    #[error("it is not known whether entry {number} is there")]
    InDoubt { number: u64 },
    /// 7: the history has as many entries as it may have. The transaction stands.
    #[error("the history is full")]
    HistoryFull,
    /// Memory ran out. The transaction stands.
    #[error("memory ran out")]
    NoMemory,
}

impl From<Aged> for CommitError {
    ghost from_gives = { λ aged error. error ≡ e.Aged aged.oldest aged.start };

    fn from(aged: Aged) -> CommitError {
        CommitError::Aged {
            oldest: aged.oldest,
            start: aged.start,
        }
    }
}

impl From<TxnError> for CommitError {
    ghost from_gives = { λ _ error. error ≡ e.NoMemory };

    fn from(error: TxnError) -> CommitError {
        match error {
            TxnError::NoMemory => CommitError::NoMemory,
        }
    }
}

impl From<WindowError> for CommitError {
    ghost from_gives = { λ _ error. error ≡ e.NoMemory };

    fn from(error: WindowError) -> CommitError {
        match error {
            WindowError::NoMemory => CommitError::NoMemory,
        }
    }
}
