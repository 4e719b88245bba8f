//! What the calls of a pair refuse.
ghost use Rattle.std.specs.Prelude.{◌≡◌};
ghost use Rattle.odb_pair.specs.declared.error.PairError.TheVariants.{Fault};

use odb_device::Failed;
use thiserror::Error;

/// What the calls of a pair refuse.
#[derive(Clone, Copy, Debug, PartialEq, Eq, Error)]
pub enum PairError {
    /// 1: a call of the store on the pair's file failed, and the file's count of faults rose. What
    /// it leaves is said at each call.
    #[error("a call on the file failed")]
    Fault,
    /// 2: neither gate is open: the file was never formatted, or `format` was broken off.
    #[error("neither place is open")]
    NoOpenPlace,
    /// 3: a place is open and the file is shorter than 1,024 bytes, or both are open and neither
    /// number is the other's plus 1, modulo 2^64.
    #[error("the places of the pair are malformed")]
    Malformed,
}

impl From<Failed> for PairError {
    ghost from_gives = { λ _ e. e ≡ Fault };

    fn from(_failed: Failed) -> PairError {
        PairError::Fault
    }
}
