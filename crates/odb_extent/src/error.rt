//! What the calls of an extent file refuse.
ghost use Rattle.std.specs.Prelude.{◌≡◌};
ghost use Rattle.odb_extent.specs.Answers.{refusal_of};
ghost use Rattle.odb_extent.specs.declared.error.ExtentError.TheVariants.{Fault};

use odb_device::Failed;
use odb_pair::PairError;
use thiserror::Error;

/// What the calls of an extent file refuse.
#[derive(Clone, Copy, Debug, PartialEq, Eq, Error)]
pub enum ExtentError {
    /// 1: a call of the store on the file failed, and the file's count of faults rose. What it
    /// leaves is said at each call.
    #[error("a call on the file failed")]
    Fault,
    /// 2: the file has as many extents as it may have. Nothing has changed.
    #[error("the file has as many extents as it may have")]
    Limit,
    /// 3: neither place of the pair is open: the file was never formatted, or `format` was broken
    /// off.
    #[error("neither place of the pair is open")]
    NoOpenPlace,
    /// 4: the pair is malformed, or its limit is 0 or greater than the file may have.
    #[error("the pair is malformed, or its limit is none that the file may have")]
    Malformed,
}

impl From<Failed> for ExtentError {
    ghost from_gives = { λ _ e. e ≡ Fault };

    fn from(_failed: Failed) -> ExtentError {
        ExtentError::Fault
    }
}

impl From<PairError> for ExtentError {
    ghost from_gives = { λ refused e. e ≡ refusal_of refused };

    fn from(refused: PairError) -> ExtentError {
        match refused {
            PairError::Fault => ExtentError::Fault,
            PairError::NoOpenPlace => ExtentError::NoOpenPlace,
            PairError::Malformed => ExtentError::Malformed,
        }
    }
}
