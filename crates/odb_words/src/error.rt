//! Why no word was made.
ghost use Rattle.odb_words.specs.declared.error.WordError.TheVariants.{NoMemory};
ghost use Rattle.std.specs.Prelude.{◌≡◌};

use std::alloc::AllocError;
use thiserror::Error;

/// Why no word was made.
#[derive(Clone, Copy, Debug, PartialEq, Eq, Error)]
pub enum WordError {
    /// Memory was missing.
    #[error("out of memory")]
    NoMemory,
}

impl From<AllocError> for WordError {
    ghost from_gives = { λ _ e. e ≡ NoMemory };

    fn from(_error: AllocError) -> WordError {
        WordError::NoMemory
    }
}
