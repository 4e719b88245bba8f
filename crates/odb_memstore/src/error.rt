//! What the calls for tests may refuse.
use std::alloc::AllocError;
use thiserror::Error;

/// What the calls for tests may refuse.
#[derive(Debug, Drop, Error)]
pub enum MemError {
    /// There is no memory for it; nothing has changed.
    #[error("out of memory")]
    NoMemory,
}

impl From<AllocError> for MemError {
    ghost use Rattle.std.specs.Prelude.{◌≡◌};
    ghost use Rattle.odb_memstore.specs.declared.error.MemError.TheVariants.{NoMemory};

    ghost from_gives = { λ _ error. error ≡ NoMemory };

    fn from(_error: AllocError) -> MemError {
        MemError::NoMemory
    }
}
