//! Why a text has no tokens.

use crate::place::Place;
use std::alloc::{AllocError, AllocFailed};

/// Why a text has no tokens.
#[derive(Clone, Copy, Debug)]
pub enum TokenError {
    /// The text has a fault at this place, which the string states.
    Fault(Place, &'static str),
    OutOfMemory(AllocError),
}

impl From<AllocError> for TokenError {
    ghost use Rattle.std.specs.Prelude.{◌≡◌};
    ghost use Rattle.enumset_source.specs.declared.token_error.TokenError.TheVariants.{OutOfMemory};

    ghost from_gives = { λ error fault. fault ≡ OutOfMemory error };

    fn from(error: AllocError) -> TokenError {
        TokenError::OutOfMemory(error)
    }
}

impl<T: Drop> From<AllocFailed<T>> for TokenError {
    ghost use Rattle.std.specs.Prelude.{◌≡◌, alloc_error};
    ghost use Rattle.enumset_source.specs.declared.token_error.TokenError.TheVariants.{OutOfMemory};

    ghost from_gives = { λ _ fault. fault ≡ OutOfMemory alloc_error };

    fn from(_failed: AllocFailed<T>) -> TokenError {
        TokenError::OutOfMemory(AllocError)
    }
}
