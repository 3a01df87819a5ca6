//! Failed allocations as the error `Memory`.
ghost use Rattle.std.specs.Prelude.{◌≡◌};
ghost use Rattle.bc_scope_names.specs.declared.error.ScopeError.TheVariants as faults;

use crate::error::ScopeError;
use bc_word::Memory;
use std::alloc::{AllocError, AllocFailed};

impl<'s> From<AllocError> for ScopeError<'s> {
    ghost from_gives = { λ _ e. e ≡ faults.Memory };

    fn from(_refused: AllocError) -> ScopeError<'s> {
        ScopeError::Memory
    }
}

impl<'s, T: Drop> From<AllocFailed<T>> for ScopeError<'s> {
    ghost from_gives = { λ _ e. e ≡ faults.Memory };

    fn from(_refused: AllocFailed<T>) -> ScopeError<'s> {
        ScopeError::Memory
    }
}

impl<'s> From<Memory> for ScopeError<'s> {
    ghost from_gives = { λ _ e. e ≡ faults.Memory };

    fn from(_refused: Memory) -> ScopeError<'s> {
        ScopeError::Memory
    }
}
