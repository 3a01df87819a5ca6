//! The error of `generate`.

use bc_word::Memory;
use std::alloc::{AllocError, AllocFailed};
use thiserror::Error;

/// Why no code was generated for a section.
#[derive(Clone, Copy, Debug, PartialEq, Eq, Hash, Error)]
pub enum GenError {
    /// The section takes more than 20,000 labels.
    #[error("more than 20,000 labels")]
    TooManyLabels,
    /// An allocation failed.
    #[error("out of memory")]
    Memory,
}

impl From<Memory> for GenError {
    ghost use Rattle.std.specs.Prelude.{◌≡◌};
    ghost use Rattle.bc_gen.specs.declared.gen_error.GenError.TheVariants as errors;

    ghost from_gives = { λ _ e. e ≡ errors.Memory };

    fn from(_refused: Memory) -> GenError {
        GenError::Memory
    }
}

impl From<AllocError> for GenError {
    ghost use Rattle.std.specs.Prelude.{◌≡◌};
    ghost use Rattle.bc_gen.specs.declared.gen_error.GenError.TheVariants as errors;

    ghost from_gives = { λ _ e. e ≡ errors.Memory };

    fn from(_refused: AllocError) -> GenError {
        GenError::Memory
    }
}

impl<T: Drop> From<AllocFailed<T>> for GenError {
    ghost use Rattle.std.specs.Prelude.{◌≡◌};
    ghost use Rattle.bc_gen.specs.declared.gen_error.GenError.TheVariants as errors;

    ghost from_gives = { λ _ e. e ≡ errors.Memory };

    fn from(_refused: AllocFailed<T>) -> GenError {
        GenError::Memory
    }
}
