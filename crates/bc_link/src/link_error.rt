//! The errors of linking.

use bc_text_items::GlobalNumber;
use bc_word::{Memory, Word};
use std::alloc::{AllocError, AllocFailed};
use thiserror::Error;

/// Why segments weren't linked. Segments are numbered from 0, in order.
#[derive(Clone, Copy, Debug, PartialEq, Eq, Hash, Error)]
pub enum LinkError {
    /// In this segment an item refers to this label, but the segment doesn't set it.
    #[error("segment {0} uses a label that it does not set")]
    LabelUnset(usize, Word),
    /// This segment sets this label twice.
    #[error("segment {0} sets a label twice")]
    LabelTwice(usize, Word),
    /// This global is set twice.
    #[error("a global is set twice")]
    GlobalTwice(GlobalNumber),
    /// The stack base would be above 65,472, which leaves too little room for the stack.
    #[error("the segments do not fit in the store")]
    TooLarge,
    /// An allocation failed.
    #[error("out of memory")]
    Memory,
}

impl From<Memory> for LinkError {
    ghost use Rattle.std.specs.Prelude.{◌≡◌};
    ghost use Rattle.bc_link.specs.declared.link_error.LinkError.TheVariants as errors;

    ghost from_gives = { λ _ e. e ≡ errors.Memory };

    fn from(_refused: Memory) -> LinkError {
        LinkError::Memory
    }
}

impl From<AllocError> for LinkError {
    ghost use Rattle.std.specs.Prelude.{◌≡◌};
    ghost use Rattle.bc_link.specs.declared.link_error.LinkError.TheVariants as errors;

    ghost from_gives = { λ _ e. e ≡ errors.Memory };

    fn from(_refused: AllocError) -> LinkError {
        LinkError::Memory
    }
}

impl<T: Drop> From<AllocFailed<T>> for LinkError {
    ghost use Rattle.std.specs.Prelude.{◌≡◌};
    ghost use Rattle.bc_link.specs.declared.link_error.LinkError.TheVariants as errors;

    ghost from_gives = { λ _ e. e ≡ errors.Memory };

    fn from(_refused: AllocFailed<T>) -> LinkError {
        LinkError::Memory
    }
}
