//! The errors of reading and printing.

use std::alloc::{AllocError, AllocFailed};
use thiserror::Error;

/// Why a text wasn't read or written.
///
/// A position is the number of bytes before it, counted from the start of the stream. It saturates at 2^64 - 1.
#[derive(Clone, Copy, Debug, PartialEq, Eq, Hash, Error)]
pub enum TextError {
    /// No item begins with the byte at this position.
    #[error("the byte at offset {0} begins no item")]
    BadCharacter(u64),
    /// The byte at this position should be a digit, or a number that is out of range begins there.
    #[error("bad number at offset {0}")]
    BadNumber(u64),
    /// The byte at this position should be the `L` of a global.
    #[error("global without a label at offset {0}")]
    MissingLabel(u64),
    /// The text ends within an item, or with items after the last `Z`.
    #[error("the text ends within a segment")]
    Unended,
    /// The writer failed.
    #[error("the text could not be written")]
    Write,
    /// An allocation failed.
    #[error("out of memory")]
    Memory,
    /// The reader has returned an error before.
    #[error("the reader failed")]
    Failed,
}

impl From<AllocError> for TextError {
    ghost use Rattle.std.specs.Prelude.{◌≡◌};
    ghost use Rattle.bc_text.specs.declared.text_error.TextError.TheVariants.{Memory};

    ghost from_gives = { λ _ e. e ≡ Memory };

    fn from(_refused: AllocError) -> TextError {
        TextError::Memory
    }
}

impl<T: Drop> From<AllocFailed<T>> for TextError {
    ghost use Rattle.std.specs.Prelude.{◌≡◌};
    ghost use Rattle.bc_text.specs.declared.text_error.TextError.TheVariants.{Memory};

    ghost from_gives = { λ _ e. e ≡ Memory };

    fn from(_refused: AllocFailed<T>) -> TextError {
        TextError::Memory
    }
}
