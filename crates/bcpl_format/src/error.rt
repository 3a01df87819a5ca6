//! The error of `formatted`.

use bc_lex::LexError;
use bc_word::Memory;
use std::alloc::{AllocError, AllocFailed};
use thiserror::Error;

/// Why a source has no layout.
#[derive(Clone, Copy, Debug, PartialEq, Eq, Error)]
pub enum FormatError {
    /// The source, or one that it gets, has no tokens. Offsets are those of the source as it was given.
    #[error("{0}")]
    Lex(LexError),
    /// The text that was laid out doesn't have the tokens of the source, so it was dropped.
    #[error("the layout would change the tokens of the source")]
    Changed,
    /// An allocation failed.
    #[error("out of memory")]
    Memory,
}

impl From<LexError> for FormatError {
    fn from(error: LexError) -> FormatError {
        match error {
            LexError::Memory => FormatError::Memory,
            _ => FormatError::Lex(error),
        }
    }
}

impl From<Memory> for FormatError {
    fn from(_refused: Memory) -> FormatError {
        FormatError::Memory
    }
}

impl From<AllocError> for FormatError {
    fn from(_refused: AllocError) -> FormatError {
        FormatError::Memory
    }
}

impl<T: Drop> From<AllocFailed<T>> for FormatError {
    fn from(_refused: AllocFailed<T>) -> FormatError {
        FormatError::Memory
    }
}
