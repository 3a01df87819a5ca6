//! The error of `lex`.
ghost use Rattle.std.specs.Prelude.{◌≡◌, ◌+◌, ◌<◌, ◌^◌};
ghost use Rattle.bc_lex.specs.Errors.{error_of};
ghost use Rattle.bc_lex.specs.declared.error.LexError.TheVariants.{Memory};

use crate::fault::{Fault, FaultKind};
use std::alloc::{AllocError, AllocFailed};
use thiserror::Error;

/// Why a source has no token list. Each fault has the index of its file among the sources, and an offset in this file in bytes.
#[derive(Clone, Copy, Debug, PartialEq, Eq, Hash, Error)]
pub enum LexError {
    /// The byte at the offset begins no token.
    #[error("the byte at offset {1} of file {0} begins no token")]
    BadCharacter(usize, usize),
    /// The number that begins at the offset is over 65,535.
    #[error("the number at offset {1} of file {0} is greater than 65535")]
    NumberTooLarge(usize, usize),
    /// The string that begins at the offset has more than 255 characters.
    #[error("the string at offset {1} of file {0} has more than 255 characters")]
    StringTooLong(usize, usize),
    /// The comment, string or character constant that begins at the offset isn't closed.
    #[error("the comment, string or character constant at offset {1} of file {0} is not closed")]
    Unterminated(usize, usize),
    /// The `*` at the offset begins no escape.
    #[error("the * at offset {1} of file {0} begins no escape")]
    BadEscape(usize, usize),
    /// The GET at the offset isn't followed by a string, or no source has the name that the string spells.
    #[error("the GET at offset {1} of file {0} names no source")]
    GetMissing(usize, usize),
    /// The GET at the offset is in a file to which eight nested GETs led.
    #[error("the GET at offset {1} of file {0} is nested too deep")]
    GetTooDeep(usize, usize),
    /// The token at the offset comes after 60,000 others.
    #[error("the token at offset {1} of file {0} comes after 60,000 others")]
    TooManyTokens(usize, usize),
    /// An allocation failed.
    #[error("out of memory")]
    Memory,
}

impl Fault {
    /// The fault as an error of a file, in which the bytes that have the fault begin at this offset.
    pub fn in_file(self, file: usize, offset: usize) -> LexError
        requires { offset + self.at < 2 ^ 64 }
        ensures { result ≡ error_of self.kind file (offset + self.at) }
    {
        let offset = offset + self.at;
        match self.kind {
            FaultKind::BadCharacter => LexError::BadCharacter(file, offset),
            FaultKind::NumberTooLarge => LexError::NumberTooLarge(file, offset),
            FaultKind::StringTooLong => LexError::StringTooLong(file, offset),
            FaultKind::Unterminated => LexError::Unterminated(file, offset),
            FaultKind::BadEscape => LexError::BadEscape(file, offset),
        }
    }
}

impl From<AllocError> for LexError {
    ghost from_gives = { λ _ e. e ≡ Memory };

    fn from(_refused: AllocError) -> LexError {
        LexError::Memory
    }
}

impl<T: Drop> From<AllocFailed<T>> for LexError {
    ghost from_gives = { λ _ e. e ≡ Memory };

    fn from(_refused: AllocFailed<T>) -> LexError {
        LexError::Memory
    }
}
