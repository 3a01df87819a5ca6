//! The error of `parse`.
use thiserror::Error;

/// Why tokens are no section. A token is named by its index; the number of tokens represents the end.
#[derive(Clone, Copy, Debug, PartialEq, Eq, Error)]
pub enum ParseError {
    /// This token can't continue what is being read.
    #[error("unexpected token {0}")]
    Expected(usize),
    /// A section bracket is still open at the end.
    #[error("a section is not closed")]
    Unclosed,
    /// This `$)` closes no section.
    #[error("token {0} closes no open section")]
    NotOpen(usize),
    /// Here definitions, commands and expressions would nest more than 200 deep, or more than 400 parentheses would
    /// be open at once.
    #[error("nested too deep at token {0}")]
    TooDeep(usize),
    /// An allocation failed.
    #[error("out of memory")]
    Memory,
}
