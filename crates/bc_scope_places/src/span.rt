//! Ranges of tokens.

/// A nonempty range of a section's tokens.
#[derive(Clone, Copy, PartialEq, Eq)]
pub struct Span {
    /// The index of the first token.
    pub first: usize,
    /// The index of the last token, which belongs to the range.
    pub last: usize,
}
