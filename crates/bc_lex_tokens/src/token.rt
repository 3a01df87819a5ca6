//! Tokens. Their texts are slices of the sources.
use crate::symbol::Symbol;

/// The kind of a token, with its value.
#[derive(Clone, Copy, Debug, PartialEq, Eq)]
pub enum TokenKind<'s> {
    /// A reserved word or a sign: an operator or a punctuation mark.
    Symbol(Symbol),
    /// A name, as it is spelled in the source.
    Name(&'s [u8]),
    /// A number, by its value.
    Number(u16),
    /// A character constant, by the byte that it denotes.
    Character(u16),
    /// A string, as it is spelled in the source, with its quotes.
    String(&'s [u8]),
}

/// A token, and where it is.
#[derive(Clone, Copy, Debug, PartialEq, Eq)]
pub struct Token<'s> {
    /// The kind of the token, with its value.
    pub kind: TokenKind<'s>,
    /// The text of the token in its file. The tag of a section bracket belongs to it.
    pub text: &'s [u8],
    /// The index of the file among the sources.
    pub file: usize,
    /// Where the text begins in the file, in bytes.
    pub start: usize,
    /// Where the text ends in the file, in bytes.
    pub end: usize,
    /// Whether there is a line break between the previous token (or the start of the source) and this one.
    pub line_before: bool,
}
