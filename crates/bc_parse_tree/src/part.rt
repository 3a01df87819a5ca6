//! What the grammar reads: tokens reduced to what they mean.
use bc_lex_tokens::Symbol;

/// An element of a closed list, which is what the grammar is about: a token without its place and its tag, or a line
/// break that counts as a semicolon.
#[derive(Clone, Copy, Debug, PartialEq, Eq)]
pub enum Part<'s> {
    /// A reserved word, sign or section bracket.
    Symbol(Symbol),
    /// A name, as the source has it.
    Name(&'s [u8]),
    /// The value of a number.
    Number(u16),
    /// The byte that a character constant denotes.
    Character(u16),
    /// A string, as the source has it, with its quotes.
    /// A line break that counts as a semicolon.
    String(&'s [u8]),
    NewLine,
}
