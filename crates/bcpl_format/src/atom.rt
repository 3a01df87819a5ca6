//! The pieces of a source between which a layout chooses the blanks: tokens, GETs with their strings, and comments.

use bc_lex::{Symbol, TokenKind};
use bc_parse_defs::{is_symbol_beginning, is_symbol_end};

/// What kind of piece an atom is.
#[derive(Clone, Copy)]
pub enum Shape {
    /// A reserved word or a sign, also the word GET.
    Symbol(Symbol),
    /// A name, a number, a character constant or a string.
    Operand,
    /// A comment.
    Comment,
}

impl Shape {
    /// The shape of a token of this kind.
    pub fn of(kind: TokenKind<'_>) -> Shape {
        match kind {
            TokenKind::Symbol(symbol) => Shape::Symbol(symbol),
            _ => Shape::Operand,
        }
    }

    /// Whether a line break after this can count as a semicolon.
    pub fn is_end(self) -> bool {
        match self {
            Shape::Symbol(symbol) => is_symbol_end(symbol),
            Shape::Operand => true,
            Shape::Comment => false,
        }
    }

    /// Whether a line break before this can count as a semicolon.
    pub fn is_beginning(self) -> bool {
        match self {
            Shape::Symbol(symbol) => is_symbol_beginning(symbol),
            Shape::Operand => true,
            Shape::Comment => false,
        }
    }

    /// Whether an expression can end with this, so that a sign after it is dyadic.
    pub fn is_operand_end(self) -> bool {
        match self {
            Shape::Symbol(symbol) => matches!(
                symbol,
                Symbol::True | Symbol::False | Symbol::CloseBracket | Symbol::CloseSection
            ),
            Shape::Operand => true,
            Shape::Comment => false,
        }
    }

    /// Whether this sign is monadic if no operand comes before it.
    pub fn is_prefix_sign(self) -> bool {
        match self {
            Shape::Symbol(symbol) => matches!(
                symbol,
                Symbol::Minus | Symbol::Indirection | Symbol::AddressOf | Symbol::Not
            ),
            Shape::Operand | Shape::Comment => false,
        }
    }
}

/// A piece of a source, and how many line breaks come between the piece before it and this one.
#[derive(Clone, Copy)]
pub struct Atom {
    pub shape: Shape,
    /// Where it begins in the source, in bytes.
    pub start: usize,
    /// Where it ends. The blanks at the end of a comment don't belong to it.
    pub end: usize,
    /// The number of line breaks before it.
    pub breaks: usize,
}

impl Atom {
    /// Whether the atom is a comment.
    pub fn is_comment(self) -> bool {
        matches!(self.shape, Shape::Comment)
    }

    /// The text of the atom; empty if its bounds are outside of the source.
    pub fn text(self, source: &[u8]) -> &[u8] {
        source.get(self.start..self.end).unwrap_or(&[])
    }
}
