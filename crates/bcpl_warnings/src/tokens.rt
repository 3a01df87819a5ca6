//! Predicates on single tokens, and on where commands begin and end.

use bc_lex_tokens::{Symbol, Token, TokenKind};
use bc_parse_defs::{is_symbol_beginning, is_symbol_end};
pub use bcpl_messages::{is_at, symbol_at};

/// The name at this index; `None` if the token isn't a name.
pub fn name_at<'s>(tokens: &[Token<'s>], index: usize) -> Option<&'s [u8]> {
    match tokens.get(index) {
        Some(
            Token {
                kind: TokenKind::Name(name),
                ..
            },
        ) => Some(*name),
        _ => None,
    }
}

/// Whether the token with this index is an opening parenthesis or section bracket.
pub fn opens_at(tokens: &[Token<'_>], index: usize) -> bool {
    is_at(tokens, index, Symbol::OpenBracket) || is_at(tokens, index, Symbol::OpenSection)
}

/// Whether the token with this index is a closing parenthesis or section bracket.
pub fn closes_at(tokens: &[Token<'_>], index: usize) -> bool {
    is_at(tokens, index, Symbol::CloseBracket) || is_at(tokens, index, Symbol::CloseSection)
}

/// The symbol directly before the token with this index.
pub fn symbol_before(tokens: &[Token<'_>], index: usize) -> Option<Symbol> {
    symbol_at(tokens, index.checked_sub(1)?)
}

/// Whether this symbol comes directly before the token with this index.
pub fn is_after(tokens: &[Token<'_>], index: usize, symbol: Symbol) -> bool {
    index > 0 && is_at(tokens, index - 1, symbol)
}

/// Whether a line break comes before the token with this index.
pub fn is_line_start(tokens: &[Token<'_>], index: usize) -> bool {
    match tokens.get(index) {
        Some(token) => token.line_before,
        None => false,
    }
}

/// Whether a command can end with the token at this index, so that a line break after it may act as a semicolon.
pub fn can_end(tokens: &[Token<'_>], index: usize) -> bool {
    match symbol_at(tokens, index) {
        Some(symbol) => is_symbol_end(symbol),
        None => index < tokens.len(),
    }
}

/// Whether a command can begin with the token with this index.
pub fn can_begin(tokens: &[Token<'_>], index: usize) -> bool {
    match symbol_at(tokens, index) {
        Some(symbol) => is_symbol_beginning(symbol),
        None => index < tokens.len(),
    }
}

/// Whether a line break before the token with this index acts as a semicolon.
pub fn is_separated(tokens: &[Token<'_>], index: usize) -> bool {
    index > 0
        && is_line_start(tokens, index)
        && can_end(tokens, index - 1)
        && can_begin(tokens, index)
}

/// Whether a command of a list begins with the token with this index.
pub fn begins_command(tokens: &[Token<'_>], index: usize) -> bool {
    is_separated(tokens, index)
        || index > 0
            && matches!(
                symbol_at(tokens, index - 1),
                Some(Symbol::Semicolon | Symbol::OpenSection | Symbol::Colon)
            )
}
