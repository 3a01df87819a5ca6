//! Warning: a routine without a value that is called for its value.

use crate::declared::Declarations;
use crate::tokens::{is_at, is_line_start, name_at, symbol_at};
use bc_lex_tokens::{Symbol, Token};

/// Whether a value must follow this symbol.
fn wants_value(symbol: Symbol) -> bool {
    matches!(
        symbol,
        Symbol::Assign
            | Symbol::Equal
            | Symbol::NotEqual
            | Symbol::LessEqual
            | Symbol::GreaterEqual
            | Symbol::ShiftLeft
            | Symbol::ShiftRight
            | Symbol::Arrow
            | Symbol::Comma
            | Symbol::ResultIs
            | Symbol::If
            | Symbol::Unless
            | Symbol::Test
            | Symbol::While
            | Symbol::Until
            | Symbol::SwitchOn
            | Symbol::To
            | Symbol::By
            | Symbol::Not
            | Symbol::Remainder
            | Symbol::Equivalent
            | Symbol::NotEquivalent
            | Symbol::Plus
            | Symbol::Minus
            | Symbol::Multiply
            | Symbol::Divide
            | Symbol::Less
            | Symbol::Greater
            | Symbol::LogicalAnd
            | Symbol::LogicalOr
            | Symbol::Indirection
    )
}

/// Whether the token with this index is the name of a routine without a value that is called where a value is needed.
pub fn is_used(tokens: &[Token<'_>], declarations: &Declarations<'_>, index: usize) -> bool {
    let next = index.saturating_add(1);
    if index < 2
        || name_at(tokens, index).is_none()
        || !is_at(tokens, next, Symbol::OpenBracket)
        || is_line_start(tokens, next)
    {
        return false;
    }
    let is_wanted = match symbol_at(tokens, index - 1) {
        Some(Symbol::OpenBracket) => name_at(tokens, index - 2).is_some(),
        Some(symbol) => wants_value(symbol),
        None => false,
    };
    is_wanted && declarations.is_command(tokens, index)
}
