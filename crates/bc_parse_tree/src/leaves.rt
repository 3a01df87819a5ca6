//! The tokens that are leaves of the tree, and how to find the one with a given number.
ghost use Rattle.std.specs.Prelude.{◌<◌, length, IfSome};

use bc_lex_tokens::{Symbol, Token, TokenKind};
use bc_word::Memory;
use std::alloc::Global;

/// Whether a walk over the tree in text order meets this reserved word. It meets no other symbols.
fn is_word(symbol: Symbol) -> bool {
    matches!(
        symbol,
        Symbol::Break
            | Symbol::Case
            | Symbol::Default
            | Symbol::EndCase
            | Symbol::False
            | Symbol::Finish
            | Symbol::Goto
            | Symbol::Loop
            | Symbol::ResultIs
            | Symbol::Return
            | Symbol::Table
            | Symbol::True
            | Symbol::ValueOf
            | Symbol::Vector
    )
}

/// Whether a token is a leaf: a name, a number, a character constant, a string, or one of BREAK, CASE, DEFAULT,
/// ENDCASE, FALSE, FINISH, GOTO, LOOP, RESULTIS, RETURN, TABLE, TRUE, VALOF and VEC.
pub fn is_leaf(kind: TokenKind<'_>) -> bool {
    match kind {
        TokenKind::Name(_)
        | TokenKind::Number(_)
        | TokenKind::Character(_)
        | TokenKind::String(_) => true,
        TokenKind::Symbol(symbol) => is_word(symbol),
    }
}

/// The index in `tokens` of the leaf with the number `leaf`, counted from 0. None if there are fewer leaves.
pub fn token_at(tokens: &[Token<'_>], leaf: u64) -> Option<usize>
    ensures within { IfSome result (λ i. i < length tokens.now) }
{
    let mut left = leaf;
    for (i, token) in tokens.iter().enumerate() {
        if is_leaf(token.kind) {
            if left == 0 {
                return Some(i);
            }
            left -= 1;
        }
    }
    None
}

/// The tokens that are leaves, in the order of `tokens`. Returns `Memory` if an allocation fails.
pub fn leaves_of<'s>(alloc: Global, tokens: &[Token<'s>]) -> Result<Vec<Token<'s>>, Memory> {
    let mut leaves = Vec::new(alloc);
    for token in tokens {
        if is_leaf(token.kind) {
            leaves.push(*token)?;
        }
    }
    Ok(leaves)
}
