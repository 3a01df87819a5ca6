//! Warning: a vector that is called.

use crate::arguments::is_called;
use crate::declared::Declarations;
use crate::tokens::is_at;
use bc_lex_tokens::{Symbol, Token};

/// Whether the section that is innermost at the first token is still open at the second.
fn is_open_still(tokens: &[Token<'_>], first: usize, second: usize) -> bool {
    let mut depth: usize = 0;
    for at in first..second {
        if is_at(tokens, at, Symbol::OpenSection) {
            depth = depth.saturating_add(1);
        } else if is_at(tokens, at, Symbol::CloseSection) {
            if depth == 0 {
                return false;
            }
            depth = depth.saturating_sub(1);
        }
    }
    true
}

/// Whether the token with this index calls a name that means a vector, and that is never assigned to.
pub fn is_vector_called(
    tokens: &[Token<'_>],
    declarations: &Declarations<'_>,
    index: usize,
) -> bool {
    if !is_called(tokens, index) {
        return false;
    }
    match declarations.last_before(index) {
        Some(at) => {
            is_at(tokens, at.saturating_add(2), Symbol::Vector)
                && is_open_still(tokens, at, index)
                && !declarations.uses_at(index).is_assigned
        }
        None => false,
    }
}
