//! Warning: an escape of another language in a string.

use bc_lex_tokens::{Token, TokenKind};

/// Whether the token with this index is a string with a backslash before n, t or r.
pub fn has_backslash(tokens: &[Token<'_>], index: usize) -> bool {
    let text = match tokens.get(index) {
        Some(
            Token {
                kind: TokenKind::String(text),
                ..
            },
        ) => *text,
        _ => return false,
    };
    let mut is_after = false;
    for byte in text {
        if is_after && matches!(*byte, b'n' | b't' | b'r') {
            return true;
        }
        is_after = *byte == b'\\';
    }
    false
}
