//! Predicates on tokens.

use bc_lex_tokens::{Symbol, Token, TokenKind};
pub use bcpl_messages::{is_at, symbol_at};

/// How far back a statement is searched.
pub const LOOK_BACK: usize = 60;

/// The text of the token with this index; empty if there is none.
pub fn text_at<'s>(tokens: &[Token<'s>], at: usize) -> &'s [u8] {
    match tokens.get(at) {
        Some(token) => token.text,
        None => b"",
    }
}

/// Whether the token with this index is this word, in upper or lower case.
pub fn is_word(tokens: &[Token<'_>], at: usize, word: &str) -> bool {
    text_at(tokens, at).eq_ignore_ascii_case(word.as_bytes())
}

/// Whether the token with this index is one of these words, in upper or lower case.
pub fn is_one_of(tokens: &[Token<'_>], at: usize, words: &[&str]) -> bool {
    for word in words {
        if is_word(tokens, at, word) {
            return true;
        }
    }
    false
}

/// Whether the token with this index is a name.
pub fn is_name(tokens: &[Token<'_>], at: usize) -> bool {
    matches!(
        tokens.get(at),
        Some(Token {
            kind: TokenKind::Name(_),
            ..
        })
    )
}

/// Whether the token with this index is a number.
pub fn is_number(tokens: &[Token<'_>], at: usize) -> bool {
    matches!(
        tokens.get(at),
        Some(Token {
            kind: TokenKind::Number(_),
            ..
        })
    )
}

/// Whether the token with this index is a string.
pub fn is_string(tokens: &[Token<'_>], at: usize) -> bool {
    matches!(
        tokens.get(at),
        Some(Token {
            kind: TokenKind::String(_),
            ..
        })
    )
}

/// Whether a line begins with the token with this index.
pub fn begins_line(tokens: &[Token<'_>], at: usize) -> bool {
    match tokens.get(at) {
        Some(token) => token.line_before || at == 0,
        None => true,
    }
}

/// Whether a token directly follows the one before it, without a blank.
pub fn is_joined(tokens: &[Token<'_>], at: usize) -> bool {
    let Some(before) = at.checked_sub(1) else {
        return false;
    };
    match (tokens.get(before), tokens.get(at)) {
        (Some(left), Some(right)) => left.file == right.file && left.end == right.start,
        _ => false,
    }
}

/// The index of the token that begins the line of the token with this index.
pub fn line_start(tokens: &[Token<'_>], at: usize) -> usize {
    let mut start = at;
    for _ in 0..LOOK_BACK {
        if begins_line(tokens, start) {
            break;
        }
        start = start.saturating_sub(1);
    }
    start
}

/// Whether this symbol is among the tokens from one index up to another.
pub fn has_symbol(tokens: &[Token<'_>], from: usize, to: usize, symbol: Symbol) -> bool {
    for at in from..to {
        if is_at(tokens, at, symbol) {
            return true;
        }
    }
    false
}

/// How many section brackets are open before the token with this index.
pub fn depth_at(tokens: &[Token<'_>], at: usize) -> usize {
    let mut depth: usize = 0;
    for index in 0..at {
        match symbol_at(tokens, index) {
            Some(Symbol::OpenSection) => depth = depth.saturating_add(1),
            Some(Symbol::CloseSection) => depth = depth.saturating_sub(1),
            _ => {}
        }
    }
    depth
}

/// The index of the section bracket that the one with this index closes.
pub fn opened_by(tokens: &[Token<'_>], at: usize) -> Option<usize> {
    let mut depth: usize = 0;
    let mut index = at;
    for _ in 0..tokens.len() {
        match symbol_at(tokens, index) {
            Some(Symbol::CloseSection) => depth = depth.saturating_add(1),
            Some(Symbol::OpenSection) if depth == 1 => return Some(index),
            Some(Symbol::OpenSection) => depth = depth.saturating_sub(1),
            _ => {}
        }
        index = index.checked_sub(1)?;
    }
    None
}

/// The index of the innermost parenthesis that is open before the token with this index, in the same block.
pub fn opened_round(tokens: &[Token<'_>], at: usize) -> Option<usize> {
    let mut depth: usize = 0;
    let mut index = at;
    for _ in 0..tokens.len() {
        index = index.checked_sub(1)?;
        match symbol_at(tokens, index) {
            Some(Symbol::CloseBracket) => depth = depth.saturating_add(1),
            Some(Symbol::OpenBracket) if depth == 0 => return Some(index),
            Some(Symbol::OpenBracket) => depth = depth.saturating_sub(1),
            Some(Symbol::OpenSection) => return None,
            _ => {}
        }
    }
    None
}

/// Whether the innermost block around the token with this index is a list of constants.
pub fn is_in_list(tokens: &[Token<'_>], at: usize) -> bool {
    let mut depth: usize = 0;
    let mut index = at;
    for _ in 0..at {
        index = index.saturating_sub(1);
        if is_at(tokens, index, Symbol::CloseSection) {
            depth = depth.saturating_add(1);
        } else if is_at(tokens, index, Symbol::OpenSection) && depth > 0 {
            depth = depth.saturating_sub(1);
        } else if is_at(tokens, index, Symbol::OpenSection) {
            let before = index.saturating_sub(1);
            return is_at(tokens, before, Symbol::Manifest)
                || is_at(tokens, before, Symbol::Static)
                || is_at(tokens, before, Symbol::Global);
        }
    }
    false
}

/// Whether the token with this index is the sign of a relation.
pub fn is_relation(tokens: &[Token<'_>], at: usize) -> bool {
    matches!(
        symbol_at(tokens, at),
        Some(
            Symbol::Equal
                | Symbol::NotEqual
                | Symbol::Less
                | Symbol::LessEqual
                | Symbol::Greater
                | Symbol::GreaterEqual
        )
    )
}
