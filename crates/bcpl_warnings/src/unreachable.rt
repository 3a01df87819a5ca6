//! Warning: a command that is never reached.

use crate::tokens::{closes_at, is_at, is_line_start, is_separated, name_at, opens_at, symbol_at};
use bc_lex_tokens::{Symbol, Token};

/// Whether a command that begins with this word transfers control elsewhere.
fn leaves(symbol: Symbol) -> bool {
    matches!(
        symbol,
        Symbol::Goto
            | Symbol::Return
            | Symbol::ResultIs
            | Symbol::Break
            | Symbol::Loop
            | Symbol::EndCase
            | Symbol::Finish
    )
}

/// Whether the command at this index depends on a condition whose DO is omitted.
pub fn is_conditional(tokens: &[Token<'_>], index: usize) -> bool {
    let mut at = index;
    for _ in 0..index {
        at = at.saturating_sub(1);
        if let Some(symbol) = symbol_at(tokens, at) {
            match symbol {
                Symbol::If
                | Symbol::Unless
                | Symbol::While
                | Symbol::Until
                | Symbol::For
                | Symbol::Test => return true,
                Symbol::Do
                | Symbol::Else
                | Symbol::Semicolon
                | Symbol::OpenSection
                | Symbol::CloseSection
                | Symbol::Be
                | Symbol::Colon => return false,
                _ => {}
            }
        }
    }
    false
}

/// Whether the token with this index begins a command of a list, rather than a part of another command.
fn begins_item(tokens: &[Token<'_>], index: usize) -> bool {
    if index == 0 {
        return false;
    }
    match symbol_at(tokens, index - 1) {
        Some(Symbol::Semicolon | Symbol::OpenSection | Symbol::Colon) => true,
        _ => is_separated(tokens, index) && !is_conditional(tokens, index),
    }
}

/// The index after the command that begins at this index: that of a semicolon, a closing bracket, or the first token of
/// the next line's command.
fn following(tokens: &[Token<'_>], index: usize) -> usize {
    let mut depth: usize = 0;
    for at in index.saturating_add(1)..tokens.len() {
        let is_closed = closes_at(tokens, at);
        let is_end = is_at(tokens, at, Symbol::Semicolon) || is_closed || is_separated(tokens, at);
        if depth == 0 && is_end {
            return at;
        }
        if opens_at(tokens, at) {
            depth = depth.saturating_add(1);
        } else if is_closed {
            depth = depth.saturating_sub(1);
        }
    }
    tokens.len()
}

/// The index of the first token that isn't a semicolon, from this index on.
fn after_semicolons(tokens: &[Token<'_>], index: usize) -> usize {
    let mut at = index;
    for _ in 0..tokens.len() {
        if !is_at(tokens, at, Symbol::Semicolon) {
            break;
        }
        at = at.saturating_add(1);
    }
    at
}

/// Whether control can come from elsewhere to what begins at this index, or no command begins there.
fn is_entered(tokens: &[Token<'_>], index: usize) -> bool {
    if name_at(tokens, index).is_some() {
        return is_at(tokens, index.saturating_add(1), Symbol::Colon);
    }
    match symbol_at(tokens, index) {
        Some(symbol) => matches!(
            symbol,
            Symbol::Case
                | Symbol::Default
                | Symbol::CloseSection
                | Symbol::CloseBracket
                | Symbol::And
                | Symbol::Let
                | Symbol::Manifest
                | Symbol::Static
                | Symbol::Global
                | Symbol::Else
                | Symbol::Repeat
                | Symbol::RepeatWhile
                | Symbol::RepeatUntil
        ),
        None => index >= tokens.len(),
    }
}

/// If the token at this index leaves its list of commands and the next command is never reached: the index of that
/// command's first token.
pub fn unreached(tokens: &[Token<'_>], index: usize) -> Option<usize> {
    let symbol = symbol_at(tokens, index)?;
    if !leaves(symbol) || !begins_item(tokens, index) {
        return None;
    }
    let end = following(tokens, index);
    let next = after_semicolons(tokens, end);
    let is_apart = next > end || is_line_start(tokens, next);
    if is_apart && !is_entered(tokens, next) {
        Some(next)
    } else {
        None
    }
}
