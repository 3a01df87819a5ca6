//! Predicates on single tokens, and how a sentence shows their text.

use bc_lex_tokens::{Symbol, Token, TokenKind};
use bc_word::Memory;
use std::alloc::Global;

/// The most characters of a token that a sentence shows.
const MOST: usize = 40;

/// Appends these bytes as text, cut off after `MOST` characters. Bytes that aren't printable ASCII are shown as `?`.
pub(crate) fn push_shown(text: &mut String, bytes: &[u8]) -> Result<(), Memory> {
    for byte in &bytes[..bytes.len().min(MOST)] {
        let is_plain = byte.is_ascii_graphic() || *byte == b' ';
        text.push(if is_plain { char::from(*byte) } else { '?' })?;
    }
    if bytes.len() > MOST {
        text.push_str("...")?;
    }
    Ok(())
}

/// These bytes as text, cut off after 40 characters. Bytes that aren't printable ASCII are shown as `?`. Returns
/// `Memory` if an allocation fails.
pub fn shown(alloc: Global, bytes: &[u8]) -> Result<String, Memory> {
    let mut text = String::new(alloc);
    push_shown(&mut text, bytes)?;
    Ok(text)
}

/// Whether a token is this symbol.
pub fn is_symbol(token: &Token<'_>, symbol: Symbol) -> bool {
    match token.kind {
        TokenKind::Symbol(found) => found.is(symbol),
        _ => false,
    }
}

/// The symbol at an index of the tokens; `None` if there is no token, or it isn't a symbol.
pub fn symbol_at(tokens: &[Token<'_>], place: usize) -> Option<Symbol> {
    match tokens.get(place)?.kind {
        TokenKind::Symbol(symbol) => Some(symbol),
        _ => None,
    }
}

/// Whether the token at an index is this symbol.
pub fn is_at(tokens: &[Token<'_>], place: usize, symbol: Symbol) -> bool {
    match symbol_at(tokens, place) {
        Some(found) => found.is(symbol),
        None => false,
    }
}

/// The token that is `count` tokens before an index.
pub fn back<'t, 's>(tokens: &'t [Token<'s>], index: usize, count: usize) -> Option<&'t Token<'s>> {
    match index.checked_sub(count) {
        Some(place) => tokens.get(place),
        None => None,
    }
}
