//! `J_I`, which assigns in dialects with a left arrow, written without blanks.

use crate::bytes::{first, span};
use crate::kind::Kind;
use crate::source::Token;
use bc_word::Memory;
use std::alloc::Global;

/// The words of a text without underlines, sorted.
fn plain_words<'s>(
    alloc: Global,
    text: &'s [u8],
    tokens: &[Token],
) -> Result<Vec<&'s [u8]>, Memory> {
    let mut words = Vec::new(alloc);
    for token in tokens {
        let bytes = span(text, token.start, token.end);
        if token.kind == Kind::Word && !bytes.contains(&b'_') {
            words.push(bytes)?;
        }
    }
    words.sort()?;
    Ok(words)
}

/// Where the `_` of a word is, if it assigns: the part before it is a word elsewhere, and the part after it is empty, a
/// number, or a word elsewhere.
fn arrow_in<'s>(word: &'s [u8], words: &[&'s [u8]]) -> Option<usize> {
    let at = first(word, b'_')?;
    let left = span(word, 0, at);
    let right = span(word, at.saturating_add(1), word.len());
    let is_value = match right {
        [] => true,
        [digit, ..] if digit.is_ascii_digit() => true,
        _ => words.binary_search(&right).is_ok(),
    };
    if is_value && words.binary_search(&left).is_ok() {
        Some(at)
    } else {
        None
    }
}

/// The token of a part of a text, which follows another one on the same line.
fn part(kind: Kind, start: usize, end: usize) -> Token {
    Token {
        kind,
        start,
        end,
        line_before: false,
    }
}

/// Adds the three tokens of a word with a `_` that assigns at this offset in the text, or two if nothing follows it.
fn add_parts(
    parts: &mut Vec<Token>,
    text: &[u8],
    token: Token,
    arrow: usize,
) -> Result<(), Memory> {
    let after = arrow.saturating_add(1);
    parts.push(Token {
        end: arrow,
        ..token
    })?;
    parts.push(part(Kind::Underline, arrow, after))?;
    if after < token.end {
        let kind = match span(text, after, token.end) {
            [digit, ..] if digit.is_ascii_digit() => Kind::Number,
            _ => Kind::Word,
        };
        parts.push(part(kind, after, token.end))?;
    }
    Ok(())
}

/// Whether a text may have such words: it has underlines in words, and nothing assigns by `:=`.
fn may_have_arrows(text: &[u8], tokens: &[Token]) -> bool {
    let mut has_underline = false;
    for token in tokens {
        match token.kind {
            Kind::Assign => return false,
            Kind::Word if span(text, token.start, token.end).contains(&b'_') => {
                has_underline = true;
            }
            _ => {}
        }
    }
    has_underline
}

/// The tokens of a text, with each word in which `_` assigns split into its parts.
///
/// # Errors
///
/// `Memory` if an allocation failed.
pub fn with_arrows(alloc: Global, text: &[u8], tokens: Vec<Token>) -> Result<Vec<Token>, Memory> {
    if !may_have_arrows(text, tokens.as_slice()) {
        return Ok(tokens);
    }
    let words = plain_words(alloc, text, tokens.as_slice())?;
    let mut parts = Vec::new(alloc);
    for token in tokens {
        let bytes = span(text, token.start, token.end);
        match arrow_in(bytes, words.as_slice()) {
            Some(at) if token.kind == Kind::Word => {
                let arrow = token.start.saturating_add(at);
                add_parts(&mut parts, text, token, arrow)?;
            }
            _ => parts.push(token)?,
        }
    }
    Ok(parts)
}
