//! Which token closes each bracket.

use crate::bytes::span;
use crate::kind::Kind;
use crate::source::{Token, TokenizedText};
use bc_word::Memory;
use std::alloc::Global;

/// The tag of a section bracket as it is spelled; empty if it has none.
fn tag<'s>(text: &'s [u8], token: &Token) -> &'s [u8] {
    let whole = span(text, token.start, token.end);
    span(whole, 2, whole.len())
}

/// Whether `closing` closes the bracket `opening`, alone or together with brackets inside.
fn is_closed_by(text: &[u8], opening: &Token, closing: &Token) -> bool {
    match closing.kind {
        Kind::CloseRound => opening.kind == Kind::OpenRound,
        Kind::CloseSquare => opening.kind == Kind::OpenSquare,
        _ => opening.kind == Kind::OpenSection
            && (tag(text, closing).is_empty() || tag(text, opening) == tag(text, closing)),
    }
}

/// Whether `closing` closes one of the open brackets.
fn closes_any(source: TokenizedText<'_>, open: &[usize], closing: &Token) -> bool {
    for index in open.iter() {
        if let Some(opening) = source.tokens.get(*index)
            && is_closed_by(source.text, opening, closing)
        {
            return true;
        }
    }
    false
}

/// Pops brackets up to the one that this token closes, and records the token as their partner.
fn close(
    source: TokenizedText<'_>,
    open: &mut Vec<usize>,
    partners: &mut [usize],
    index: usize,
    closing: &Token,
) {
    for _ in 0..source.tokens.len() {
        let Some(opener) = open.pop() else {
            return;
        };
        if opener < partners.len() {
            partners[opener] = index;
        }
        let is_last = match source.tokens.get(opener) {
            Some(opening) => is_closed_by(source.text, opening, closing),
            None => true,
        };
        if is_last {
            return;
        }
    }
}

/// For each token that opens a bracket, the index of the token that closes it. It is the number of tokens for an
/// unclosed bracket and for any other token. A section bracket with a tag also closes all brackets inside.
///
/// # Errors
///
/// `Memory` if an allocation failed.
pub fn partners(alloc: Global, source: TokenizedText<'_>) -> Result<Vec<usize>, Memory> {
    let count = source.tokens.len();
    let mut partners = vec![in alloc; count; count]?;
    let mut open = Vec::new(alloc);
    for (index, token) in source.tokens.iter().enumerate() {
        match token.kind {
            Kind::OpenRound | Kind::OpenSquare | Kind::OpenSection => open.push(index)?,
            Kind::CloseRound | Kind::CloseSquare | Kind::CloseSection => {
                if closes_any(source, open.as_slice(), token) {
                    close(source, &mut open, partners.as_mut_slice(), index, token);
                }
            }
            _ => {}
        }
    }
    Ok(partners)
}
