//! What the tokens before a token say about it, computed in one pass, so that no question about a token walks back over the text.

use crate::kind::Kind;
use crate::source::TokenizedText;
use crate::words::is_same_word;
use bc_word::Memory;
use std::alloc::Global;

/// What the tokens before a token say about it.
#[derive(Clone, Copy, Default)]
pub struct Context {
    /// The nearest section or square bracket before the token, opening or closing.
    pub bracket: Option<usize>,
    /// The innermost section bracket around the token.
    pub section: Option<usize>,
    /// Only names, commas and opening parentheses are between LET or AND and the token.
    pub is_in_heading: bool,
}

/// Whether a token of this kind is a section or square bracket.
fn is_bracket(kind: Kind) -> bool {
    matches!(
        kind,
        Kind::OpenSection | Kind::CloseSection | Kind::OpenSquare | Kind::CloseSquare
    )
}

/// Whether the token at an index is LET or AND.
pub fn is_let_or_and(source: TokenizedText<'_>, index: usize) -> bool {
    let word = source.bytes(index);
    is_same_word(word, b"LET") || is_same_word(word, b"AND")
}

/// Whether the token after the one at an index is in a heading, if the one at the index is in one or not.
fn goes_on_heading(source: TokenizedText<'_>, index: usize, is_in_heading: bool) -> bool {
    match source.kind(index) {
        Kind::Let | Kind::And => true,
        Kind::Word => is_in_heading || is_let_or_and(source, index),
        Kind::Name | Kind::Comma | Kind::OpenRound => is_in_heading,
        _ => false,
    }
}

/// Drops the brackets that are closed at or before an index.
fn drop_closed(source: TokenizedText<'_>, open: &mut Vec<usize>, index: usize) {
    for _ in 0..open.len() {
        match open.last().copied() {
            Some(bracket) if source.partner(bracket) <= index => {
                open.pop();
            }
            _ => return,
        }
    }
}

/// For each token, what the tokens before it say about it.
///
/// # Errors
///
/// `Memory` if an allocation failed.
pub fn contexts(alloc: Global, source: TokenizedText<'_>) -> Result<Vec<Context>, Memory> {
    let mut contexts = Vec::new(alloc);
    let mut open = Vec::new(alloc);
    let mut context = Context::default();
    for index in 0..source.tokens.len() {
        drop_closed(source, &mut open, index);
        context.section = open.last().copied();
        contexts.push(context)?;
        let kind = source.kind(index);
        if kind == Kind::OpenSection {
            open.push(index)?;
        }
        if is_bracket(kind) {
            context.bracket = Some(index);
        }
        context.is_in_heading = goes_on_heading(source, index, context.is_in_heading);
    }
    Ok(contexts)
}
