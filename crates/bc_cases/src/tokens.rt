//! Cases about tokens: the library's, and whether the text of tokens has these tokens again.

use crate::answer::Answer;
use crate::growth::Growth;
use crate::linking::text_of;
use crate::number::count;
use bc_lex::{LexError, Source, lex};
use bc_lex_tokens::{Token, TokenKind};
use bc_library::{BLIB, LIBHDR};
use bc_parse_tree::render;
use std::alloc::Global;

/// A question about tokens.
#[derive(Clone, Copy)]
pub enum OfTokens {
    /// How many there are of each kind.
    Counts,
    /// Their text, if it has the same tokens and no line break.
    Rendered,
}

/// The tokens of a text, which may get LIBHDR.
fn tokens_of<'s>(alloc: Global, text: &'s [u8]) -> Result<Vec<Token<'s>>, LexError> {
    let library = Source {
        name: b"LIBHDR",
        text: LIBHDR.as_bytes(),
    };
    lex(alloc, &[Source { name: b"A", text }, library], 0)
}

/// Appends the answer about tokens.
fn add_told(answer: &mut Answer, what: OfTokens, tokens: &[Token<'_>]) {
    match what {
        OfTokens::Counts => add_counts(answer, tokens),
        OfTokens::Rendered => add_rendered(answer, tokens),
    }
}

/// Appends the answer about the tokens of a text, or its fault.
fn add_of_text(answer: &mut Answer, what: OfTokens, text: &[u8]) {
    match tokens_of(answer.alloc(), text) {
        Ok(tokens) => add_told(answer, what, tokens.as_slice()),
        Err(fault) => answer.name(&fault),
    }
}

/// Appends the text of an input's tokens, if it has the same tokens again.
pub fn add_text(answer: &mut Answer, input: &str) {
    let text = text_of(&mut answer.growth, input);
    add_of_text(answer, OfTokens::Rendered, text.as_slice());
}

/// Appends the number of bytes of LIBHDR or BLIB, and of its tokens of each kind.
pub fn add_library(answer: &mut Answer, input: &str) {
    let text = if input.starts_with("LIBHDR") {
        LIBHDR
    } else {
        BLIB
    };
    answer.sentence("{} bytes, ", &[text.len() as u64]);
    add_of_text(answer, OfTokens::Counts, text.as_bytes());
}

/// How many tokens there are of each kind.
#[derive(Drop)]
struct Counts {
    names: u64,
    numbers: u64,
    characters: u64,
    strings: u64,
}

impl Counts {
    /// Counts a token.
    fn add(&mut self, kind: &TokenKind<'_>) {
        match kind {
            TokenKind::Symbol(_) => {}
            TokenKind::Name(_) => count(&mut self.names),
            TokenKind::Number(_) => count(&mut self.numbers),
            TokenKind::Character(_) => count(&mut self.characters),
            TokenKind::String(_) => count(&mut self.strings),
        }
    }
}

/// Appends how many tokens there are of each kind.
fn add_counts(answer: &mut Answer, tokens: &[Token<'_>]) {
    let mut counts = Counts {
        names: 0,
        numbers: 0,
        characters: 0,
        strings: 0,
    };
    for token in tokens {
        counts.add(&token.kind);
    }
    add_all_counts(answer, &counts, tokens.len());
}

/// Appends these counts.
fn add_all_counts(answer: &mut Answer, counts: &Counts, all: usize) {
    answer.sentence(
        "{} tokens: {} names, {} numbers, {} characters, {} strings",
        &[
            all as u64,
            counts.names,
            counts.numbers,
            counts.characters,
            counts.strings,
        ],
    );
}

/// The kinds of tokens, which are all that a text of tokens needs.
fn kinds_of<'s>(growth: &mut Growth, tokens: &[Token<'s>]) -> Vec<TokenKind<'s>> {
    let mut kinds = Vec::new(growth.alloc());
    for token in tokens {
        growth.push(&mut kinds, token.kind);
    }
    kinds
}

/// Whether the tokens have these kinds, and none follows a line break.
fn has_kinds(tokens: &[Token<'_>], kinds: &[TokenKind<'_>]) -> bool {
    if tokens.len() != kinds.len() {
        return false;
    }
    for (token, kind) in tokens.iter().zip(kinds) {
        if token.kind != *kind || token.line_before {
            return false;
        }
    }
    true
}

/// Appends a text if its tokens have these kinds.
fn add_same(answer: &mut Answer, text: &[u8], tokens: &[Token<'_>], kinds: &[TokenKind<'_>]) {
    if has_kinds(tokens, kinds) {
        answer.bytes(text);
    } else {
        answer.say("other tokens");
    }
}

/// Appends a text if it lexes to tokens of these kinds.
fn add_read_again(answer: &mut Answer, text: &[u8], kinds: &[TokenKind<'_>]) {
    let source = Source { name: b"A", text };
    match lex(answer.alloc(), &[source], 0) {
        Ok(tokens) => add_same(answer, text, tokens.as_slice(), kinds),
        Err(fault) => answer.name(&fault),
    }
}

/// Appends the text of tokens, if it has the same tokens again.
fn add_rendered(answer: &mut Answer, tokens: &[Token<'_>]) {
    let kinds = kinds_of(&mut answer.growth, tokens);
    let text = render(answer.alloc(), kinds.as_slice());
    let text = answer.growth.list(text);
    add_read_again(answer, text.as_slice(), kinds.as_slice());
}
