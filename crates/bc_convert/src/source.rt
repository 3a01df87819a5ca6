//! A text with its tokens.

use crate::bytes::span;
use crate::context::Context;
use crate::kind::Kind;
use crate::name_facts::{NameFacts, NameTable};

/// A token: its kind, the index of its first byte and of the byte after it, and whether a line break precedes it.
#[derive(Clone, Copy)]
pub struct Token {
    pub kind: Kind,
    pub start: usize,
    pub end: usize,
    pub line_before: bool,
}

/// A text, its tokens, and what is known of each: for one that opens a bracket the index of the token that closes it, what the
/// tokens before it say, and what all places of its name show. Any index is allowed in the methods below: one that is past the
/// last token has the kind `End` and no bytes.
#[derive(Clone, Copy)]
pub struct TokenizedText<'s> {
    pub text: &'s [u8],
    pub tokens: &'s [Token],
    pub partners: &'s [usize],
    pub contexts: &'s [Context],
    pub names: NameTable<'s>,
}

impl<'s> TokenizedText<'s> {
    /// The kind of the token at an index.
    pub fn kind(self, index: usize) -> Kind {
        self.tokens.get(index).map_or(Kind::End, |token| token.kind)
    }

    /// The bytes of the token at an index.
    pub fn bytes(self, index: usize) -> &'s [u8] {
        match self.tokens.get(index) {
            Some(token) => span(self.text, token.start, token.end),
            None => &[],
        }
    }

    /// The bytes between a token and the one before it.
    pub fn gap(self, index: usize) -> &'s [u8] {
        let start = if index == 0 { 0 } else { self.end(index - 1) };
        span(self.text, start, self.start(index))
    }

    /// The start of a token; after the last token, the end of the text.
    pub fn start(self, index: usize) -> usize {
        self.tokens
            .get(index)
            .map_or(self.text.len(), |token| token.start)
    }

    /// The end of a token; after the last token, the end of the text.
    pub fn end(self, index: usize) -> usize {
        self.tokens
            .get(index)
            .map_or(self.text.len(), |token| token.end)
    }

    /// The index of the token that closes the bracket at an index, or the number of tokens.
    pub fn partner(self, index: usize) -> usize {
        self.partners
            .get(index)
            .copied()
            .unwrap_or(self.tokens.len())
    }

    /// What the tokens before a token say about it.
    pub fn context(self, index: usize) -> Context {
        self.contexts.get(index).copied().unwrap_or_default()
    }

    /// The number of the name at an index, or the number of tokens if there is no name.
    pub fn name_number(self, index: usize) -> usize {
        self.names
            .numbers
            .get(index)
            .copied()
            .unwrap_or(self.tokens.len())
    }

    /// What all places of the name at an index show together; nothing if there is no name.
    pub fn name(self, index: usize) -> NameFacts {
        let number = self.name_number(index);
        self.names.facts.get(number).copied().unwrap_or_default()
    }

    /// Whether a line break or a semicolon separates the token at an index from the one before.
    pub fn is_separated(self, index: usize) -> bool {
        if index == 0 {
            return true;
        }
        let is_on_a_new_line = matches!(self.tokens.get(index), Some(token) if token.line_before);
        let before = self.kind(index - 1);
        before == Kind::Semicolon
            || is_on_a_new_line && before.can_end() && self.kind(index).can_begin()
    }

    /// Whether two tokens have the same spelling.
    pub fn is_same(self, one: usize, other: usize) -> bool {
        self.bytes(one) == self.bytes(other)
    }
}
