//! The tokens of a main, with the sources that they come from.

use crate::syntax::span_of;
use bc_lex::Source;
use bc_lex_tokens::Token;
use bc_scope_places::Span as TokenSpan;
use bcpl_places::Span;

/// A main's tokens, with all sources.
#[derive(Clone, Copy)]
pub struct Read<'a, 's> {
    /// All sources, of which a token names one by its index.
    pub sources: &'a [Source<'s>],
    /// The index of the main.
    pub main: usize,
    /// The main's tokens, with those of the files that it gets.
    pub tokens: &'a [Token<'s>],
}

impl<'s> Read<'_, 's> {
    /// The span of the token with this index; the end of the main if there is none.
    pub fn place(&self, index: usize) -> Span {
        span_of(self.tokens, self.sources, self.main, index)
    }

    /// The span from the first of these tokens to the last one, inclusive. Only the first token if the two aren't in
    /// one file.
    pub fn stretch(&self, span: TokenSpan) -> Span {
        let first = self.place(span.first);
        let last = self.place(span.last);
        if first.file == last.file && first.start <= last.end {
            Span {
                end: last.end,
                ..first
            }
        } else {
            first
        }
    }

    /// The text of a source; empty if there is no such source.
    pub fn source(&self, file: usize) -> &'s [u8] {
        match self.sources.get(file) {
            Some(source) => source.text,
            None => b"",
        }
    }

    /// The text of the token with this index; empty if there is no such token.
    pub fn text(&self, index: usize) -> &'s [u8] {
        match self.tokens.get(index) {
            Some(token) => token.text,
            None => b"",
        }
    }
}
