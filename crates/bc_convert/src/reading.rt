//! Reads a text into classified tokens.

use crate::arrows::with_arrows;
use crate::brackets::partners;
use crate::context::{Context, contexts};
use crate::dialect::{Dialect, classified};
use crate::lexing::lex;
use crate::name_facts::NameTable;
use crate::name_table::Names;
use crate::options::System;
use crate::shared_names::SharedNames;
use crate::source::{Token, TokenizedText};
use bc_word::Memory;
use std::alloc::Global;

/// The classified tokens of a text, with the partners of its brackets, its names, and its dialect.
#[derive(Drop)]
pub struct Reading {
    paired: Paired,
    names: Names,
    /// The dialect that the text shows by itself.
    pub dialect: Dialect,
}

impl Reading {
    /// Reads a text. `shared` has the names that it shares with other sources; `system` is the one it was written for, if that
    /// was named.
    ///
    /// # Errors
    ///
    /// `Memory` if an allocation failed.
    pub fn new(
        alloc: Global,
        text: &[u8],
        shared: Option<&SharedNames>,
        system: Option<System>,
    ) -> Result<Reading, Memory> {
        let tokens = with_arrows(alloc, text, lex(alloc, text)?)?;
        let raw = Paired::new(alloc, text, tokens)?;
        Reading::classified(alloc, raw.source(text), shared, system)
    }

    /// Classifies the tokens of a text.
    fn classified(
        alloc: Global,
        raw: TokenizedText<'_>,
        shared: Option<&SharedNames>,
        system: Option<System>,
    ) -> Result<Reading, Memory> {
        let dialect = Dialect {
            has_alto_signs: matches!(system, Some(System::Alto)),
            ..Dialect::of(raw)
        };
        let tokens = classified(alloc, raw, dialect, shared)?;
        let paired = Paired::new(alloc, raw.text, tokens)?;
        let names = Names::of(alloc, paired.source(raw.text), shared)?;
        Ok(Reading {
            paired,
            names,
            dialect,
        })
    }

    /// The text and its tokens.
    pub fn source<'s>(&'s self, text: &'s [u8]) -> TokenizedText<'s> {
        TokenizedText {
            names: self.names.table(),
            ..self.paired.source(text)
        }
    }
}

/// Tokens with the partners of their brackets, and what the tokens before each say about it.
#[derive(Drop)]
struct Paired {
    tokens: Vec<Token>,
    partners: Vec<usize>,
    contexts: Vec<Context>,
}

impl Paired {
    /// Finds the partners and the contexts.
    fn new(alloc: Global, text: &[u8], tokens: Vec<Token>) -> Result<Paired, Memory> {
        let bare = TokenizedText {
            text,
            tokens: tokens.as_slice(),
            partners: &[],
            contexts: &[],
            names: NameTable::empty(),
        };
        let partners = partners(alloc, bare)?;
        let contexts = contexts(
            alloc,
            TokenizedText {
                partners: partners.as_slice(),
                ..bare
            },
        )?;
        Ok(Paired {
            tokens,
            partners,
            contexts,
        })
    }

    /// The text and these tokens, without its names.
    fn source<'s>(&'s self, text: &'s [u8]) -> TokenizedText<'s> {
        TokenizedText {
            text,
            tokens: self.tokens.as_slice(),
            partners: self.partners.as_slice(),
            contexts: self.contexts.as_slice(),
            names: NameTable::empty(),
        }
    }
}
