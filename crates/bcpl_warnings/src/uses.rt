//! How a name is used in a main, collected in one pass over its tokens.

use crate::arguments::is_called;
use crate::tokens::{symbol_at, symbol_before};
use bc_lex_tokens::{Symbol, Token};

/// How a name is used in a main.
#[derive(Clone, Copy, Default)]
pub struct Uses {
    /// The index of its first call.
    pub first_call: Option<usize>,
    /// Whether it is directly followed by `:=`.
    pub is_assigned: bool,
    /// Whether it is followed by a comma, as on the left of an assignment to several names.
    pub is_listed: bool,
    /// Whether its address is taken.
    pub is_addressed: bool,
    /// Whether a GOTO names it.
    pub is_target: bool,
}

impl Uses {
    /// Adds the use at this index, where the name is.
    pub fn add(&mut self, tokens: &[Token<'_>], index: usize) {
        match symbol_at(tokens, index.saturating_add(1)) {
            Some(Symbol::OpenBracket) if self.first_call.is_none() && is_called(tokens, index) => {
                self.first_call = Some(index);
            }
            Some(Symbol::Assign) => self.is_assigned = true,
            Some(Symbol::Comma) => self.is_listed = true,
            _ => {}
        }
        match symbol_before(tokens, index) {
            Some(Symbol::AddressOf) => self.is_addressed = true,
            Some(Symbol::Goto) => self.is_target = true,
            _ => {}
        }
    }
}
