//! Warning: a routine that is probably meant to be START, in a program without START.

use crate::routines::is_defined;
use crate::tokens::{is_at, name_at};
use bc_lex_tokens::{Symbol, Token};

/// How a routine resembles START.
#[derive(Clone, Copy)]
pub enum Likeness {
    /// It is named START, but that isn't a global here.
    Undeclared,
    /// It has another name that is like START, or is MAIN.
    Misnamed,
}

/// How the routine defined at this index resembles START; `None` if it doesn't, or no routine is defined there.
pub fn likeness_at(tokens: &[Token<'_>], index: usize) -> Option<Likeness> {
    let name = name_at(tokens, index)?;
    if !is_defined(tokens, index) || !is_at(tokens, index.saturating_add(1), Symbol::OpenBracket) {
        return None;
    }
    if name == b"START".as_slice() {
        Some(Likeness::Undeclared)
    } else if name.eq_ignore_ascii_case(b"START") || name.eq_ignore_ascii_case(b"MAIN") {
        Some(Likeness::Misnamed)
    } else {
        None
    }
}
