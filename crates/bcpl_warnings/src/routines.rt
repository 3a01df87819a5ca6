//! Predicates on routines: where they are declared, and which have no value.

use crate::tokens::{is_after, is_at, name_at, symbol_before};
use bc_lex_tokens::{Symbol, Token};

/// The routines declared with BE that LIBHDR names.
const LIBRARY: [&[u8]; 10] = [
    b"SELECTINPUT",
    b"SELECTOUTPUT",
    b"WRCH",
    b"ENDREAD",
    b"ENDWRITE",
    b"PUTBYTE",
    b"WRITES",
    b"WRITEN",
    b"NEWLINE",
    b"WRITEF",
];

/// The index of the parenthesis that closes the one with this index.
pub fn closing(tokens: &[Token<'_>], open: usize) -> Option<usize> {
    let mut depth: usize = 0;
    for index in open..tokens.len() {
        if is_at(tokens, index, Symbol::OpenBracket) {
            depth = depth.saturating_add(1);
        } else if is_at(tokens, index, Symbol::CloseBracket) {
            depth = depth.saturating_sub(1);
            if depth == 0 {
                return Some(index);
            }
        }
    }
    None
}

/// Whether the token with this index follows LET or AND.
pub fn is_defined(tokens: &[Token<'_>], index: usize) -> bool {
    is_after(tokens, index, Symbol::Let) || is_after(tokens, index, Symbol::And)
}

/// Whether the name at this index is declared there as a routine with BE. `None` if nothing is declared there.
pub fn is_command_declared(tokens: &[Token<'_>], index: usize) -> Option<bool> {
    let next = index.saturating_add(1);
    match symbol_before(tokens, index) {
        Some(Symbol::Let | Symbol::And) if is_at(tokens, next, Symbol::OpenBracket) => {
            Some(match closing(tokens, next) {
                Some(close) => is_at(tokens, close.saturating_add(1), Symbol::Be),
                None => false,
            })
        }
        Some(Symbol::Let | Symbol::And | Symbol::Comma | Symbol::For)
            if is_at(tokens, next, Symbol::Equal) || is_at(tokens, next, Symbol::Comma) => {
            Some(false)
        }
        _ => None,
    }
}

/// Whether the token with this index is the name of a routine that LIBHDR names and BE declares.
pub fn is_library_command(tokens: &[Token<'_>], index: usize) -> bool {
    match name_at(tokens, index) {
        Some(name) => LIBRARY.iter().any(|known| *known == name),
        None => false,
    }
}
