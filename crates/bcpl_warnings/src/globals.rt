//! Warnings: globals of the library that are redeclared or assigned to, and numbers that are used twice.

use crate::declared::Declarations;
use crate::tokens::{is_after, is_at, name_at};
use bc_lex_tokens::{Symbol, Token};
use bc_library::library_name;

/// The globals of LIBHDR that aren't routines of the library.
const NO_ROUTINES: [&[u8]; 3] = [b"START", b"TERMINATOR", b"RESULT2"];

/// The number of the global that the token with this index declares.
fn declared_number(
    tokens: &[Token<'_>],
    declarations: &Declarations<'_>,
    index: usize,
) -> Option<u16> {
    let next = index.saturating_add(1);
    let is_entry = is_at(tokens, next, Symbol::Colon) || is_at(tokens, next, Symbol::Equal);
    if is_entry && declarations.has_global(index) {
        declarations.number_of(index)
    } else {
        None
    }
}

/// If the token with this index declares a global whose number already has another name in the same file: the number,
/// and that name.
pub fn number_twice<'s>(
    tokens: &[Token<'_>],
    declarations: &Declarations<'s>,
    index: usize,
) -> Option<(u16, &'s [u8])> {
    let token = tokens.get(index)?;
    let number = declared_number(tokens, declarations, index)?;
    let first = declarations.first_name(token.file, number)?;
    if first == token.text {
        None
    } else {
        Some((number, first))
    }
}

/// The symbols that end a command, or the first of several values.
const ENDS: [Symbol; 7] = [
    Symbol::Semicolon,
    Symbol::CloseSection,
    Symbol::Comma,
    Symbol::Else,
    Symbol::Repeat,
    Symbol::RepeatUntil,
    Symbol::RepeatWhile,
];

/// Whether the token at this index is a name that ends its command. Such a value is a routine meant to replace another
/// one, or the variable that keeps one.
fn is_name_alone(tokens: &[Token<'_>], index: usize) -> bool {
    let following = index.saturating_add(1);
    let is_last = match tokens.get(following) {
        Some(token) => token.line_before,
        None => true,
    };
    name_at(tokens, index).is_some()
        && (is_last || ENDS.iter().any(|end| is_at(tokens, following, *end)))
}

/// Whether the token at this index assigns to a routine of the library something other than a name. The first `library`
/// sources are the library's.
pub fn is_library_assigned(
    tokens: &[Token<'_>],
    declarations: &Declarations<'_>,
    library: usize,
    index: usize,
) -> bool {
    let Some(name) = name_at(tokens, index) else {
        return false;
    };
    let is_element = is_after(tokens, index, Symbol::Indirection);
    if !is_at(tokens, index.saturating_add(1), Symbol::Assign) || is_element {
        return false;
    }
    if is_name_alone(tokens, index.saturating_add(2)) {
        return false;
    }
    let Some((declared, _)) = declarations.global_at(index) else {
        return false;
    };
    let is_of_library = match tokens.get(declared) {
        Some(token) => token.file < library,
        None => false,
    };
    is_of_library && !NO_ROUTINES.contains(&name)
}

/// The name that a global with this number has in the library, or in a header of the library that these declarations
/// are from. The first `library` sources are the library's.
fn known_name<'s>(
    declarations: &Declarations<'s>,
    library: usize,
    number: u16,
) -> Option<&'s [u8]> {
    if let Some(name) = library_name(number) {
        return Some(name.as_bytes());
    }
    for file in 0..library {
        if let Some(name) = declarations.first_name(file, number) {
            return Some(name);
        }
    }
    None
}

/// If the token with this index declares a global whose number has another name in the library: the number, and that
/// name. The first `library` sources are the library's.
pub fn library_global<'s>(
    tokens: &[Token<'s>],
    declarations: &Declarations<'s>,
    library: usize,
    index: usize,
) -> Option<(u16, &'s [u8])> {
    let name = name_at(tokens, index)?;
    if tokens.get(index)?.file < library {
        return None;
    }
    let number = declared_number(tokens, declarations, index)?;
    let known = known_name(declarations, library, number)?;
    let dot = name.len().saturating_sub(known.len().saturating_add(1));
    // a name such as OLD.RDCH for RDCH is given on purpose
    if known == name || name.ends_with(known) && name.get(dot) == Some(&b'.') {
        None
    } else {
        Some((number, known))
    }
}
