//! Names that resemble a name that isn't in scope.

use crate::words::shown;
use bc_lex::{Source, lex};
use bc_lex_tokens::{Symbol, Token, TokenKind};
use bc_library::is_of_library;
use bc_library_ext::is_of_further_library;
use bc_word::Memory;
use std::alloc::Global;
use strsim::osa_distance;

/// The longest names that are compared letter by letter.
const LONGEST: usize = 32;

/// The reserved word that this name spells in lower or mixed case; `None` if there is none, or if the name is upper
/// case.
pub fn reserved_word(alloc: Global, name: &[u8]) -> Result<Option<String>, Memory> {
    let mut capital = String::new(alloc);
    for byte in name {
        capital.push(char::from(byte.to_ascii_uppercase()))?;
    }
    Ok(match Symbol::spelled(capital.as_str().as_bytes()) {
        Some(_) if capital.as_str().as_bytes() != name => Some(capital),
        _ => None,
    })
}

/// The distance between two names: 0 if they differ only in case, else how many letters must be changed, inserted,
/// removed, or swapped with the next one. `usize::MAX` if they aren't compared.
fn unlikeness(alloc: Global, one: &[u8], other: &[u8]) -> Result<usize, Memory> {
    if one.eq_ignore_ascii_case(other) {
        return Ok(0);
    }
    if one.len() > LONGEST || other.len() > LONGEST {
        return Ok(usize::MAX);
    }
    match (std::str::from_utf8(one), std::str::from_utf8(other)) {
        (Ok(one), Ok(other)) => Ok(osa_distance(alloc, one, other)?),
        _ => Ok(usize::MAX),
    }
}

/// The greatest distance of a suggestion for a name of this length.
fn most_unlike(length: usize) -> usize {
    match length {
        0..=2 => 0,
        3..=5 => 1,
        _ => 2,
    }
}

/// Whether a name may be suggested: it isn't the name itself, nor one that was already considered.
fn is_offered(known: &[u8], name: &[u8], passed: &[&[u8]]) -> bool {
    known != name && !passed.iter().any(|other| *other == known)
}

/// The name among the tokens that resembles this one most, or `None` if none is near enough. Of equally near names it
/// is the first; those in `passed` are skipped. Returns `Memory` if an allocation fails.
pub fn nearest<'s>(
    alloc: Global,
    tokens: &[Token<'s>],
    name: &[u8],
    passed: &[&[u8]],
) -> Result<Option<&'s [u8]>, Memory> {
    let mut best: Option<&[u8]> = None;
    let mut least = most_unlike(name.len()).saturating_add(1);
    for token in tokens {
        if let TokenKind::Name(known) = token.kind {
            if known.len().abs_diff(name.len()) < least && is_offered(known, name, passed) {
                let unlike = unlikeness(alloc, known, name)?;
                if unlike < least {
                    least = unlike;
                    best = Some(known);
                }
            }
        }
    }
    Ok(best)
}

/// Whether one of these tokens has a text.
fn has_text(tokens: &[Token<'_>], text: &[u8]) -> bool {
    for token in tokens {
        if token.text == text {
            return true;
        }
    }
    false
}

/// The first token of each name of the library.
fn names_among<'s>(alloc: Global, tokens: &[Token<'s>]) -> Result<Vec<Token<'s>>, Memory> {
    let mut found: Vec<Token<'s>> = Vec::new(alloc);
    for token in tokens {
        if let TokenKind::Name(name) = token.kind
            && (is_of_library(name) || is_of_further_library(name))
            && !has_text(found.as_slice(), name)
        {
            found.push(*token)?;
        }
    }
    Ok(found)
}

/// The first token of each name of the library that a main has; none if it can't be read. Returns `Memory` if an allocation
/// fails.
pub fn library_names<'s>(
    alloc: Global,
    sources: &[Source<'s>],
    main: usize,
) -> Result<Vec<Token<'s>>, Memory> {
    if main >= sources.len() {
        return Ok(Vec::new(alloc));
    }
    match lex(alloc, sources, main) {
        Ok(tokens) => names_among(alloc, tokens.as_slice()),
        Err(_) => Ok(Vec::new(alloc)),
    }
}

/// The header that declares a name of the library; `None` if it isn't one.
fn header_of(name: &[u8]) -> Option<&'static str> {
    if is_of_library(name) {
        Some("; GET \"LIBHDR\" declares it")
    } else if is_of_further_library(name) {
        Some("; GET \"EXTHDR\" declares it")
    } else {
        None
    }
}

/// What the library has for a name that a main uses and nothing declares: the header, or a similar name. `known` is what
/// `library_names` gives for the main. It is the end of a sentence, and empty if the library has nothing. Returns `Memory` if
/// an allocation fails.
pub fn library_like(alloc: Global, known: &[Token<'_>], name: &[u8]) -> Result<String, Memory> {
    if let Some(header) = header_of(name) {
        return Ok(String::from_str(alloc, header)?);
    }
    Ok(match nearest(alloc, known, name, &[])? {
        Some(near) => {
            let near = shown(alloc, near)?;
            format!(in alloc; "; the library has {near}")?
        }
        None => String::new(alloc),
    })
}
