//! Warnings: formats that WRITEF doesn't know, or that take more arguments than follow.

use crate::arguments::{arguments_after, is_called};
use crate::declared::Declarations;
use crate::tokens::{is_at, name_at};
use bc_lex_tokens::{Symbol, Token, TokenKind};

/// The letters that LIBHDR's WRITEF knows.
const BASIC: &[u8] = b"NSC";

/// The letters that EXTHDR's WRITEF knows, in either case.
const FURTHER: &[u8] = b"NSCIUOXT";

/// Those of them that a width follows.
const WITH_WIDTH: &[u8] = b"IUOXT";

/// The number of EXTHDR's WRITEF.
const FURTHER_NUMBER: u16 = 30;

/// The state of a scan of a format.
#[derive(Clone, Copy)]
enum Reading {
    Plain,
    /// After the `*` of an escape.
    Escape,
    /// After a `%`.
    Percent,
    /// After a letter that a width follows.
    Width,
}

/// The first letter after `%` that isn't known. EXTHDR's `%P` ends the search, since texts between arbitrary signs
/// follow it. The format is given as it is spelled, with its quotes.
fn unknown_letter(format: &[u8], is_further: bool) -> Option<u8> {
    let mut reading = Reading::Plain;
    for byte in format {
        reading = match (reading, *byte) {
            (Reading::Escape, _) => Reading::Plain,
            (_, b'*') => Reading::Escape,
            (Reading::Plain, b'%') => Reading::Percent,
            (Reading::Percent, letter) if letter.is_ascii_alphabetic() => {
                let capital = letter.to_ascii_uppercase();
                if is_further && capital == b'P' {
                    return None;
                } else if is_further && WITH_WIDTH.contains(&capital) {
                    Reading::Width
                } else if is_further && FURTHER.contains(&capital) || BASIC.contains(&letter) {
                    Reading::Plain
                } else {
                    return Some(letter);
                }
            }
            (Reading::Plain | Reading::Percent | Reading::Width, _) => Reading::Plain,
        };
    }
    None
}

/// The string at this index; `None` if the token isn't a string.
fn string_at<'s>(tokens: &[Token<'s>], index: usize) -> Option<&'s [u8]> {
    match tokens.get(index)?.kind {
        TokenKind::String(text) => Some(text),
        _ => None,
    }
}

/// The format at this index, if WRITEF is called with it, and whether that is EXTHDR's WRITEF. The first `library`
/// sources are the library's.
fn format_at<'s>(
    tokens: &[Token<'s>],
    declarations: &Declarations<'_>,
    library: usize,
    index: usize,
) -> Option<(&'s [u8], bool)> {
    let format = string_at(tokens, index)?;
    let routine = index.checked_sub(2)?;
    if !is_called(tokens, routine) || name_at(tokens, routine)? != b"WRITEF".as_slice() {
        return None;
    }
    let (declared, number) = declarations.global_at(routine)?;
    if tokens.get(declared)?.file >= library {
        return None;
    }
    Some((format, number == Some(FURTHER_NUMBER)))
}

/// The first letter after `%` that WRITEF doesn't know, if the token at this index is a format, and whether that is
/// EXTHDR's WRITEF. The first `library` sources are the library's.
pub fn unknown_format(
    tokens: &[Token<'_>],
    declarations: &Declarations<'_>,
    library: usize,
    index: usize,
) -> Option<(u8, bool)> {
    let (format, is_further) = format_at(tokens, declarations, library, index)?;
    Some((unknown_letter(format, is_further)?, is_further))
}

/// How many arguments a format takes whose letters are all known. `None` if a sign of EXTHDR skips an argument, goes
/// back to one, or is followed by texts.
fn taken_by(format: &[u8], is_further: bool) -> Option<usize> {
    let mut reading = Reading::Plain;
    let mut count: usize = 0;
    for byte in format {
        reading = match (reading, *byte) {
            (Reading::Escape, _) => Reading::Plain,
            (_, b'*') => Reading::Escape,
            (Reading::Plain, b'%') => Reading::Percent,
            (Reading::Percent, b'P' | b'p' | b'+' | b'-') if is_further => return None,
            (Reading::Percent, letter) if letter.is_ascii_alphabetic() => {
                count = count.saturating_add(1);
                Reading::Plain
            }
            (Reading::Plain | Reading::Percent | Reading::Width, _) => Reading::Plain,
        };
    }
    Some(count)
}

/// A format that takes more arguments than follow it.
#[derive(Clone, Copy)]
pub struct Lacking {
    /// How many arguments the format takes.
    pub taken: usize,
    /// How many arguments follow it.
    pub given: usize,
}

/// If the token at this index is a format that takes more arguments than follow it: both numbers. All its letters are
/// known. The first `library` sources are the library's.
pub fn lacking_arguments(
    tokens: &[Token<'_>],
    declarations: &Declarations<'_>,
    library: usize,
    index: usize,
) -> Option<Lacking> {
    let (format, is_further) = format_at(tokens, declarations, library, index)?;
    let next = index.saturating_add(1);
    if !is_at(tokens, next, Symbol::Comma) && !is_at(tokens, next, Symbol::CloseBracket) {
        return None;
    }
    let given = arguments_after(tokens, index.checked_sub(1)?)?.saturating_sub(1);
    let taken = taken_by(format, is_further)?;
    if given < taken {
        Some(Lacking { taken, given })
    } else {
        None
    }
}
