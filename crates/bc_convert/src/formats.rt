//! Which header a program needs: formats of WRITEF, names, and GETs of the library's header.

use crate::bytes::{first, span};
use crate::kind::Kind;
use crate::names::{has_routine, is_for};
use crate::old_names::OldNames;
use crate::source::TokenizedText;
use crate::spelling::inside;
use bc_library_ext::further_bit;

/// The format of a call of WRITEF.
#[derive(Clone, Copy)]
pub enum Format {
    /// A string, in a call that LIBHDR's WRITEF supports.
    Plain,
    /// A string with letters, or with more arguments, that only EXTHDR's WRITEF supports.
    Further,
    /// Something other than a string.
    Hidden,
}

/// The format of the call of WRITEF whose name is at an index. `None` if there is no such call, or if the source
/// declares a routine of that name.
pub fn format_at(
    source: TokenizedText<'_>,
    index: usize,
    library: &OldNames<'_>,
) -> Option<Format> {
    let opening = index.saturating_add(1);
    let format = index.saturating_add(2);
    let is_call = source.kind(index) == Kind::Name
        && source.kind(opening) == Kind::OpenRound
        && source.kind(format) != Kind::CloseRound
        && is_for(source.bytes(index), library, b"WRITEF")
        && !has_routine(source, index);
    if !is_call {
        return None;
    }
    match seen(source, opening) {
        _ if arguments(source, opening) > 5 => Some(Format::Further),
        Some(true) => Some(Format::Further),
        Some(false) => Some(Format::Plain),
        None => Some(Format::Hidden),
    }
}

/// Whether the format after the parenthesis at an index needs EXTHDR. `None` if it is neither a string nor a choice
/// between strings.
fn seen(source: TokenizedText<'_>, opening: usize) -> Option<bool> {
    let format = opening.saturating_add(1);
    if source.kind(format) == Kind::Text {
        return Some(is_further_string(source, format));
    }
    let mut is_further = None;
    let mut depth: usize = 0;
    let mut waiting: usize = 0;
    for index in format..source.partner(opening) {
        let kind = source.kind(index);
        match kind {
            Kind::OpenRound | Kind::OpenSection => depth = depth.saturating_add(1),
            Kind::CloseRound | Kind::CloseSection => depth = depth.saturating_sub(1),
            Kind::Comma if depth == 0 && waiting == 0 => return is_further,
            Kind::Arrow | Kind::Comma if depth == 0 => {
                let string = index.saturating_add(1);
                if source.kind(string) != Kind::Text {
                    return None;
                }
                is_further = Some(is_further == Some(true) || is_further_string(source, string));
                waiting = if kind == Kind::Arrow {
                    waiting.saturating_add(1)
                } else {
                    waiting.saturating_sub(1)
                };
            }
            _ => {}
        }
    }
    is_further
}

/// The bytes of the string at an index; empty if there is none.
fn text_at(source: TokenizedText<'_>, index: usize) -> &[u8] {
    match source.kind(index) {
        Kind::Text => source.bytes(index),
        _ => &[],
    }
}

/// The number of arguments after the parenthesis at an index. The comma of a choice doesn't count.
fn arguments(source: TokenizedText<'_>, opening: usize) -> usize {
    let mut count: usize = 1;
    let mut depth: usize = 0;
    for index in opening.saturating_add(1)..source.partner(opening) {
        match source.kind(index) {
            Kind::OpenRound | Kind::OpenSection => depth = depth.saturating_add(1),
            Kind::CloseRound | Kind::CloseSection => depth = depth.saturating_sub(1),
            Kind::Comma if depth == 0 => count = count.saturating_add(1),
            Kind::Arrow if depth == 0 => count = count.saturating_sub(1),
            _ => {}
        }
    }
    count
}

/// Whether a format has a letter that BLIB's WRITEF doesn't know.
fn has_further_letter(format: &[u8]) -> bool {
    for pair in format.windows(2) {
        if matches!(
            pair,
            [
                b'%',
                b'I' | b'i'
                    | b'O'
                    | b'o'
                    | b'X'
                    | b'x'
                    | b'T'
                    | b't'
                    | b'U'
                    | b'u'
                    | b'P'
                    | b'p'
                    | b'n'
                    | b's'
                    | b'c'
            ]
        ) {
            return true;
        }
    }
    false
}

/// Whether the token at an index is a string with such a letter.
pub fn is_further_string(source: TokenizedText<'_>, index: usize) -> bool {
    has_further_letter(text_at(source, index))
}

/// The bit of the name at an index, if only EXTHDR has it, else 0. Names of an old library count as their new names.
pub fn bit_at(source: TokenizedText<'_>, index: usize, library: &OldNames<'_>) -> u64 {
    let word = source.bytes(index);
    if source.kind(index) != Kind::Name {
        return 0;
    }
    match library.renamed(word) {
        Some(new) => further_bit(new),
        None => further_bit(word),
    }
}

/// Whether the string at an index follows GET and names the library's header, in either case and with any extension.
pub fn gets_header(source: TokenizedText<'_>, index: usize) -> bool {
    index > 0
        && source.kind(index - 1) == Kind::Get
        && is_library_header(inside(source.bytes(index)))
}

/// Whether a name is that of the library's header, in either case and with any extension.
pub fn is_library_header(name: &[u8]) -> bool {
    let stem = match first(name, b'.') {
        Some(dot) => span(name, 0, dot),
        None => name,
    };
    stem.eq_ignore_ascii_case(b"LIBHDR") || stem == b"EXTHDR".as_slice()
}

/// Whether the source gets no header but the library's.
pub fn gets_header_alone(source: TokenizedText<'_>) -> bool {
    for index in 1..source.tokens.len() {
        if source.kind(index - 1) == Kind::Get && !gets_header(source, index) {
            return false;
        }
    }
    true
}
