//! The tokens that change by themselves: words, signs, names, numbers and strings.

use crate::bytes::span;
use crate::complaint::Fault;
use crate::dialect::Dialect;
use crate::fields::is_of_field;
use crate::formats::gets_header;
use crate::kind::Kind;
use crate::names::{dotted, is_declared, name_change};
use crate::notes::Notes;
use crate::numbers::{NumberChange, decimal, number_change};
use crate::options::{Header, Options};
use crate::quoted::{Respelled, inside_respelled, requoted};
use crate::source::TokenizedText;
use crate::words::reserved;

/// Rewrites each token by itself: words and signs, names with underlines, numbers and strings. Reports what has no
/// counterpart.
pub fn respell(
    source: TokenizedText<'_>,
    notes: &mut Notes,
    dialect: Dialect,
    options: Options<'_, '_>,
    header: Header,
) {
    for index in 0..source.tokens.len() {
        match source.kind(index) {
            Kind::Name => respell_name(source, notes, index, dialect, options),
            Kind::Text => respell_string(source, notes, index, header),
            kind => respell_further(source, notes, index, kind, dialect),
        }
    }
}

/// Rewrites a token that is neither a name nor a string.
fn respell_further(
    source: TokenizedText<'_>,
    notes: &mut Notes,
    index: usize,
    kind: Kind,
    dialect: Dialect,
) {
    match kind {
        Kind::Number => respell_number(source, notes, index),
        Kind::Character => respell_character(source, notes, index),
        Kind::Floating => notes.complain(source, index, Fault::Floating),
        Kind::Foreign if is_of_field(source, index) => {}
        Kind::Foreign => {
            notes.complain(source, index, foreign_fault(source.bytes(index)));
            respell_sign(source, notes, index, kind, dialect);
        }
        Kind::Unclosed => notes.complain(source, index, Fault::Unclosed),
        Kind::Condition => notes.complain(source, index, Fault::OpenCondition),
        Kind::Unknown => respell_unknown(source, notes, index),
        _ => respell_sign(source, notes, index, kind, dialect),
    }
}

/// Whether a token is a byte with which some systems fill up files.
fn is_filler(bytes: &[u8]) -> bool {
    matches!(bytes, [0x1a | 0])
}

/// Whether only fillers follow from the token at an index on.
fn is_filled_up(source: TokenizedText<'_>, index: usize) -> bool {
    for at in index..source.tokens.len() {
        if !is_filler(source.bytes(at)) {
            return false;
        }
    }
    true
}

/// Rewrites a byte that begins no token. Fillers at the end of the text are removed, and so is the full stop after
/// its last section. A full stop at the end of a line ends a section before another one.
fn respell_unknown(source: TokenizedText<'_>, notes: &mut Notes, index: usize) {
    let next = index.saturating_add(1);
    let is_stop = source.bytes(index) == b".".as_slice();
    if is_filled_up(source, index) || is_stop && is_filled_up(source, next) {
        notes.replace(index, b"");
    } else if is_stop && source.gap(next).contains(&b'\n') {
        notes.complain(source, index, Fault::SectionEnd);
    } else {
        notes.complain(source, index, Fault::UnknownByte);
    }
}

/// Why a word or sign has no counterpart.
fn foreign_fault(bytes: &[u8]) -> Fault {
    if bytes == b"<>".as_slice() {
        Fault::JoinedCommands
    } else if bytes.eq_ignore_ascii_case(b"EXTERNAL") {
        Fault::External
    } else {
        Fault::Field
    }
}

/// Why a routine of an old library has no counterpart.
fn routine_fault(bytes: &[u8]) -> Option<Fault> {
    let is = |name: &[u8]| bytes.eq_ignore_ascii_case(name);
    if is(b"LEVEL") || is(b"LONGJUMP") {
        Some(Fault::LongJump)
    } else if is(b"CREATECO")
        || is(b"CALLCO")
        || is(b"COWAIT")
        || is(b"RESUMECO")
        || is(b"DELETECO")
    {
        Some(Fault::Coroutine)
    } else {
        None
    }
}

/// Whether the name at an index is SELECTON, which begins an expression in some dialects.
fn is_choice(source: TokenizedText<'_>, index: usize) -> bool {
    let next = index.saturating_add(1);
    source.bytes(index).eq_ignore_ascii_case(b"SELECTON")
        && matches!(source.kind(next), Kind::Name | Kind::OpenRound)
        && !is_declared(source, index)
}

/// Rewrites a name.
fn respell_name(
    source: TokenizedText<'_>,
    notes: &mut Notes,
    index: usize,
    dialect: Dialect,
    options: Options<'_, '_>,
) {
    if source.kind(index.saturating_add(1)) == Kind::OpenRound
        && let Some(fault) = routine_fault(source.bytes(index))
        && !is_declared(source, index)
    {
        notes.complain(source, index, fault);
    }
    if is_choice(source, index) {
        notes.complain(source, index, Fault::Choice);
    }
    let change = name_change(notes.alloc(), source, index, dialect, options);
    if let Some(Some(new)) = notes.made(change) {
        notes.replace(index, new.as_slice());
    }
}

/// Rewrites a number.
fn respell_number(source: TokenizedText<'_>, notes: &mut Notes, index: usize) {
    let change = number_change(notes.alloc(), source, index);
    match notes.made(change) {
        None | Some(NumberChange::Kept) => {}
        Some(NumberChange::Written(text)) => notes.replace(index, text.as_bytes()),
        Some(NumberChange::Fault(fault)) => notes.complain(source, index, fault),
    }
}

/// The bytes between the quotes of a string or constant.
pub fn inside(bytes: &[u8]) -> &[u8] {
    span(bytes, 1, bytes.len().saturating_sub(1))
}

/// Rewrites the name of the library's header.
pub fn respell_header(source: TokenizedText<'_>, notes: &mut Notes, index: usize, header: Header) {
    let name: &[u8] = match header {
        Header::Further => b"\"EXTHDR\"",
        Header::Basic => b"\"LIBHDR\"",
    };
    replace_if_other(source, notes, index, name)
}

/// Rewrites a string. After GET the library's header gets its name in this dialect.
fn respell_string(source: TokenizedText<'_>, notes: &mut Notes, index: usize, header: Header) {
    if gets_header(source, index) {
        return respell_header(source, notes, index, header);
    }
    if source.bytes(index).starts_with(b"'".as_slice()) {
        return respell_quoted(source, notes, index);
    }
    match respelled(source, notes, index) {
        Some(respelled) if respelled.count > 255 => notes.complain(
            source,
            index,
            Fault::StringTooLong,
        ),
        Some(respelled) => put_quoted(source, notes, index, b"\"", respelled.inside.as_slice()),
        None => {}
    }
}

/// Rewrites a string in single quotes.
fn respell_quoted(source: TokenizedText<'_>, notes: &mut Notes, index: usize) {
    if let Some(respelled) = respelled(source, notes, index) {
        if respelled.count > 255 {
            return notes.complain(source, index, Fault::StringTooLong);
        }
        let text = requoted(notes.alloc(), respelled.inside.as_slice());
        if let Some(text) = notes.made(text) {
            notes.replace(index, text.as_slice());
        }
    }
}

/// Rewrites a character constant. One without a visible character becomes a number.
fn respell_character(source: TokenizedText<'_>, notes: &mut Notes, index: usize) {
    match source.bytes(index) {
        [b'$', letter] => return notes.replace(index, &[b'\'', *letter, b'\'']),
        [b'$', b'*', letter] => {
            let letter = letter.to_ascii_uppercase();
            return notes.replace(index, &[b'\'', b'*', letter, b'\'']);
        }
        _ => {}
    }
    match respelled(source, notes, index) {
        Some(respelled) if respelled.count != 1 => notes.complain(
            source,
            index,
            Fault::NotOneCharacter,
        ),
        Some(respelled) => match respelled.numbered {
            Some(byte) if !byte.is_ascii_graphic() && byte != b' ' => {
                let digits = decimal(notes.alloc(), i64::from(byte));
                if let Some(digits) = notes.made(digits) {
                    notes.replace(index, digits.as_bytes());
                }
            }
            _ => put_quoted(source, notes, index, b"'", respelled.inside.as_slice()),
        },
        None => {}
    }
}

/// What is between the quotes at an index, as this dialect writes it. Reports its fault.
fn respelled(source: TokenizedText<'_>, notes: &mut Notes, index: usize) -> Option<Respelled> {
    let inside = inside_respelled(notes.alloc(), inside(source.bytes(index)));
    match notes.made(inside)? {
        Ok(respelled) => Some(respelled),
        Err(fault) => {
            notes.complain(source, index, fault);
            None
        }
    }
}

/// Replaces what is between the quotes at an index, if it differs.
fn put_quoted(source: TokenizedText<'_>, notes: &mut Notes, index: usize, sign: &[u8], new: &[u8]) {
    if inside(source.bytes(index)) != new {
        notes.replace(index, new);
        notes.put_before(index, sign);
        notes.put_after(index.saturating_add(1), sign);
    }
}

/// Replaces a token that is spelled otherwise.
fn replace_if_other(source: TokenizedText<'_>, notes: &mut Notes, index: usize, bytes: &[u8]) {
    if source.bytes(index) != bytes {
        notes.replace(index, bytes);
    }
}

/// Rewrites a reserved word or a sign.
fn respell_sign(
    source: TokenizedText<'_>,
    notes: &mut Notes,
    index: usize,
    kind: Kind,
    dialect: Dialect,
) {
    let bytes = source.bytes(index);
    if let Some(word) = reserved(bytes, dialect.has_small_words)
        && kind != Kind::Header
    {
        return replace_if_other(source, notes, index, word.spelling);
    }
    match kind {
        Kind::Query => notes.replace(index, b"0"),
        Kind::Underline => notes.replace(index, b":="),
        Kind::Not => replace_if_other(source, notes, index, b"~"),
        Kind::Address if dialect.has_alto_signs => notes.replace(index, b"!"),
        Kind::Relation => respell_relation(source, notes, index),
        Kind::Assign | Kind::Arrow | Kind::Conjunction | Kind::Disjunction => {
            respell_drawn(source, notes, index);
        }
        Kind::OpenRound => replace_if_other(source, notes, index, b"("),
        Kind::CloseRound => replace_if_other(source, notes, index, b")"),
        Kind::OpenSection => respell_section(source, notes, index, b"$("),
        Kind::CloseSection => respell_section(source, notes, index, b"$)"),
        _ => {}
    }
}

/// Rewrites an arrow, or a logical sign, that isn't ASCII, and the `%` and the `?` of the Alto.
fn respell_drawn(source: TokenizedText<'_>, notes: &mut Notes, index: usize) {
    let sign: &[u8] = match source.bytes(index) {
        [0xe2, 0x86, 0x90] => b":=",
        [0xe2, 0x86, 0x92] | [b'?'] => b"->",
        [0xe2, 0x88, 0xa7] => b"&",
        [0xe2, 0x88, 0xa8] | [b'%'] => b"|",
        bytes => bytes,
    };
    replace_if_other(source, notes, index, sign)
}

/// Rewrites the sign of a relation.
fn respell_relation(source: TokenizedText<'_>, notes: &mut Notes, index: usize) {
    let sign: &[u8] = match source.bytes(index) {
        [b'\\' | b'^' | b'!' | 0xc2, ..] | [0xe2, 0x89, 0xa0] => b"~=",
        [b'=', ..] => b"=",
        [0xe2, 0x89, 0xa4] => b"<=",
        [0xe2, 0x89, 0xa5] => b">=",
        bytes => bytes,
    };
    replace_if_other(source, notes, index, sign)
}

/// Rewrites a section bracket, with dots for the underlines of its tag.
fn respell_section(source: TokenizedText<'_>, notes: &mut Notes, index: usize, sign: &[u8]) {
    let bytes = source.bytes(index);
    if bytes.starts_with(sign) && !bytes.contains(&b'_') {
        return;
    }
    notes.replace(index, sign);
    for byte in span(bytes, 2, bytes.len()) {
        notes.put_after(index.saturating_add(1), &[dotted(*byte)]);
    }
}
