//! Places that are lawful and may mean something else in an older dialect. They are reported.

use crate::bytes::span;
use crate::complaint::Fault;
use crate::dialect::Dialect;
use crate::formats::{Format, format_at, gets_header};
use crate::kind::Kind;
use crate::names::{declares_routine, is_for, is_number};
use crate::notes::Notes;
use crate::numbers::value_of_number;
use crate::old_names::OldNames;
use crate::operands::is_adjacent;
use crate::options::Options;
use crate::program::Program;
use crate::source::TokenizedText;
use crate::wide_values::find_wide_values;

/// Reports shifts by 16 or more and parameters of START.
pub fn find_doubts(source: TokenizedText<'_>, notes: &mut Notes, options: Options<'_, '_>) {
    for index in 0..source.tokens.len() {
        let next = index.saturating_add(1);
        match source.kind(index) {
            Kind::Shift if matches!(value_of_number(source, next), Ok(value) if value > 15) => {
                notes.complain(source, next, Fault::LongShift);
            }
            Kind::Name if has_parameter(source, index, options.library) => {
                notes.complain(source, index.saturating_add(2), Fault::StartParameter);
            }
            _ => {}
        }
    }
    find_wide_values(source, notes);
}

/// Whether START is declared with a parameter at an index.
fn has_parameter(source: TokenizedText<'_>, index: usize, library: &OldNames<'_>) -> bool {
    is_for(source.bytes(index), library, b"START")
        && declares_routine(source, index)
        && source.kind(index.saturating_add(2)) == Kind::Name
}

/// Whether the operand before the sign at an index can be a vector.
fn may_be_vector(source: TokenizedText<'_>, star: usize) -> bool {
    let Some(before) = star.checked_sub(1) else {
        return false;
    };
    match source.kind(before) {
        Kind::Name => !is_number(source, before),
        Kind::CloseRound => true,
        _ => false,
    }
}

/// Reports `*(` in a source that shows no subscripts with a star, if others of its program do.
pub fn find_stars(source: TokenizedText<'_>, notes: &mut Notes, program: Program) {
    if !program.has_stars || program.dialect.has_star_subscripts {
        return;
    }
    for index in 1..source.tokens.len() {
        if source.kind(index) == Kind::Star
            && source.kind(index.saturating_add(1)) == Kind::OpenRound
            && is_adjacent(source, index)
            && may_be_vector(source, index)
            && notes.is_new_star(source, index - 1)
        {
            notes.complain(source, index, Fault::StarLeft);
        }
    }
}

/// Reports calls of WRITEF that LIBHDR's doesn't support, in a lawful source that gets LIBHDR.
pub fn find_formats(source: TokenizedText<'_>, notes: &mut Notes, options: Options<'_, '_>) {
    let gets_basic = (0..source.tokens.len()).any(|index| gets_header(source, index)
        && source.bytes(index) == b"\"LIBHDR\"".as_slice());
    if !gets_basic {
        return;
    }
    for index in 0..source.tokens.len() {
        if let Some(Format::Further) = format_at(source, index, options.library) {
            notes.complain(source, index, Fault::FurtherCall);
        }
    }
}

/// Whether a source looks like one for the Alto: it has a block in square brackets, or a character written with a dollar sign.
pub fn looks_like_alto(source: TokenizedText<'_>) -> bool {
    for index in 0..source.tokens.len() {
        match source.kind(index) {
            Kind::Character if source.bytes(index).starts_with(b"$".as_slice()) => return true,
            Kind::OpenSection if source.bytes(index) == b"[".as_slice() => return true,
            _ => {}
        }
    }
    false
}

/// Whether a source has LV.
fn has_address_word(source: TokenizedText<'_>) -> bool {
    for index in 0..source.tokens.len() {
        if source.kind(index) == Kind::Address && source.bytes(index).eq_ignore_ascii_case(b"LV") {
            return true;
        }
    }
    false
}

/// Reports each `@` in a source that may be written for the Alto: it looks like that, or has LV.
fn find_contents(source: TokenizedText<'_>, notes: &mut Notes) {
    if !looks_like_alto(source) && !has_address_word(source) {
        return;
    }
    for index in 0..source.tokens.len() {
        if source.kind(index) == Kind::Address && source.bytes(index) == b"@".as_slice() {
            notes.complain(source, index, Fault::AltoContent);
        }
    }
}

/// Whether a number is decimal.
fn is_decimal(source: TokenizedText<'_>, index: usize) -> bool {
    source.kind(index) == Kind::Number && !source.bytes(index).starts_with(b"#".as_slice())
}

/// Whether a number looks like an octal mask: at least three digits up to 7, the last two 7.
fn looks_octal(digits: &[u8]) -> bool {
    if digits.len() <= 2 || !digits.ends_with(b"77".as_slice()) {
        return false;
    }
    for digit in digits.iter() {
        if !matches!(digit, b'0'..=b'7') {
            return false;
        }
    }
    true
}

/// Reports the first number that looks octal, if no number has a digit 8 or 9.
fn find_octal_number(source: TokenizedText<'_>, notes: &mut Notes) {
    let count = source.tokens.len();
    let mut octal = None;
    for index in 0..count {
        if is_decimal(source, index) {
            let digits = source.bytes(index);
            if digits.contains(&b'8') || digits.contains(&b'9') {
                return;
            }
            if octal.is_none() && looks_octal(digits) {
                octal = Some(index);
            }
        }
    }
    if let Some(index) = octal {
        notes.complain(source, index, Fault::OctalNumber);
    }
}

/// Whether a string or character has an escape of three digits that is taken for decimal and may be octal.
fn has_octal_escape(bytes: &[u8]) -> bool {
    let mut is_escaped = false;
    for (index, byte) in bytes.iter().enumerate() {
        let digits = span(bytes, index, index.saturating_add(3));
        if is_escaped && matches!(digits, [b'1' | b'2', b'0'..=b'7', b'0'..=b'7']) {
            return true;
        }
        is_escaped = *byte == b'*' && !is_escaped;
    }
    false
}

/// Reports each string or character with such an escape.
fn find_octal_escapes(source: TokenizedText<'_>, notes: &mut Notes) {
    for index in 0..source.tokens.len() {
        if matches!(source.kind(index), Kind::Text | Kind::Character)
            && has_octal_escape(source.bytes(index))
        {
            notes.complain(source, index, Fault::OctalEscape);
        }
    }
}

/// Reports what means something else in the dialect of the Alto, unless the source has that, and what may be octal.
pub fn find_old_meanings(source: TokenizedText<'_>, notes: &mut Notes, dialect: Dialect) {
    if !dialect.has_alto_signs {
        find_contents(source, notes);
    }
    find_octal_number(source, notes);
    find_octal_escapes(source, notes);
}

/// Whether the name at an index is set up as a vector: declared with VEC or TABLE, or something is assigned to a subscript of
/// it with a star.
pub fn shows_vector(source: TokenizedText<'_>, index: usize) -> bool {
    let next = index.saturating_add(1);
    match source.kind(next) {
        Kind::Equal | Kind::Assign => {
            matches!(source.kind(next.saturating_add(1)), Kind::Vec | Kind::Table)
        }
        Kind::Star => {
            let closing = source.partner(next.saturating_add(1));
            let sign = source.kind(closing.saturating_add(1));
            is_adjacent(source, next) && matches!(sign, Kind::Assign | Kind::Underline)
        }
        _ => false,
    }
}

/// Whether the operand from `at` up to `end` is a name that is set up as a vector somewhere in the source.
fn is_vector(source: TokenizedText<'_>, at: usize, end: usize) -> bool {
    end == at.saturating_add(1) && source.name(at).is_vector
}

/// Reports that `*(` after the operand from `at` up to `star` is taken for a subscript, unless that is certain. A name is
/// reported once.
pub fn tell_star(source: TokenizedText<'_>, notes: &mut Notes, at: usize, star: usize) {
    let name = star.saturating_sub(1);
    let is_name = name == at;
    let is_new = !is_name || notes.is_new_star(source, name);
    if is_new && !is_vector(source, at, star) {
        notes.complain(source, star, Fault::StarSubscript);
    }
}
