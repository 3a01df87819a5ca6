//! What a name is called in this dialect, where it is declared, and how it is used.

use crate::dialect::Dialect;
use crate::doubts::shows_vector;
use crate::fields::declares_field;
use crate::kind::Kind;
use crate::library::library_name;
use crate::name_facts::NameFacts;
use crate::numbers::{decimal, value_of_number};
use crate::old_names::OldNames;
use crate::options::Options;
use crate::source::TokenizedText;
use crate::words::reserved;
use bc_word::Memory;
use std::alloc::Global;

/// A byte of a name, with a dot for an underline.
pub fn dotted(byte: u8) -> u8 {
    if byte == b'_' { b'.' } else { byte }
}

/// A name with dots for its underlines, followed by the number if that isn't 1.
///
/// # Errors
///
/// `Memory` if an allocation failed.
pub fn with_dots(alloc: Global, bytes: &[u8], number: u32) -> Result<Vec<u8>, Memory> {
    let mut text = Vec::new(alloc);
    for byte in bytes {
        text.push(dotted(*byte))?;
    }
    if number != 1 {
        text.extend_from_slice(decimal(alloc, i64::from(number))?.as_bytes())?;
    }
    Ok(text)
}

/// Whether a word is this name of the library, in either case, or is renamed to it.
pub fn is_for(word: &[u8], library: &OldNames<'_>, name: &[u8]) -> bool {
    match library.renamed(word) {
        Some(new) => new == name,
        None => word.eq_ignore_ascii_case(name),
    }
}

/// Whether a word has no upper-case letter.
fn is_small(word: &[u8]) -> bool {
    for byte in word.iter() {
        if byte.is_ascii_uppercase() {
            return false;
        }
    }
    true
}

/// Whether the name at an index is a reserved word in this dialect.
fn is_reserved_here(source: TokenizedText<'_>, index: usize) -> bool {
    matches!(reserved(source.bytes(index), false), Some(word) if !word.is_name_now)
}

/// Whether a word has upper-case and lower-case letters.
fn is_mixed(word: &[u8]) -> bool {
    if is_small(word) {
        return false;
    }
    for byte in word.iter() {
        if byte.is_ascii_lowercase() {
            return true;
        }
    }
    false
}

/// Whether the name at an index, in upper and lower case, must be the library's: the source doesn't declare it and gets no
/// other header.
fn is_mixed_library(source: TokenizedText<'_>, index: usize) -> bool {
    is_mixed(source.bytes(index)) && source.names.gets_library_alone && !is_declared(source, index)
}

/// The library's name that the name at an index means, in a dialect that spells it otherwise.
fn for_library(source: TokenizedText<'_>, index: usize, dialect: Dialect) -> Option<&'static [u8]> {
    let bytes = source.bytes(index);
    let new = library_name(bytes)?;
    let is_meant = dialect.has_small_words || dialect.has_small_library && is_small(bytes);
    let is_own = is_meant && source.names.gets_library_alone && is_own(source, index);
    if is_meant && !is_own || !is_meant && is_mixed_library(source, index) {
        Some(new)
    } else {
        None
    }
}

/// Whether the name at an index is `UG`, the number of the first free global, in a list of GLOBAL.
pub fn is_first_free(source: TokenizedText<'_>, index: usize) -> bool {
    index > 0
        && source.bytes(index).eq_ignore_ascii_case(b"UG")
        && source.kind(index - 1) == Kind::Colon
        && listing_word(source, index) == Kind::Global
        && !is_declared(source, index)
}

/// The new name of the name at an index, if it changes.
pub fn name_change(
    alloc: Global,
    source: TokenizedText<'_>,
    index: usize,
    dialect: Dialect,
    options: Options<'_, '_>,
) -> Result<Option<Vec<u8>>, Memory> {
    if let Some(new) = new_name(source, index, dialect, options) {
        return Ok(Some(Vec::from_slice(alloc, new)?));
    }
    if is_reserved_here(source, index) {
        let mut name = Vec::from_slice(alloc, source.bytes(index))?;
        name.extend_from_slice(b".NAME")?;
        return Ok(Some(name));
    }
    if source.bytes(index).contains(&b'_') {
        let suffix = source.name(index).suffix;
        return Ok(Some(with_dots(alloc, source.bytes(index), suffix)?));
    }
    Ok(None)
}

/// The new name, if the library or the list of names gives one.
fn new_name<'o>(
    source: TokenizedText<'_>,
    index: usize,
    dialect: Dialect,
    options: Options<'o, '_>,
) -> Option<&'o [u8]> {
    if let Some(new) = options.library.renamed(source.bytes(index)) {
        return Some(new);
    }
    if let Some(new) = for_library(source, index, dialect) {
        return Some(new);
    }
    if is_first_free(source, index) {
        return Some(b"200");
    }
    None
}

/// Whether the name at an index is declared somewhere in the source.
pub fn is_declared(source: TokenizedText<'_>, index: usize) -> bool {
    source.name(index).is_declared
}

/// What the name at an index shows there.
pub fn shown_at(source: TokenizedText<'_>, index: usize) -> NameFacts {
    let next = index.saturating_add(1);
    NameFacts {
        first: index,
        is_declared: declares(source, index),
        is_own: declares_own(source, index),
        is_routine: declares_routine(source, index),
        is_called: is_called(source, index),
        is_vector: shows_vector(source, index),
        has_star: source.kind(next) == Kind::Star
            && source.kind(next.saturating_add(1)) == Kind::OpenRound,
        is_number: false,
        suffix: 1,
        value: declared_value(source, index),
        is_constant: is_manifest_entry(source, index),
        is_field: declares_field(source, index),
    }
}

/// The number that the name at an index is declared to be by MANIFEST.
fn declared_value(source: TokenizedText<'_>, index: usize) -> Option<u32> {
    let value = index.saturating_add(2);
    let end = index.saturating_add(3);
    let is_alone = source.is_separated(end) || source.kind(end).level() == 0;
    let is_number = source.kind(index.saturating_add(1)) == Kind::Equal
        && source.kind(value) == Kind::Number
        && is_alone
        && listing_word(source, index) == Kind::Manifest;
    if is_number {
        value_of_number(source, value).ok()
    } else {
        None
    }
}

/// Whether the token at an index is a name that a list of MANIFEST declares.
pub fn is_manifest_entry(source: TokenizedText<'_>, index: usize) -> bool {
    source.kind(index) == Kind::Name
        && listing_word(source, index) == Kind::Manifest
        && declares(source, index)
}

/// Whether the token at an index is a name in a list of GLOBAL.
pub fn is_declared_global(source: TokenizedText<'_>, index: usize) -> bool {
    source.kind(index) == Kind::Name && listing_word(source, index) == Kind::Global
}

/// Whether the name at an index is declared there: after LET, AND or FOR, as a parameter, or in a list of GLOBAL,
/// MANIFEST or STATIC.
pub fn declares(source: TokenizedText<'_>, index: usize) -> bool {
    if index == 0 {
        return false;
    }
    match source.kind(index - 1) {
        Kind::Let | Kind::And | Kind::For => true,
        Kind::Comma | Kind::OpenRound => {
            source.context(index).is_in_heading || is_entry(source, index)
        }
        Kind::OpenSection | Kind::Semicolon => is_entry(source, index),
        _ => source.is_separated(index) && is_entry(source, index),
    }
}

/// Whether a name is in a list of GLOBAL, MANIFEST or STATIC.
pub fn is_entry(source: TokenizedText<'_>, index: usize) -> bool {
    matches!(
        listing_word(source, index),
        Kind::Global | Kind::Manifest | Kind::Static
    )
}

/// Whether a name is in a list of this kind.
pub fn is_in_list_of(source: TokenizedText<'_>, index: usize, list: Kind) -> bool {
    listing_word(source, index) == list
}

/// The token before the innermost section bracket around a name; `End` if the nearest section bracket before the name
/// is a closing one.
fn listing_word(source: TokenizedText<'_>, index: usize) -> Kind {
    match source.context(index).bracket {
        Some(bracket) if bracket > 0 && source.kind(bracket) == Kind::OpenSection => {
            source.kind(bracket - 1)
        }
        _ => Kind::End,
    }
}

/// Whether a parenthesis follows the name at an index.
pub fn is_called(source: TokenizedText<'_>, index: usize) -> bool {
    source.kind(index.saturating_add(1)) == Kind::OpenRound
}

/// Whether the name at an index is declared there as a routine.
pub fn declares_routine(source: TokenizedText<'_>, index: usize) -> bool {
    index > 0 && matches!(source.kind(index - 1), Kind::Let | Kind::And) && is_called(source, index)
}

/// Whether the source declares a routine with the name at an index.
pub fn has_routine(source: TokenizedText<'_>, index: usize) -> bool {
    source.name(index).is_routine
}

/// Whether the name at an index, which a star and a parenthesis follow, is used as a number somewhere in the source: declared by
/// MANIFEST, the variable of a FOR, or set to or compared with a number other than 0.
pub fn is_number(source: TokenizedText<'_>, index: usize) -> bool {
    source.name(index).is_number
}

/// Whether the name at an index is used there as a number.
pub fn stands_as_number(source: TokenizedText<'_>, index: usize) -> bool {
    let before = if index == 0 {
        Kind::End
    } else {
        source.kind(index - 1)
    };
    let is_content = matches!(before, Kind::Bang | Kind::Content | Kind::Address);
    before == Kind::For
        || !is_content && begins_number(source, value_of_name(source, index))
        || declares(source, index) && listing_word(source, index) == Kind::Manifest
}

/// Whether a number other than 0 is at an index, with or without a sign.
fn begins_number(source: TokenizedText<'_>, index: usize) -> bool {
    let number = if source.kind(index) == Kind::Add {
        index.saturating_add(1)
    } else {
        index
    };
    matches!(value_of_number(source, number), Ok(value) if value != 0)
}

/// The index of the value that the name at an index is set to or compared with, or the name's own index if there is
/// none. In a list it is the value with the same position as the name.
fn value_of_name(source: TokenizedText<'_>, index: usize) -> usize {
    let next = index.saturating_add(1);
    let sign = if source.kind(next) == Kind::Comma {
        after_list(source, next)
    } else {
        next
    };
    match source.kind(sign) {
        Kind::Equal if source.context(index).is_in_heading => value_after(source, sign, index),
        Kind::Assign | Kind::Underline => value_after(source, sign, index),
        Kind::Equal | Kind::Relation if sign == next => next.saturating_add(1),
        _ => index,
    }
}

/// The index after the rest of a list of variables, from a comma in it on.
fn after_list(source: TokenizedText<'_>, comma: usize) -> usize {
    let mut open: usize = 0;
    for at in comma..source.tokens.len() {
        if open == 0 && source.is_separated(at) {
            return comma;
        }
        match source.kind(at) {
            Kind::OpenRound => open = open.saturating_add(1),
            Kind::CloseRound if open > 0 => open = open.saturating_sub(1),
            Kind::Comma | Kind::Star => {}
            kind if open > 0 || kind.can_be_operand() => {}
            _ => return at,
        }
    }
    comma
}

/// How many names precede the name at an index in its list. Commas inside brackets don't count.
fn names_before(source: TokenizedText<'_>, index: usize) -> usize {
    let mut count: usize = 0;
    let mut closed: usize = 0;
    for back in 1..=index {
        let at = index - back;
        if closed == 0 && source.is_separated(at.saturating_add(1)) {
            return count;
        }
        match source.kind(at) {
            Kind::CloseRound => closed = closed.saturating_add(1),
            Kind::OpenRound if closed > 0 => closed = closed.saturating_sub(1),
            _ if closed > 0 => {}
            Kind::Comma => count = count.saturating_add(1),
            kind if kind.can_be_operand() || kind == Kind::Star => {}
            _ => return count,
        }
    }
    count
}

/// The index of the value after `sign` that has the same position in its list as `name` has. Commas inside brackets
/// and choices don't count. It is `name` if there is no such value.
fn value_after(source: TokenizedText<'_>, sign: usize, name: usize) -> usize {
    let mut left = names_before(source, name);
    let mut open: usize = 0;
    let mut waiting: usize = 0;
    for index in sign.saturating_add(1)..source.tokens.len() {
        if left == 0 {
            return index;
        }
        if open == 0 && source.is_separated(index) {
            return name;
        }
        match source.kind(index) {
            Kind::OpenRound | Kind::OpenSection => open = open.saturating_add(1),
            Kind::CloseRound | Kind::CloseSection => open = open.saturating_sub(1),
            _ if open > 0 => {}
            Kind::Arrow => waiting = waiting.saturating_add(1),
            Kind::Comma if waiting > 0 => waiting = waiting.saturating_sub(1),
            Kind::Comma => left = left.saturating_sub(1),
            _ => {}
        }
    }
    name
}

/// Whether the name at an index is declared there, other than by GLOBAL.
fn declares_own(source: TokenizedText<'_>, index: usize) -> bool {
    declares(source, index) && listing_word(source, index) != Kind::Global
}

/// Whether the name at an index is the source's own, although the library has it. Either it is a routine other than
/// START, or it is declared other than by GLOBAL and never called.
fn is_own(source: TokenizedText<'_>, index: usize) -> bool {
    let name = source.name(index);
    if name.is_routine {
        return !source.bytes(index).eq_ignore_ascii_case(b"START");
    }
    name.is_own && !name.is_called
}
