//! What was changed in a file, by kind.

use bc_convert::{Replacement, is_library_header, library_name};
use bc_word::Memory;
use std::alloc::Global;

/// The kinds of changes, in the order of the report.
pub const KINDS: [&str; 19] = [
    "names of the library, in upper case",
    "reserved words, in upper case or with their present spelling",
    "the library's header",
    "names with underlines",
    "reserved words that were names, with the ending .NAME",
    "other names",
    "section brackets for [ ] and { }",
    "parentheses for [ ]",
    ":= for _",
    "! for the star of a subscript",
    "! for rv, @ for lv",
    "other signs",
    "numbers",
    "strings and characters",
    "the ends of lines, and card numbers",
    "brackets and separators put in",
    "removed",
    "constructs that were rewritten",
    "numbers and values of declared names, put in",
];

/// Whether bytes are a name or a word.
fn is_word(bytes: &[u8]) -> bool {
    let is_begun = bytes
        .first()
        .is_some_and(|first| first.is_ascii_alphabetic());
    is_begun
        && bytes.iter().all(|byte| byte.is_ascii_alphanumeric() || *byte == b'.' || *byte == b'_')
}

/// Whether bytes have no letter and no digit.
fn is_sign(bytes: &[u8]) -> bool {
    !bytes.is_empty() && !bytes.iter().any(|byte| byte.is_ascii_alphanumeric())
}

/// Whether bytes are blanks, or the digits of a card's number.
fn is_blank(bytes: &[u8]) -> bool {
    bytes
        .iter()
        .all(|byte| byte.is_ascii_whitespace() || byte.is_ascii_digit())
}

/// The bytes without quotes around them.
fn without_quotes(bytes: &[u8]) -> &[u8] {
    let end = bytes.len().saturating_sub(1);
    bytes.get(1..end).unwrap_or(&[])
}

/// Whether bytes begin with a quote.
fn is_quoted(bytes: &[u8]) -> bool {
    matches!(bytes.first(), Some(b'"' | b'\''))
}

/// Whether a replacement of a name declares it: the name is followed by its number or value.
fn declares(new: &[u8]) -> bool {
    let Some(sign) = new.iter().position(|byte| *byte == b':' || *byte == b'=') else {
        return false;
    };
    let value = new.get(sign..).unwrap_or(&[]).get(1..).unwrap_or(&[]);
    is_word(new.get(..sign).unwrap_or(&[]))
        && !value.is_empty()
        && value.iter().all(|byte| byte.is_ascii_digit())
}

/// Whether bytes are a number.
fn is_number(bytes: &[u8]) -> bool {
    let is_begun = bytes
        .first()
        .is_some_and(|first| first.is_ascii_digit() || *first == b'#');
    is_begun
        && bytes.iter().all(|byte| byte.is_ascii_alphanumeric() || *byte == b'#' || *byte == b'_')
}

/// The kind of a change from one word to something else.
fn kind_of_word(old: &[u8], new: &[u8]) -> usize {
    if new == b"!".as_slice() || new == b"@".as_slice() || new == b"~".as_slice() {
        10
    } else if declares(new) {
        18
    } else if !is_word(new) {
        17
    } else if library_name(new) == Some(new) {
        0
    } else if new.ends_with(b".NAME".as_slice()) {
        4
    } else if old.contains(&b'_') {
        3
    } else if !new.iter().any(|byte| byte.is_ascii_lowercase()) {
        1
    } else {
        5
    }
}

/// The kind of a change from one sign to something else.
fn kind_of_sign(old: &[u8], new: &[u8]) -> usize {
    match (old, new) {
        (b"[" | b"]", b"(" | b")") => 7,
        (b"[" | b"]" | b"{" | b"}", _) => 6,
        (b"_", b":=") => 8,
        (b"*", b"!") => 9,
        _ if is_sign(new) => 11,
        _ => 17,
    }
}

/// The kind of a replacement of `old` by `new`, as an index of `KINDS`.
fn kind_of(old: &[u8], new: &[u8]) -> usize {
    if old.is_empty() {
        return 15;
    }
    if is_blank(old) && is_blank(new) && old.contains(&b'\r') || is_blank(old) && new.is_empty() {
        return 14;
    }
    if new.is_empty() {
        return 16;
    }
    if is_quoted(old) && is_quoted(new) {
        return if is_library_header(without_quotes(old)) {
            2
        } else {
            13
        };
    }
    if is_quoted(old) {
        return if is_number(new) { 13 } else { 17 };
    }
    if is_word(old) {
        return kind_of_word(old, new);
    }
    if is_sign(old) {
        return kind_of_sign(old, new);
    }
    if is_number(old) && is_number(new) {
        return 12;
    }
    17
}

/// How many changes of each kind there are.
///
/// # Errors
///
/// `Memory` if an allocation failed.
pub fn counts_of(
    alloc: Global,
    old: &[u8],
    replacements: &[Replacement],
) -> Result<Vec<usize>, Memory> {
    let mut counts: Vec<usize> = Vec::new(alloc);
    for _ in KINDS {
        counts.push(0)?;
    }
    for replacement in replacements {
        let span = old.get(replacement.start..replacement.end).unwrap_or(&[]);
        let kind = kind_of(span, replacement.text.as_slice());
        if kind < counts.len() {
            counts[kind] = counts[kind].saturating_add(1);
        }
    }
    Ok(counts)
}

/// The offset in the new text of an offset in the old one.
pub fn new_offset(replacements: &[Replacement], at: usize) -> usize {
    let mut removed: usize = 0;
    let mut added: usize = 0;
    for replacement in replacements {
        if replacement.start > at {
            break;
        }
        if replacement.end > at {
            let before = replacement.start.saturating_sub(removed);
            return before.saturating_add(added);
        }
        let length = replacement.end.saturating_sub(replacement.start);
        removed = removed.saturating_add(length);
        added = added.saturating_add(replacement.text.len());
    }
    at.saturating_add(added).saturating_sub(removed)
}
