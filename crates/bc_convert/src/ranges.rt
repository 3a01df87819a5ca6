//! Ranges of cases, which are written out.

use crate::kind::Kind;
use crate::notes::Notes;
use crate::numbers::{decimal, value_of_number};
use crate::quoted::character_of;
use crate::source::TokenizedText;
use crate::spelling::inside;
use bc_word::Memory;
use std::alloc::Global;

/// A constant of a case, and whether it is written as a character.
#[derive(Clone, Copy)]
pub struct CaseConstant {
    value: i64,
    is_character: bool,
}

/// The constant in a range of tokens, if it is a number, a number with a sign or a character.
pub fn case_constant(source: TokenizedText<'_>, from: usize, to: usize) -> Option<CaseConstant> {
    let count = to.saturating_sub(from);
    match (count, source.kind(from)) {
        (1, Kind::Number) => Some(CaseConstant {
            value: i64::from(value_of_number(source, from).ok()?),
            is_character: false,
        }),
        (1, Kind::Character) => Some(CaseConstant {
            value: i64::from(character_of(inside(source.bytes(from)))?),
            is_character: true,
        }),
        (2, Kind::Add)
            if source.kind(from.saturating_add(1)) == Kind::Number
                && source.bytes(from) == b"-".as_slice() => {
            let value = value_of_number(source, from.saturating_add(1)).ok()?;
            Some(CaseConstant {
                value: i64::from(value).saturating_neg(),
                is_character: false,
            })
        }
        _ => None,
    }
}

/// Appends a constant.
fn put_constant(
    alloc: Global,
    text: &mut Vec<u8>,
    value: i64,
    is_character: bool,
) -> Result<(), Memory> {
    match u8::try_from(value) {
        Ok(byte) if is_character && (byte.is_ascii_alphanumeric() || byte == b' ') => {
            text.extend_from_slice(&[b'\'', byte, b'\''])?;
        }
        _ => text.extend_from_slice(decimal(alloc, value)?.as_bytes())?,
    }
    Ok(())
}

/// The cases between two constants, each preceded by CASE and followed by a colon, and the CASE of the last one.
/// `None` if they aren't constants, or not a range of at most 256.
pub fn cases_between(
    alloc: Global,
    first: Option<CaseConstant>,
    last: Option<CaseConstant>,
) -> Result<Option<Vec<u8>>, Memory> {
    match (first, last) {
        (Some(first), Some(last)) if is_range(first, last) => Ok(Some(cases(alloc, first, last)?)),
        _ => Ok(None),
    }
}

/// Whether two constants are a range of at most 256.
fn is_range(first: CaseConstant, last: CaseConstant) -> bool {
    let distance = last.value.saturating_sub(first.value);
    0 <= distance && distance <= 255
}

/// The cases of such a range.
fn cases(alloc: Global, first: CaseConstant, last: CaseConstant) -> Result<Vec<u8>, Memory> {
    let is_character = first.is_character && last.is_character;
    let mut text = Vec::new(alloc);
    for value in first.value..last.value {
        if value != first.value {
            text.extend_from_slice(b" CASE ")?;
            put_constant(alloc, &mut text, value, is_character)?;
        }
        text.push(b':')?;
    }
    text.extend_from_slice(b" CASE")?;
    Ok(text)
}

/// Replaces a token, and puts a space after it if none follows.
pub fn replace_apart(source: TokenizedText<'_>, notes: &mut Notes, index: usize, bytes: &[u8]) {
    notes.replace(index, bytes);
    let next = index.saturating_add(1);
    if source.gap(next).is_empty() {
        notes.put_after(next, b" ");
    }
}
