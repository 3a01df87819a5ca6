//! Messages for INTCODE texts that can't be read.

use crate::placed::{Placed, Stretch, Text, is_byte};
use crate::report::{Fill, Report};
use crate::text_items::next_where;
use bc_text::TextError;
use bc_word::Memory;
use std::alloc::Global;

/// The letters that items begin with, and the one that ends a segment.
const LETTERS: &[u8] = b"LSAJTFKXDCGZ";

/// The help on the forms of items.
const ITEMS: &str =
    "an item is n, Dn, DLn, Cn, GnLn, or one of L S A J T F K X with an optional I, an optional P, G or L, and a number; Z ends a segment";

/// The help on the ranges of numbers.
const RANGES: &str =
    "the largest label or word is 65535, the largest global 511, the largest byte 255; the smallest word is -32768";

/// This offset, or the length of the text if it is greater.
fn within(at: u64, length: usize) -> usize {
    if at < length as u64 {
        at as usize
    } else {
        length
    }
}

/// The upper-case letters directly before `at`.
fn letters_before(bytes: &[u8], at: usize) -> &[u8] {
    let at = at.min(bytes.len());
    let front = &bytes[..at];
    let start = match front.iter().rposition(|byte| !byte.is_ascii_uppercase()) {
        Some(offset) => offset + 1,
        None => 0,
    };
    &bytes[start.min(at)..at]
}

/// Whether a negative number may follow these letters.
fn may_be_negative(letters: &[u8]) -> bool {
    match letters {
        [] | [b'C'] | [b'G'] => false,
        [_] => true,
        _ => match letters.last() {
            Some(last) => *last != b'L',
            None => false,
        },
    }
}

/// The sentence on a number out of range that follows these letters.
fn range(letters: &[u8], is_negative: bool) -> &'static str {
    match letters {
        [b'C'] => "this number is too large: the largest byte is 255",
        [b'G'] => "this number is too large: the largest global is 511",
        _ if is_negative => "this number is too small: the smallest is -32768",
        _ => "this number is too large: the largest is 65535",
    }
}

/// The stretch of one byte.
fn one_byte(text: Text<'_>, at: usize) -> Placed<'_> {
    Placed {
        text,
        stretch: Stretch {
            start: at,
            end: at.saturating_add(1),
        },
    }
}

/// The help for a byte that begins no item.
fn character_help(byte: Option<u8>) -> &'static str {
    match byte {
        Some(byte) if LETTERS.contains(&byte.to_ascii_uppercase()) => {
            "write the letters of INTCODE in upper case"
        }
        Some(byte) if !byte.is_ascii() => "save the file as plain text, without a byte order mark",
        Some(b'-') => "write a label's number without a sign",
        _ => ITEMS,
    }
}

/// Describes a byte that begins no item.
fn bad_character(report: &mut Report, text: Text<'_>, at: usize) -> Result<(), Memory> {
    let found = text.bytes.get(at).copied();
    report.fault(
        one_byte(text, at),
        "no item begins with {}",
        &[Fill::Found(found)],
        character_help(found),
    )
}

/// The stretch of the number that begins at `at`.
fn number_at(bytes: &[u8], at: usize) -> Stretch {
    let digits = next_where(bytes, at, true);
    Stretch {
        start: at,
        end: next_where(bytes, digits, false),
    }
}

/// Whether the byte at an offset is a digit.
fn is_digit(bytes: &[u8], at: usize) -> bool {
    match bytes.get(at) {
        Some(byte) => byte.is_ascii_digit(),
        None => false,
    }
}

/// Describes a number that is missing after these letters.
fn no_number(report: &mut Report, text: Text<'_>, at: usize, letters: &[u8]) -> Result<(), Memory> {
    let sentence = if letters.is_empty() {
        "expected a number{}, found {}"
    } else {
        "expected a number after {}, found {}"
    };
    let found = text.bytes.get(at).copied();
    report.fault(
        one_byte(text, at),
        sentence,
        &[Fill::Letters(letters), Fill::Found(found)],
        ITEMS,
    )
}

/// Describes a number that is missing or out of range.
fn bad_number(report: &mut Report, text: Text<'_>, at: usize) -> Result<(), Memory> {
    let bytes = text.bytes;
    let letters = letters_before(bytes, at);
    let is_negative = is_byte(bytes, at, b'-') && may_be_negative(letters);
    if !is_negative && !is_digit(bytes, at) {
        return no_number(report, text, at, letters);
    }
    let placed = Placed {
        text,
        stretch: number_at(bytes, at),
    };
    report.fault(placed, range(letters, is_negative), &[], RANGES)
}

/// Describes a global without a label.
fn missing_label(report: &mut Report, text: Text<'_>, at: usize) -> Result<(), Memory> {
    let found = text.bytes.get(at).copied();
    report.fault(
        one_byte(text, at),
        "expected `L` and the number of a label, found {}",
        &[Fill::Found(found)],
        "G5L7 sets the global 5 to the address of the label 7",
    )
}

/// The offset of the last byte of a text that isn't white space.
fn last_byte(bytes: &[u8]) -> usize {
    match bytes.iter().rposition(|byte| !byte.is_ascii_whitespace()) {
        Some(offset) => offset,
        None => 0,
    }
}

/// Describes a text that ends inside a segment.
fn unended(report: &mut Report, text: Text<'_>) -> Result<(), Memory> {
    report.fault(
        one_byte(text, last_byte(text.bytes)),
        "the text ends inside a segment: there is no Z after its last item",
        &[],
        "end each segment with Z; perhaps the end of the file is missing",
    )
}

/// Describes a fault of a text. Adds nothing if nothing more is known.
fn add_fault(report: &mut Report, text: Text<'_>, fault: TextError) -> Result<(), Memory> {
    let length = text.bytes.len();
    match fault {
        TextError::BadCharacter(at) => bad_character(report, text, within(at, length)),
        TextError::BadNumber(at) => bad_number(report, text, within(at, length)),
        TextError::MissingLabel(at) => missing_label(report, text, within(at, length)),
        TextError::Unended => unended(report, text),
        TextError::Write | TextError::Memory | TextError::Failed => Ok(()),
    }
}

/// The lines on the refusal of a text: the place, the line with a mark below it, and what to do. Empty if nothing more
/// is known. Returns `Memory` if an allocation fails.
pub fn text_lines(alloc: Global, text: Text<'_>, fault: TextError) -> Result<String, Memory> {
    let mut report = Report::new(alloc);
    add_fault(&mut report, text, fault)?;
    Ok(report.into_text())
}
