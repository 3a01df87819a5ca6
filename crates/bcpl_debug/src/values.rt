//! Values as text: numbers, characters, strings and vectors.

use crate::names::Variable;
use crate::printout::Printout;
use crate::scope::{DebugScope, Element};
use bc_interpret_record::{Cell, Moment};
use bcpl_messages::Fill;

/// The greatest number of elements of a vector that are shown.
const MOST_ELEMENTS: u64 = 16;

/// The greatest number of characters of a string that are shown.
const MOST_CHARACTERS: u16 = 60;

/// How a value is shown.
#[derive(Clone, Copy, Debug, PartialEq, Eq)]
pub enum Format {
    /// As what it looks like.
    Any,
    /// As a signed number.
    Number,
    /// As an unsigned number.
    Unsigned,
    /// As a character.
    Character,
    /// In base 16.
    Hexadecimal,
    /// In base 8.
    Octal,
    /// As a truth value.
    Truth,
    /// As the address of a string.
    String,
    /// As the address of a vector.
    Vector,
}

/// The format that a letter after `/` asks for.
pub fn format_of(letter: &str) -> Option<Format> {
    Some(match letter {
        "d" => Format::Number,
        "u" => Format::Unsigned,
        "c" => Format::Character,
        "x" => Format::Hexadecimal,
        "o" => Format::Octal,
        "t" => Format::Truth,
        "s" => Format::String,
        "v" => Format::Vector,
        _ => return None,
    })
}

/// Appends a byte as BCPL spells it in a string.
fn add_byte(out: &mut Printout, byte: u8) {
    match byte {
        b'\n' => out.text("*N"),
        b'\t' => out.text("*T"),
        b'"' => out.text("*\""),
        b'*' => out.text("**"),
        32..=126 => out.character(byte),
        _ => out.escape(byte),
    }
}

/// Appends the end of a string that has this number of bytes, of which at most 60 are shown.
fn add_quote(out: &mut Printout, length: usize) {
    out.text("\"");
    if length > usize::from(MOST_CHARACTERS) {
        out.text("..");
    }
}

/// Appends these bytes as a string of BCPL, at most 60 of them.
pub fn add_bytes(out: &mut Printout, bytes: &[u8]) {
    out.text("\"");
    for byte in bytes.iter().take(usize::from(MOST_CHARACTERS)) {
        add_byte(out, *byte);
    }
    add_quote(out, bytes.len());
}

/// Byte `index` of the string at this address, of which byte 0 is the length.
fn byte_at(moment: &Moment, address: u16, index: u16) -> Option<u8> {
    match moment.cell(address.wrapping_add(index / 2)) {
        Cell::Set(word) => Some(if index % 2 == 0 {
            (word / 256) as u8
        } else {
            (word % 256) as u8
        }),
        Cell::Unset | Cell::Dead => None,
    }
}

/// The length of the string at this address; `None` if its cells aren't all set.
fn string_length(moment: &Moment, address: u16) -> Option<u16> {
    let length = u16::from(byte_at(moment, address, 0)?);
    for index in 1..=length {
        let _byte = byte_at(moment, address, index)?;
    }
    Some(length)
}

/// Appends the string at this address; returns false, and appends nothing, if its cells aren't all set.
fn add_string(out: &mut Printout, moment: &Moment, address: u16) -> bool {
    let Some(length) = string_length(moment, address) else {
        return false;
    };
    out.text("\"");
    for index in 1..=length.min(MOST_CHARACTERS) {
        add_byte(out, byte_at(moment, address, index).unwrap_or(b'?'));
    }
    add_quote(out, usize::from(length));
    true
}

/// Appends a cell: `?` if it isn't set, and `-` if it is dead.
pub fn add_cell(out: &mut Printout, cell: Cell) {
    match cell {
        Cell::Set(word) => out.signed(word),
        Cell::Unset => out.text("?"),
        Cell::Dead => out.text("-"),
    }
}

/// Appends which element of a vector is at an address.
fn add_element(out: &mut Printout, element: &Element<'_>) {
    out.text(" -> ");
    out.characters(element.vector);
    out.text("!");
    out.number(element.index);
    out.text(" of ");
    out.characters(element.routine);
}

/// Whether a string of the program is at this address.
fn is_string_at(scope: &DebugScope<'_, '_>, address: u16) -> bool {
    scope
        .names
        .data
        .iter()
        .any(|datum| datum.address == address && datum.is_string)
}

/// Appends the routine at this address, if there is one.
fn add_routine_at(out: &mut Printout, scope: &DebugScope<'_, '_>, address: u16) {
    for routine in &scope.names.routines {
        if routine.address == address {
            out.text(" the routine ");
            out.characters(routine.name);
            return;
        }
    }
}

/// Appends what else a word may be: a character, or the address of something.
fn add_guess(out: &mut Printout, scope: &DebugScope<'_, '_>, word: u16) {
    if let Ok(byte) = u8::try_from(word)
        && (32..=126).contains(&byte)
    {
        out.text(" '");
        out.character(byte);
        out.text("'");
    }
    if is_string_at(scope, word) {
        out.text(" ");
        let _is_string = add_string(out, scope.moment, word);
        return;
    }
    match scope.element_at(word) {
        Some(element) => add_element(out, &element),
        None => add_routine_at(out, scope, word),
    }
}

/// Appends the first elements at this address, up to `count`.
fn add_elements(out: &mut Printout, moment: &Moment, from: u16, count: u64) {
    for index in 0..count.min(MOST_ELEMENTS) {
        out.text(" ");
        let offset = u16::try_from(index).unwrap_or(0);
        add_cell(out, moment.cell(from.wrapping_add(offset)));
    }
    if count > MOST_ELEMENTS {
        out.text(" ..");
    }
}

/// The number of words of the string or table at this address; as many elements as are shown if there is none.
fn cells_at(scope: &DebugScope<'_, '_>, address: u16) -> u64 {
    for datum in &scope.names.data {
        if datum.address == address {
            return datum.cells as u64;
        }
    }
    MOST_ELEMENTS
}

/// Appends the bound of a vector.
fn add_bound(out: &mut Printout, bound: u64) {
    out.fill("VEC {} ", &[Fill::Number(bound)]);
}

/// Appends the elements at this address, with the address.
fn add_elements_at(out: &mut Printout, moment: &Moment, from: u16, count: u64) {
    out.fill("at {}:", &[Fill::Number(u64::from(from))]);
    add_elements(out, moment, from, count);
}

/// Appends the elements at this address: those of a vector to its end.
fn add_vector(out: &mut Printout, scope: &DebugScope<'_, '_>, word: u16) {
    let cells = match scope.element_at(word) {
        Some(element) => {
            if element.index == 0 {
                add_bound(out, element.rest.saturating_sub(1));
            }
            element.rest
        }
        None => cells_at(scope, word),
    };
    add_elements_at(out, scope.moment, word, cells);
}

/// Appends the string at the address that a word is, or that there is none.
fn add_string_at(out: &mut Printout, moment: &Moment, word: u16) {
    if !add_string(out, moment, word) {
        out.text("no string is at ");
        out.signed(word);
    }
}

/// Appends a word as a character.
fn add_character(out: &mut Printout, word: u16) {
    out.text("'");
    add_byte(out, (word % 256) as u8);
    out.text("'");
}

/// Appends a word as what it looks like.
fn add_any(out: &mut Printout, scope: &DebugScope<'_, '_>, word: u16) {
    out.signed(word);
    add_guess(out, scope, word);
}

/// Appends a word in this format.
pub fn add_value(out: &mut Printout, scope: &DebugScope<'_, '_>, word: u16, format: Format) {
    match format {
        Format::Any => add_any(out, scope, word),
        Format::Number => out.signed(word),
        Format::Unsigned => out.number(u64::from(word)),
        Format::Hexadecimal => out.hexadecimal(word),
        Format::Octal => out.octal(word),
        Format::Truth => out.text(if word == 0 { "FALSE" } else { "TRUE" }),
        Format::Character => add_character(out, word),
        Format::String => add_string_at(out, scope.moment, word),
        Format::Vector => add_vector(out, scope, word),
    }
}

/// Appends the value of a variable that has this value and whose cell is at this address.
fn add_set(
    out: &mut Printout,
    scope: &DebugScope<'_, '_>,
    variable: &Variable<'_>,
    address: u16,
    word: u16,
) {
    match variable.cells.checked_sub(2) {
        Some(bound) if word == address.wrapping_add(1) => {
            add_bound(out, bound);
            add_elements_at(out, scope.moment, word, bound.saturating_add(1));
        }
        _ => add_any(out, scope, word),
    }
}

/// Appends the value of a variable whose cell is at this address. A vector is shown with its bound and its elements.
pub fn add_variable(
    out: &mut Printout,
    scope: &DebugScope<'_, '_>,
    variable: &Variable<'_>,
    address: u16,
) {
    match scope.cell(address) {
        Cell::Set(word) => add_set(out, scope, variable, address, word),
        Cell::Unset => out.text("not set"),
        Cell::Dead => out.text("no cell"),
    }
}
