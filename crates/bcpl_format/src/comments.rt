//! Comments: their columns, and their lines moved together.

use crate::atom::Atom;
use crate::atoms::is_blank;
use bc_word::Memory;

/// The columns between two stops of the tabulator.
const TAB: usize = 8;

/// Whether the byte begins a character. The other bytes of UTF-8 take no column.
fn is_character(byte: u8) -> bool {
    byte & 0xC0 != 0x80
}

/// The number of columns of a text without line breaks.
pub fn width_of(text: &[u8]) -> usize {
    text.iter().filter(|byte| is_character(**byte)).count()
}

/// The column after a byte.
fn column_past(column: usize, byte: u8) -> usize {
    match byte {
        b'\t' => (column / TAB).saturating_add(1).saturating_mul(TAB),
        b'\r' | b'\x0c' => column,
        _ if is_character(byte) => column.saturating_add(1),
        _ => column,
    }
}

/// The number of columns of a text that begins a line, with tabs.
fn columns(text: &[u8]) -> usize {
    let mut column = 0;
    for byte in text {
        column = column_past(column, *byte);
    }
    column
}

/// The column of a byte in the line of the source that has it.
pub fn source_column(source: &[u8], at: usize) -> usize {
    let before = source.get(..at).unwrap_or(&[]);
    let count = before
        .iter()
        .rev()
        .take_while(|byte| **byte != b'\n')
        .count();
    columns(before.get(at.saturating_sub(count)..).unwrap_or(&[]))
}

/// Appends blanks.
pub fn add_blanks(out: &mut Vec<u8>, count: usize) -> Result<(), Memory> {
    for _ in 0..count {
        out.push(b' ')?;
    }
    Ok(())
}

/// The line without the blanks at its end.
fn trimmed(line: &[u8]) -> &[u8] {
    let blanks = line
        .iter()
        .rev()
        .take_while(|byte| is_blank(**byte))
        .count();
    line.get(..line.len().saturating_sub(blanks)).unwrap_or(&[])
}

/// Appends a later line of a comment that moves from the column `from` to the column `to`.
fn add_later_line(out: &mut Vec<u8>, line: &[u8], from: usize, to: usize) -> Result<(), Memory> {
    let line = trimmed(line);
    let blanks = line.iter().take_while(|byte| is_blank(**byte)).count();
    let indentation = columns(line.get(..blanks).unwrap_or(&[]));
    let content = line.get(blanks..).unwrap_or(&[]);
    if !content.is_empty() {
        add_blanks(out, indentation.saturating_add(to).saturating_sub(from))?;
        out.extend_from_slice(content)?;
    }
    Ok(())
}

/// Appends a comment that begins in this column. Its later lines move with its first one.
///
/// # Errors
///
/// `Memory` if an allocation failed.
pub fn add_comment(
    out: &mut Vec<u8>,
    source: &[u8],
    atom: Atom,
    column: usize,
) -> Result<(), Memory> {
    let text = atom.text(source);
    if !text.contains(&b'\n') {
        out.extend_from_slice(text)?;
        return Ok(());
    }
    let from = source_column(source, atom.start);
    for (number, line) in text.split(|byte| *byte == b'\n').enumerate() {
        if number == 0 {
            out.extend_from_slice(trimmed(line))?;
        } else {
            out.push(b'\n')?;
            add_later_line(out, line, from, column)?;
        }
    }
    Ok(())
}
