//! The characters that a terminal shows for a line, and the columns that they take.

ghost use Rattle.std.specs.Prelude.{◌≡◌, ◌+◌, ◌≤◌, length, vec_len};

use bc_word::Memory;
use bstr::decode_lossy;
use std::alloc::Global;
use ucd_props::is_bidi_control;
use unicode_width::UnicodeWidthChar;

/// The distance between tab stops, in columns.
const TAB: usize = 8;

/// A character that a terminal shows for some bytes of a line.
#[derive(Clone, Copy)]
pub struct Sign {
    /// The offset of its first byte in the line.
    pub at: usize,
    /// The character shown.
    pub shown: char,
    /// How many columns it takes.
    pub width: usize,
}

/// What is shown for a character, and how many columns that takes. A control character, and one that changes the
/// direction of text, is shown as the replacement character.
fn shown(character: char) -> (char, usize) {
    match character.width() {
        Some(width) if character >= ' ' && !is_bidi_control(character) => (character, width),
        _ => (char::REPLACEMENT_CHARACTER, 1),
    }
}

/// The characters shown for a line. A tab is shown as spaces up to the next column that is a multiple of eight, and
/// invalid UTF-8 as the replacement character. Returns `Memory` if an allocation fails.
pub fn signs_of(alloc: Global, line: &[u8]) -> Result<Vec<Sign>, Memory> {
    let mut signs = Vec::new(alloc);
    let mut column: usize = 0;
    let mut at = 0;
    for _ in 0..line.len() {
        if at >= line.len() {
            break;
        }
        if line[at] == b'\t' {
            for _ in 0..TAB - column % TAB {
                signs.push(Sign {
                    at,
                    shown: ' ',
                    width: 1,
                })?;
                column = column.saturating_add(1);
            }
            at += 1;
        } else {
            let (character, size) = decode_lossy(&line[at..]);
            let (shown, width) = shown(character);
            signs.push(Sign { at, shown, width })?;
            column = column.saturating_add(width);
            at = at.saturating_add(size.max(1));
        }
    }
    Ok(signs)
}

/// The column of the byte at this offset of a line, counted from 1, as a terminal shows the line. Returns `Memory` if
/// an allocation fails.
pub fn column_at(alloc: Global, line: &[u8], at: usize) -> Result<usize, Memory> {
    let at = at.min(line.len());
    let mut column: usize = 1;
    for sign in &signs_of(alloc, &line[..at])? {
        column = column.saturating_add(sign.width);
    }
    Ok(column)
}

/// The column after these bytes of a line, the first of which is in the column `first`, counted from 0.
fn column_after(bytes: &[u8], first: usize) -> usize {
    let mut column = first;
    let mut at = 0;
    for _ in 0..bytes.len() {
        if at >= bytes.len() {
            break;
        }
        if bytes[at] == b'\t' {
            column = column.saturating_add(TAB - column % TAB);
            at += 1;
        } else {
            let (character, size) = decode_lossy(&bytes[at..]);
            let (_, width) = shown(character);
            column = column.saturating_add(width);
            at = at.saturating_add(size.max(1));
        }
    }
    column
}

/// Counts the columns of places in texts. If a place follows the last one in the same line, the count goes on from there.
#[derive(Clone, Copy)]
pub struct ColumnCounter {
    /// The file of the last place.
    file: usize,
    /// The offset of its line.
    line: usize,
    /// Its offset.
    at: usize,
    /// Its column, counted from 0.
    column: usize,
}

impl ColumnCounter {
    /// A counter that is at the beginning of file 0.
    pub fn new() -> ColumnCounter {
        ColumnCounter {
            file: 0,
            line: 0,
            at: 0,
            column: 0,
        }
    }

    /// The column of the byte at the offset `at` of this text of a file, counted from 1 as a terminal shows the line,
    /// which begins at the offset `line`. A character begins with the byte.
    pub fn column_at(&mut self, text: &[u8], file: usize, line: usize, at: usize) -> usize {
        if file != self.file || line != self.line || at < self.at {
            *self = ColumnCounter {
                file,
                line,
                at: line,
                column: 0,
            };
        }
        let to = at.min(text.len());
        let from = self.at.min(to);
        self.column = column_after(&text[from..to], self.column);
        self.at = to;
        self.column.saturating_add(1)
    }
}
