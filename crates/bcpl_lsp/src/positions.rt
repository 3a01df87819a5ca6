//! Positions in a text: offsets in bytes, and lines with UTF-16 units, as the protocol counts them.

use crate::json_values::JsonObject;
use bc_word::Memory;
use serde_json::Value;
use std::alloc::Global;

/// A position as the protocol counts it, from 0.
#[derive(Clone, Copy, PartialEq, Eq)]
pub struct Position {
    /// The line.
    pub line: usize,
    /// The number of UTF-16 units before it in the line.
    pub character: usize,
}

/// Whether a line begins after the byte with this index.
fn is_line_end(text: &[u8], index: usize) -> bool {
    match text.get(index) {
        Some(b'\n') => true,
        Some(b'\r') => text.get(index.saturating_add(1)).copied() != Some(b'\n'),
        _ => false,
    }
}

/// How many bytes are between two counts of UTF-16 units.
const STEP: usize = 256;

/// The lines of a text, and counts of its UTF-16 units, so that a place in a long line is found as fast as another.
#[derive(Drop)]
pub struct Lines {
    /// The offsets at which lines begin.
    pub starts: Vec<usize>,
    /// The number of units before each 256th byte.
    units: Vec<usize>,
}

/// The offsets at which lines begin.
fn line_starts(alloc: Global, text: &[u8]) -> Result<Vec<usize>, Memory> {
    let mut starts = Vec::new(alloc);
    starts.push(0)?;
    for index in 0..text.len() {
        if is_line_end(text, index) {
            starts.push(index.saturating_add(1))?;
        }
    }
    Ok(starts)
}

/// How many UTF-16 units the character that begins with this byte has; 0 for a byte within a character.
fn units_of(byte: u8) -> usize {
    if byte & 0xC0 == 0x80 {
        0
    } else if byte >= 0xF0 {
        2
    } else {
        1
    }
}

/// The number of UTF-16 units of a text.
fn units_in(text: &[u8]) -> usize {
    let mut units: usize = 0;
    for byte in text {
        units = units.saturating_add(units_of(*byte));
    }
    units
}

/// The number of units before each 256th byte.
fn counts_of(alloc: Global, text: &[u8]) -> Result<Vec<usize>, Memory> {
    let mut counts = Vec::new(alloc);
    let mut units: usize = 0;
    for part in text.chunks(STEP) {
        counts.push(units)?;
        units = units.saturating_add(units_in(part));
    }
    counts.push(units)?;
    Ok(counts)
}

impl Lines {
    /// The lines of a text. Returns `Memory` if an allocation fails.
    pub fn of(alloc: Global, text: &[u8]) -> Result<Lines, Memory> {
        Ok(Lines {
            starts: line_starts(alloc, text)?,
            units: counts_of(alloc, text)?,
        })
    }

    /// The number of UTF-16 units before an offset of the text.
    fn units_before(&self, text: &[u8], offset: usize) -> usize {
        let step = offset / STEP;
        let counted = self.units.get(step).copied().unwrap_or(0);
        let rest = text.get(step.saturating_mul(STEP)..offset).unwrap_or(b"");
        counted.saturating_add(units_in(rest))
    }
}

/// The index of the line with the byte at this offset.
pub fn line_of(starts: &[usize], offset: usize) -> usize {
    match starts.binary_search(&offset) {
        Ok(line) => line,
        Err(next) => next.saturating_sub(1),
    }
}

/// The position of an offset of the text with these lines.
fn position_of(text: &[u8], lines: &Lines, offset: usize) -> Position {
    let offset = offset.min(text.len());
    let line = line_of(lines.starts.as_slice(), offset);
    let start = lines.starts.get(line).copied().unwrap_or(0);
    let before = lines.units_before(text, start);
    Position {
        line,
        character: lines.units_before(text, offset).saturating_sub(before),
    }
}

/// The number of bytes before this many UTF-16 units of a line; its length without the line's end if it is shorter.
fn bytes_before(line: &[u8], units: usize) -> usize {
    let mut count: usize = 0;
    for (index, byte) in line.iter().enumerate() {
        let width = units_of(*byte);
        if *byte == b'\n' || *byte == b'\r' || (width > 0 && count >= units) {
            return index;
        }
        count = count.saturating_add(width);
    }
    line.len()
}

/// The offset of a position. One after the end of a line is the line's end, one after the last line the text's end.
pub fn offset_of(text: &[u8], starts: &[usize], position: Position) -> usize {
    let Some(start) = starts.get(position.line) else {
        return text.len();
    };
    let line = text.get(*start..).unwrap_or(b"");
    start
        .saturating_add(bytes_before(line, position.character))
        .min(text.len())
}

/// A number in an object.
fn number_at(value: &Value, pointer: &str) -> Option<usize> {
    let number = value.pointer(pointer).and_then(Value::as_u64)?;
    usize::try_from(number).ok()
}

/// The position that an object with `line` and `character` names.
pub fn position_in(value: &Value) -> Option<Position> {
    Some(Position {
        line: number_at(value, "/line")?,
        character: number_at(value, "/character")?,
    })
}

/// A position of the protocol.
fn position_value(alloc: Global, position: Position) -> Result<Value, Memory> {
    let mut object = JsonObject::new(alloc);
    object.put("line", Value::from(position.line));
    object.put("character", Value::from(position.character));
    object.finish()
}

/// A range of the protocol. Returns `Memory` if an allocation fails.
pub fn range_value(alloc: Global, first: Position, last: Position) -> Result<Value, Memory> {
    let mut object = JsonObject::new(alloc);
    object.add("start", position_value(alloc, first));
    object.add("end", position_value(alloc, last));
    object.finish()
}

/// The range of a stretch of the text with these lines. Returns `Memory` if an allocation fails.
pub fn range_of(
    alloc: Global,
    text: &[u8],
    lines: &Lines,
    stretch: (usize, usize),
) -> Result<Value, Memory> {
    let (start, end) = stretch;
    range_value(
        alloc,
        position_of(text, lines, start),
        position_of(text, lines, end),
    )
}
