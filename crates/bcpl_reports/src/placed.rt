//! Stretches of the files that a report is about.

use bcpl_places::{Line, line_at};

/// A file that a report is about.
#[derive(Clone, Copy)]
pub struct Text<'a> {
    /// The path under which it is printed.
    pub path: &'a str,
    /// Its contents.
    pub bytes: &'a [u8],
}

/// A stretch of a text: the bytes from `start` up to `end`, excluding `end`.
#[derive(Clone, Copy)]
pub struct Stretch {
    /// The offset of its first byte.
    pub start: usize,
    /// The offset after its last byte.
    pub end: usize,
}

/// A stretch of one of several texts.
#[derive(Clone, Copy)]
pub struct Placed<'a> {
    /// The text.
    pub text: Text<'a>,
    /// The stretch of its bytes.
    pub stretch: Stretch,
}

/// The line of the text on which a stretch begins.
pub fn line_of(placed: Placed<'_>) -> Line {
    let bytes = placed.text.bytes;
    line_at(bytes, placed.stretch.start.min(bytes.len()))
}

/// Whether the byte at an offset is `wanted`.
pub fn is_byte(bytes: &[u8], at: usize, wanted: u8) -> bool {
    match bytes.get(at) {
        Some(byte) => *byte == wanted,
        None => false,
    }
}
