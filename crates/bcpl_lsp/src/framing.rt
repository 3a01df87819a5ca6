//! Messages on a stream: a header with the length, an empty line, and the text.

use bc_word::Memory;
use std::alloc::Global;
use std::io;
use std::io::{BufRead, Read, Write};

/// The greatest length of a message that is read, in bytes.
const LONGEST: usize = 64 << 20;

/// The greatest number of lines in a header.
const MOST_LINES: usize = 100;

/// The field of a header with the length.
const LENGTH: &[u8] = b"content-length:";

/// What came from a stream.
#[derive(Drop)]
pub enum Received {
    /// The text of a message.
    Text(Vec<u8>),
    /// A header without a length that can be read. Nothing after it was read.
    BadHeader,
    /// The end of the stream.
    End,
}

/// The value of a decimal number, with white space around it.
fn number_in(text: &[u8]) -> Option<usize> {
    match std::str::from_utf8(text) {
        Ok(text) => text.trim().parse::<usize>().ok(),
        Err(_) => None,
    }
}

/// The length that a line of a header gives, if it is that field.
fn length_in(line: &[u8]) -> Option<usize> {
    let (name, value) = (line.get(..LENGTH.len())?, line.get(LENGTH.len()..)?);
    if name.eq_ignore_ascii_case(LENGTH) {
        number_in(value)
    } else {
        None
    }
}

/// Whether a line of a header ends it.
fn is_blank(line: &[u8]) -> bool {
    matches!(line, b"\r\n" | b"\n")
}

/// A vector of zeros.
fn zeros(alloc: Global, length: usize) -> Result<Vec<u8>, Memory> {
    let mut bytes = Vec::new(alloc);
    bytes.resize(length, 0u8)?;
    Ok(bytes)
}

/// Reads a text of this length.
fn read_text<R: BufRead>(alloc: Global, length: usize, input: &mut R) -> Result<Received, Memory> {
    let mut text = zeros(alloc, length)?;
    match input.read_exact(text.as_mut_slice()) {
        Ok(()) => Ok(Received::Text(text)),
        Err(_) => Ok(Received::End),
    }
}

/// Reads the lines of a header, and then the text.
///
/// Returns `Memory` if an allocation fails. A stream that can't be read has ended.
pub fn read_message<R: BufRead>(alloc: Global, input: &mut R) -> Result<Received, Memory> {
    let mut length = None;
    for _each in 0..MOST_LINES {
        let mut line = Vec::new(alloc);
        match input.read_until(b'\n', &mut line) {
            Ok(0) | Err(_) => return Ok(Received::End),
            Ok(_) => {}
        }
        if is_blank(line.as_slice()) {
            break;
        }
        if let Some(found) = length_in(line.as_slice()) {
            length = Some(found);
        }
    }
    match length {
        Some(length) if length <= LONGEST => read_text(alloc, length, input),
        _ => Ok(Received::BadHeader),
    }
}

/// Writes a message with its header.
pub fn write_message<W: Write>(text: &str, out: &mut W) -> io::Result<()> {
    let length = text.len();
    write!(out, "Content-Length: {length}\r\n\r\n")?;
    out.write_all(text.as_bytes())?;
    out.flush()
}
