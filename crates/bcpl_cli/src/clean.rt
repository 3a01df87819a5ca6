//! A writer that keeps control characters from a terminal.

use crate::colours::{ColouredLine, PLAIN, coloured};
use crate::utf8_scan::Utf8Scan;
use std::alloc::Global;
use std::io;
use std::io::Write;

/// The most bytes written at a time.
const PIECE: usize = 256;

/// A writer that, on a terminal, replaces control characters by `?`: those below 32 except line feeds and tabs, those
/// from 127 to 159, also as single bytes, and those that change the direction of text.
#[derive(Drop)]
pub struct Clean<W: Write + Drop> {
    out: W,
    is_terminal: bool,
    /// Whether messages are in colours.
    has_colours: bool,
    /// The allocator for JSON objects, if messages are written as such.
    json: Option<Global>,
    /// The scan of the bytes written.
    scan: Utf8Scan,
}

impl<W: Write + Drop> Clean<W> {
    /// Wraps `out`. If `is_terminal` is false, all bytes pass unchanged.
    pub fn new(out: W, is_terminal: bool) -> Clean<W> {
        Clean {
            out,
            is_terminal,
            has_colours: false,
            json: None,
            scan: Utf8Scan::new(),
        }
    }

    /// Wraps `out`, to which messages are written as JSON objects.
    pub fn with_json(alloc: Global, out: W) -> Clean<W> {
        Clean {
            out,
            is_terminal: false,
            has_colours: false,
            json: Some(alloc),
            scan: Utf8Scan::new(),
        }
    }

    /// This writer, with messages in colours if `has_colours`.
    pub fn in_colours(self, has_colours: bool) -> Clean<W> {
        Clean {
            out: self.out,
            is_terminal: self.is_terminal,
            has_colours,
            json: self.json,
            scan: self.scan,
        }
    }

    /// The allocator for JSON objects, if messages are written as such.
    pub fn json(&self) -> Option<Global> {
        self.json
    }

    /// The stream itself, for control characters that come from no source.
    pub fn inner(&mut self) -> &mut W {
        &mut self.out
    }

    /// Whether the bytes go to a terminal.
    pub fn is_terminal(&self) -> bool {
        self.is_terminal
    }

    /// Writes the part of a message's line that is in colour.
    fn write_label(&mut self, parts: &ColouredLine<'_>) -> io::Result<()> {
        self.out.write_all(parts.colour)?;
        self.write_all(parts.label.as_bytes())?;
        self.write_all(parts.mark.as_bytes())?;
        self.out.write_all(PLAIN)
    }

    /// Writes a line of a message in colours, without its line feed.
    fn write_parts(&mut self, parts: &ColouredLine<'_>) -> io::Result<()> {
        self.write_all(parts.before.as_bytes())?;
        self.write_all(parts.gap.as_bytes())?;
        self.write_label(parts)?;
        self.write_all(parts.after.as_bytes())
    }

    /// Writes a line of a message in colours.
    fn write_line(&mut self, line: &str) -> io::Result<()> {
        match coloured(line) {
            Some(parts) => self.write_parts(&parts)?,
            None => self.write_all(line.as_bytes())?,
        }
        self.write_all(b"\n")
    }

    /// Writes the lines of messages, each ended by a line feed, in colours if the terminal takes them. Fails if a byte
    /// can't be written.
    pub fn write_messages(&mut self, lines: &str) -> io::Result<()> {
        if !self.has_colours {
            return self.write_all(lines.as_bytes());
        }
        for line in lines.lines() {
            self.write_line(line)?;
        }
        Ok(())
    }
}

impl<W: Write + Drop> Write for Clean<W> {
    fn write(&mut self, buf: &[u8]) -> io::Result<usize> {
        if !self.is_terminal {
            return self.out.write(buf);
        }
        let mut piece = [0u8; PIECE];
        let count = buf.len().min(PIECE);
        let mut scan = self.scan;
        for (place, byte) in piece.iter_mut().zip(buf) {
            *place = if scan.takes_control(*byte) {
                b'?'
            } else {
                *byte
            };
        }
        let written = self.out.write(&piece[..count])?;
        for byte in buf.iter().take(written) {
            let _ = self.scan.takes_control(*byte);
        }
        Ok(written)
    }

    fn flush(&mut self) -> io::Result<()> {
        self.out.flush()
    }
}
