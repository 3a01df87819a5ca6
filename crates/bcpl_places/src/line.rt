//! The line of an offset of a text.

ghost use Rattle.std.specs.Prelude.{◌≡◌, ◌+◌, ◌≤◌, length, take};
ghost use Rattle.bcpl_places.specs.Lines.{breaks};

/// A line of a text, without the line feed at its end and a carriage return before that.
#[derive(Clone, Copy)]
pub struct Line {
    /// Its number, counted from 1.
    pub number: usize,
    /// The offset of its first byte.
    pub start: usize,
    /// The offset after its last byte.
    pub end: usize,
}

/// How many line feeds these bytes have.
fn count_breaks(bytes: &[u8]) -> usize
    ensures exact { result ≡ breaks bytes.now }
    ensures bound { result ≤ length bytes.now }
{
    bytes.iter().filter(|byte| **byte == b'\n').count()
}

/// The offset after the last line feed of these bytes; 0 if there is none.
fn line_start(bytes: &[u8]) -> usize
    ensures { result ≤ length bytes.now }
{
    match bytes.iter().rposition(|byte| *byte == b'\n') {
        Some(offset) => offset + 1,
        None => 0,
    }
}

/// The number of bytes before the first line feed and a carriage return before that.
fn rest_of_line(bytes: &[u8]) -> usize
    ensures { result ≤ length bytes.now }
{
    let count = match bytes.iter().position(|byte| *byte == b'\n') {
        Some(offset) => offset,
        None => bytes.len(),
    };
    if count > 0 && bytes[count - 1] == b'\r' {
        count - 1
    } else {
        count
    }
}

/// The line that contains the byte at this offset, which is at most the length of the text.
pub fn line_at(text: &[u8], at: usize) -> Line
    requires { at ≤ length text.now }
    ensures number { result.number ≡ 1 + breaks (take at text.now) }
    ensures in_text { result.end ≤ length text.now }
    ensures ordered { result.start ≤ at }
{
    let start = line_start(&text[..at]);
    Line {
        number: 1 + count_breaks(&text[..at]),
        start,
        end: start + rest_of_line(&text[start..]),
    }
}

/// Finds the lines of places in a text. If a place follows the last one, the lines before that one aren't counted again, and
/// its own line isn't looked for again.
#[derive(Clone, Copy)]
pub struct LineCounter {
    /// The offset of the last place.
    at: usize,
    /// How many line feeds come before it.
    breaks: usize,
    /// The line of the last place, if there was one.
    line: Option<Line>,
}

impl LineCounter {
    /// A counter at the beginning of a text.
    pub fn new() -> LineCounter {
        LineCounter {
            at: 0,
            breaks: 0,
            line: None,
        }
    }

    /// The line that contains the byte at this offset, or the last line if the text is shorter.
    pub fn line_at(&mut self, text: &[u8], at: usize) -> Line {
        let at = at.min(text.len());
        if at < self.at {
            *self = LineCounter::new();
        }
        if let Some(line) = self.line
            && at <= line.end
        {
            return line;
        }
        let from = self.at.min(at);
        self.breaks = self.breaks.saturating_add(count_breaks(&text[from..at]));
        self.at = at;
        let start = line_start(&text[..at]);
        let line = Line {
            number: self.breaks.saturating_add(1),
            start,
            end: start + rest_of_line(&text[start..]),
        };
        self.line = Some(line);
        line
    }
}
