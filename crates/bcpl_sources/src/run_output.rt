//! Standard output of a run, which knows whether a message would continue its last line.

use crate::output::print_lines;
use std::io;
use std::io::Write;

/// Standard output of a run.
#[derive(Drop)]
pub struct RunOutput<O: Write + Drop> {
    out: O,
    /// Whether standard error is shown on the same terminal.
    is_shared: bool,
    /// The last byte written, or a line feed if there is none.
    last: u8,
}

impl<O: Write + Drop> RunOutput<O> {
    /// Wraps `out`. `is_shared` says whether standard error is shown on the same terminal.
    pub fn new(out: O, is_shared: bool) -> RunOutput<O> {
        RunOutput {
            out,
            is_shared,
            last: b'\n',
        }
    }

    /// Ends the last line of the run at a terminal if a message follows, so that the message has a line of its own.
    pub fn end_line<E: Write + Drop>(&self, has_message: bool, err: &mut E) {
        if has_message && self.is_shared && self.last != b'\n' {
            print_lines("\n", err);
        }
    }
}

impl<O: Write + Drop> Write for RunOutput<O> {
    fn write(&mut self, buf: &[u8]) -> io::Result<usize> {
        let written = self.out.write(buf)?;
        if written > 0 && written <= buf.len() {
            self.last = buf[written - 1];
        }
        Ok(written)
    }

    fn flush(&mut self) -> io::Result<()> {
        self.out.flush()
    }
}
