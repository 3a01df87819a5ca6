//! A writer that discards everything, for runs without a trace.

use std::io;
use std::io::Write;

/// Discards what is written to it.
#[derive(Clone, Copy)]
pub struct Nowhere;

impl Write for Nowhere {
    fn write(&mut self, buf: &[u8]) -> io::Result<usize> {
        Ok(buf.len())
    }

    fn flush(&mut self) -> io::Result<()> {
        Ok(())
    }
}
