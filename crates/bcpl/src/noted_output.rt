//! Standard output that notes how a write to it failed.

use bcpl_cli::Failure;
use std::alloc::Global;
use std::io;
use std::io::{ErrorKind, Write};

/// A writer to standard output.
#[derive(Drop)]
pub struct NotedOutput<O: Write + Drop> {
    out: O,
    /// Whether nothing failed because the reader of a pipe has gone, as in `bcpl go hello.bcpl | head -1`.
    has_reader: bool,
    /// Whether something failed for another reason.
    has_failed: bool,
}

impl<O: Write + Drop> NotedOutput<O> {
    /// Wraps `out`.
    pub fn new(out: O) -> NotedOutput<O> {
        NotedOutput {
            out,
            has_reader: true,
            has_failed: false,
        }
    }

    /// What it writes to.
    pub fn inner(&self) -> &O {
        &self.out
    }

    /// Whether no write has shown that the reader has gone.
    pub fn has_reader(&self) -> bool {
        self.has_reader
    }

    /// The result of a command that ignores failed writes, which fails if one did while there was a reader.
    pub fn checked(&self, alloc: Global, done: Result<(), Failure>) -> Result<(), Failure> {
        match done {
            Ok(()) if self.has_failed => Err(Failure::file(alloc, "SYSPRINT")),
            done => done,
        }
    }

    /// Notes why a call of the writer failed.
    fn note(&mut self, error: &io::Error) {
        match error.kind() {
            ErrorKind::BrokenPipe => self.has_reader = false,
            _ => self.has_failed = true,
        }
    }
}

impl<O: Write + Drop> Write for NotedOutput<O> {
    fn write(&mut self, buf: &[u8]) -> io::Result<usize> {
        let done = self.out.write(buf);
        if let Err(error) = &done {
            self.note(error);
        }
        done
    }

    fn flush(&mut self) -> io::Result<()> {
        let done = self.out.flush();
        if let Err(error) = &done {
            self.note(error);
        }
        done
    }
}
