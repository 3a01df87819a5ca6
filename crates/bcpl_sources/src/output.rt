//! Helpers for printing results and explanations.

ghost use Rattle.std.specs.Prelude.{◌≡◌};

use bcpl_cli::{Clean, Failure};
use std::alloc::Global;
use std::io;
use std::io::{ErrorKind, Write};

/// The explanation if a run finished but an output could not be written to its end.
const NOT_TO_ITS_END: &str = "the run finished, but an output could not be completely written\n";

/// Adds this explanation to the failure of such a run.
pub fn unfinished(alloc: Global, failure: Failure) -> Failure
    ensures { result.cause ≡ failure.cause }
{
    match String::from_str(alloc, NOT_TO_ITS_END) {
        Ok(explanation) => failure.with(explanation),
        Err(_) => failure,
    }
}

/// The result of writing to standard output. An I/O error becomes the failure of SYSPRINT, with the reason.
pub fn of_output(alloc: Global, done: io::Result<()>) -> Result<(), Failure> {
    match done {
        Ok(()) => Ok(()),
        Err(error) => Err(Failure::io(alloc, &error, "SYSPRINT")),
    }
}

/// Like `of_output`, but standard output that was closed by its reader, as in `bcpl list hello.int | head`, is no
/// failure.
pub fn of_listing(alloc: Global, done: io::Result<()>) -> Result<(), Failure> {
    match done {
        Err(error) if error.kind() == ErrorKind::BrokenPipe => Ok(()),
        done => of_output(alloc, done),
    }
}

/// Writes all of a text and flushes it.
pub fn print_all<O: Write + Drop>(text: &[u8], out: &mut O) -> io::Result<()> {
    out.write_all(text)?;
    out.flush()
}

/// Prints messages, in colours if the terminal takes them. Errors are ignored: there is nowhere to report them.
pub fn print_messages<E: Write + Drop>(lines: &str, err: &mut Clean<E>) {
    let _ = err.write_messages(lines);
    let _ = err.flush();
}

/// Prints a text. Errors are ignored: there is nowhere to report them.
pub fn print_lines<E: Write + Drop>(lines: &str, err: &mut E) {
    let _ = err.write_all(lines.as_bytes());
    let _ = err.flush();
}
