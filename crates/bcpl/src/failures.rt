//! Prints failures and invalid command lines, and computes the exit status.

ghost use Rattle.std.specs.Prelude.{◌≡◌, ◌≤◌};
ghost use Rattle.bcpl_cli.specs.Statuses.{status_of};

use bc_machine_defs::End;
use bc_word::Memory;
use bcpl_cli::{ArgumentError, Cause, Clean, Escaped, Failure};
use bcpl_reports::{Label, Severity, text_objects};
use clap::error::ErrorKind;
use std::alloc::Global;
use std::io;
use std::io::Write;

/// Prints the first line of a failure. On a terminal, control characters of a path are shown as escapes.
fn print_first_line<E: Write + Drop>(failure: &Failure, err: &mut Clean<E>) -> io::Result<()> {
    match &failure.cause {
        Cause::File(path) if err.is_terminal() => {
            let path = Escaped(path.as_str());
            writeln!(err, "bcpl: file {path}")
        }
        _ => writeln!(err, "bcpl: {failure}"),
    }
}

/// A failure as JSON objects: those of its explanation, or one with its first line.
fn objects_of(alloc: Global, failure: &Failure) -> Result<String, Memory> {
    let code = format!(in alloc; "{failure}")?;
    let label = Label {
        severity: Severity::Error,
        code: code.as_str(),
    };
    let explanation = failure.explanation();
    if explanation.is_empty() {
        text_objects(alloc, label, code.as_str())
    } else {
        text_objects(alloc, label, explanation)
    }
}

/// Prints a failure as JSON objects, or its first line if memory runs out.
fn print_objects<E: Write + Drop>(
    alloc: Global,
    failure: &Failure,
    err: &mut Clean<E>,
) -> io::Result<()> {
    match objects_of(alloc, failure) {
        Ok(objects) => err.write_all(objects.as_bytes())?,
        Err(_) => print_first_line(failure, err)?,
    }
    err.flush()
}

/// Prints the first line of a failure and, if `explains`, its explanation.
fn print_failure<E: Write + Drop>(
    failure: &Failure,
    explains: bool,
    err: &mut Clean<E>,
) -> io::Result<()> {
    if let Some(alloc) = err.json() {
        return print_objects(alloc, failure, err);
    }
    print_first_line(failure, err)?;
    if explains {
        err.write_messages(failure.explanation())?;
    }
    err.flush()
}

/// The exit status of a command. Prints its failure on standard error, with the explanation if `explains`.
pub fn status<E: Write + Drop>(done: Result<(), Failure>, explains: bool, err: &mut Clean<E>) -> u8
    ensures { result ≡ status_of done }
{
    match done {
        Ok(()) => 0,
        Err(failure) => {
            let _ = print_failure(&failure, explains, err);
            failure.status()
        }
    }
}

/// Whether this can be the failure of standard output.
fn is_of_output(failure: &Failure) -> bool {
    match &failure.cause {
        Cause::File(path) => path.as_str() == "SYSPRINT",
        Cause::Ended(end) => *end == End::Device,
        _ => false,
    }
}

/// Like `status`, but prints nothing if standard output failed because its reader has gone.
pub fn piped_status<E: Write + Drop>(
    done: Result<(), Failure>,
    explains: bool,
    has_reader: bool,
    err: &mut Clean<E>,
) -> u8
    ensures { result ≡ status_of done }
{
    match done {
        Err(failure) if !has_reader && is_of_output(&failure) => failure.status(),
        done => status(done, explains, err),
    }
}

/// Reports that memory ran out and returns the exit status.
fn memory_status<E: Write + Drop>(err: &mut Clean<E>) -> u8
    ensures { result ≤ 3 }
{
    status(Err(Failure::new(Cause::Memory)), false, err)
}

/// Reports an invalid option value and returns the exit status.
fn option_status<E: Write + Drop>(value: &str, err: &mut Clean<E>) -> u8
    ensures { result ≤ 3 }
{
    let _ = writeln!(err, "bcpl: option {value}");
    let _ = err.flush();
    3
}

/// Prints requested help on standard output and returns the exit status.
fn help_status<O: Write + Drop, E: Write + Drop>(
    alloc: Global,
    help: &clap::Error,
    out: &mut O,
    err: &mut Clean<E>,
) -> u8
    ensures { result ≤ 3 }
{
    if write!(out, "{help}").is_ok() && out.flush().is_ok() {
        0
    } else {
        status(Err(Failure::file(alloc, "SYSPRINT")), false, err)
    }
}

/// Prints a message of the argument parser and returns the exit status.
fn parser_status<O: Write + Drop, E: Write + Drop>(
    alloc: Global,
    error: &clap::Error,
    out: &mut O,
    err: &mut Clean<E>,
) -> u8
    ensures { result ≤ 3 }
{
    if error.kind() == ErrorKind::OutOfMemory {
        memory_status(err)
    } else if error.use_stderr() {
        let _ = write!(err, "{error}");
        let _ = err.flush();
        3
    } else {
        help_status(alloc, error, out, err)
    }
}

/// Reports an invalid command line and returns the exit status. Requested help goes to standard output.
pub fn argument_status<O: Write + Drop, E: Write + Drop>(
    alloc: Global,
    error: &ArgumentError<'_>,
    out: &mut O,
    err: &mut Clean<E>,
) -> u8
    ensures { result ≤ 3 }
{
    match error {
        ArgumentError::Memory => memory_status(err),
        ArgumentError::Option { value, .. } => option_status(value, err),
        ArgumentError::Parser(error) => parser_status(alloc, error, out, err),
    }
}
