//! The standard streams as commands see them.

use crate::devices::Source;
use crate::run_output::RunOutput;
use bcpl_cli::{Clean, Places};
use std::alloc::Global;
use std::io::{Read, Write};

/// Which of the standard streams are terminals.
#[derive(Clone, Copy)]
pub struct Terminals {
    /// Whether standard input is one.
    pub input: bool,
    /// Whether standard output is one.
    pub out: bool,
    /// Whether standard error is one.
    pub err: bool,
    /// Whether messages on standard error are in colours.
    pub colours: bool,
}

/// The standard streams, and what the program's surroundings say about them.
pub struct Standard<'a, R: Read + Drop, O: Write + Drop, E: Write + Drop> {
    /// Standard input.
    pub input: R,
    /// Standard output.
    pub out: O,
    /// Standard error.
    pub err: E,
    /// Which of them are terminals.
    pub terminals: Terminals,
    /// The value of the environment variable `BCPL_PLACES`, if it is set.
    pub setting: Option<&'a str>,
}

/// The standard streams of a command.
pub struct Console<R: Read + Drop, O: Write + Drop, E: Write + Drop> {
    /// Standard input.
    pub input: R,
    /// Standard output.
    pub out: O,
    /// Standard error, without control characters if it is a terminal.
    pub err: Clean<E>,
    /// Which of them are terminals.
    pub terminals: Terminals,
    /// Whether refusals are explained after their first line.
    pub explains: bool,
}

impl<R: Read + Drop, O: Write + Drop, E: Write + Drop> Drop for Console<R, O, E> {
    fn drop(self) {
        let Console {
            input: _,
            out: _,
            err: _,
            terminals: _,
            explains: _,
        } = self;
    }
}

/// Standard input and output for a run, whether the output is a terminal, and whether refusals are explained.
pub struct RunStreams<R: Read + Drop, O: Write + Drop> {
    /// Standard input.
    pub input: R,
    /// Standard output.
    pub out: O,
    /// Whether the output is a terminal.
    pub is_terminal: bool,
    /// Whether refusals are explained after their first line.
    pub explains: bool,
}

impl<R: Read + Drop, O: Write + Drop> Drop for RunStreams<R, O> {
    fn drop(self) {
        let RunStreams {
            input: _,
            out: _,
            is_terminal: _,
            explains: _,
        } = self;
    }
}

/// The standard streams of a run from sources, and the stream for warnings.
#[derive(Drop)]
pub struct RunConsole<'e, R: Read + Drop, O: Write + Drop, E: Write + Drop> {
    /// Standard input and output.
    pub streams: RunStreams<R, O>,
    /// The stream for warnings.
    pub err: &'e mut Clean<E>,
}

/// Whether to explain refusals, if standard error is a terminal or not.
pub fn explains_at(places: Places, is_terminal: bool) -> bool {
    match places {
        Places::Always | Places::Json => true,
        Places::OnTerminal => is_terminal,
        Places::Never => false,
    }
}

impl<R: Read + Drop, O: Write + Drop, E: Write + Drop> Console<R, O, E> {
    /// The streams of a command that explains refusals as `places` says.
    pub fn new(alloc: Global, standard: Standard<'_, R, O, E>, places: Places) -> Console<R, O, E> {
        let Standard {
            input,
            out,
            err,
            terminals,
            setting: _,
        } = standard;
        Console {
            input,
            out,
            err: match places {
                Places::Json => Clean::with_json(alloc, err),
                _ => Clean::new(err, terminals.err).in_colours(terminals.colours),
            },
            terminals,
            explains: explains_at(places, terminals.err),
        }
    }

    /// Standard input, output and error.
    pub fn streams(self) -> (R, O, Clean<E>) {
        let Console {
            input,
            out,
            err,
            terminals: _,
            explains: _,
        } = self;
        (input, out, err)
    }

    /// Standard input, standard output as a run sees it, and standard error.
    pub fn split(self) -> (R, RunOutput<O>, Clean<E>) {
        let is_shared = self.terminals.out && self.terminals.err;
        let (input, out, err) = self.streams();
        (input, RunOutput::new(out, is_shared), err)
    }
}

impl<R: Read + Drop, O: Write + Drop> RunStreams<R, O> {
    /// Standard input and output.
    pub fn split(self) -> (R, O) {
        let RunStreams {
            input,
            out,
            is_terminal: _,
            explains: _,
        } = self;
        (input, out)
    }

    /// These streams, with standard input as a device of a run.
    pub fn on_source<F: Read + Drop>(self) -> RunStreams<Source<R, F>, O> {
        let RunStreams {
            input,
            out,
            is_terminal,
            explains,
        } = self;
        RunStreams {
            input: Source::Standard(input),
            out,
            is_terminal,
            explains,
        }
    }
}
