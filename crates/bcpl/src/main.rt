//! The program `bcpl`: compiles and interprets BCPL, checks certificates, and assembles, links and runs INTCODE.
#![tactic(auto)]

mod commands;
mod failures;
mod hints;
mod noted_output;

use crate::commands::command_on;
use bcpl_sources::{Standard, Terminals};
use std::io::{BufWriter, IsTerminal};
use std::process::ExitCode;
use std::{env, fs, io};

/// The value of an environment variable, unless it is empty or not set.
fn variable(rt: &HostRuntime, name: &str) -> Option<String> {
    match env::var(rt, name) {
        Ok(value) if !value.is_empty() => Some(value),
        _ => None,
    }
}

/// The setting that says how refusals are explained: `json` if `BCPL_MESSAGES` is, or else the value of `BCPL_PLACES`.
fn setting(rt: &HostRuntime) -> Option<String> {
    match variable(rt, "BCPL_MESSAGES") {
        Some(value) if value.as_str() == "json" => Some(value),
        _ => variable(rt, "BCPL_PLACES"),
    }
}

/// Whether messages at a terminal are in colours: TERM names one that takes them, and NO_COLOR is not set.
fn has_colours(rt: &HostRuntime) -> bool {
    let takes_colours = match variable(rt, "TERM") {
        Some(term) => term.as_str() != "dumb",
        None => false,
    };
    takes_colours && variable(rt, "NO_COLOR").is_none()
}

/// Which of the standard streams are terminals.
fn terminals_of(rt: &HostRuntime) -> Terminals {
    let is_terminal = rt.stderr().is_terminal();
    Terminals {
        input: rt.stdin().is_terminal(),
        out: rt.stdout().is_terminal(),
        err: is_terminal,
        colours: is_terminal && has_colours(rt),
    }
}

/// The arguments, without the program's name. Fails if they can't be read.
fn arguments(rt: &HostRuntime) -> io::Result<Vec<String>> {
    let words: Vec<String> = env::args(rt)?.skip(1).collect(rt.alloc())?;
    Ok(words)
}

/// These arguments as `command_on` takes them.
fn texts_of<'w>(rt: &HostRuntime, words: &'w [String]) -> io::Result<Vec<&'w str>> {
    let mut texts = Vec::new(rt.alloc());
    for word in words {
        texts.push(word.as_str())?;
    }
    Ok(texts)
}

/// Runs the command that these arguments ask for and returns the exit status. Fails if memory runs out before it begins.
fn status_of(rt: &HostRuntime, words: &[&str]) -> io::Result<u8> {
    let setting = setting(rt);
    let terminals = terminals_of(rt);
    let standard = Standard {
        input: rt.stdin().lock(),
        out: rt.stdout().lock(),
        err: BufWriter::new(rt.alloc(), rt.stderr().lock())?,
        terminals,
        setting: setting.as_ref().map(|value| value.as_str()),
    };
    Ok(command_on(rt, rt.alloc(), words, standard))
}

/// Runs the command that the arguments ask for and returns the exit status. Fails if the arguments can't be read.
fn status(rt: &HostRuntime) -> io::Result<u8> {
    // If a standard stream is closed, the system gives its number to the next file that is opened. These folders take
    // the numbers, so that no file of the program is used as a standard stream: they can be neither read nor written.
    let _held = [fs::open(rt, "/"), fs::open(rt, "/"), fs::open(rt, "/")];
    let words = arguments(rt)?;
    let texts = texts_of(rt, words.as_slice())?;
    status_of(rt, texts.as_slice())
}

/// The exit status if the arguments can't be read, because memory ran out or one is not valid UTF-8.
fn unreadable_arguments_status(rt: &HostRuntime, error: &io::Error) -> u8 {
    if error.kind() == io::ErrorKind::OutOfMemory {
        let _ = rt.eprintln("bcpl: memory");
        1
    } else {
        let _ = rt.eprintln("bcpl: an argument is not valid UTF-8");
        3
    }
}

/// Runs the program.
fn main(rt: HostRuntime) -> ExitCode {
    match status(&rt) {
        Ok(status) => ExitCode::from(status),
        Err(error) => ExitCode::from(unreadable_arguments_status(&rt, &error)),
    }
}
