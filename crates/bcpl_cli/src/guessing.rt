//! Guesses what an invalid command line was meant to say.

use crate::arguments::{ArgumentError, Places};
use crate::numbers::number_of;
use clap::error::ErrorKind;

/// What is probably missing from an invalid command line.
#[derive(Clone, Copy)]
pub enum Guess<'a> {
    /// A command: this argument is in its place.
    Command(&'a str),
    /// `--steps`, after `run` and with this text.
    Steps(&'a str),
    /// `--out`, after `build` and with this source.
    Out(&'a str),
    /// `--out` before this text, which follows a source.
    OutOf { text: &'a str, source: &'a str },
    /// A valid number for this option.
    Number(&'a str),
    /// A second dash before this option.
    Dash(&'a str),
}

/// The options that take a number.
const NUMBERED: [&str; 5] = ["--steps", "--turns", "--from", "--count", "--record"];

/// The usual ending of a source's file name.
const SOURCE: &str = ".bcpl";

/// Whether an argument begins with this option.
fn has_option(words: &[&str], option: &str) -> bool {
    words.iter().any(|word| word.starts_with(option))
}

/// The last argument, if it is no option and not the first argument.
fn last_file<'a>(words: &[&'a str]) -> Option<&'a str> {
    match words.last() {
        Some(word) if words.len() > 1 && !word.starts_with('-') => Some(word),
        _ => None,
    }
}

/// The argument before the last one, if it ends in `.bcpl` and the last one does not.
fn source_before<'a>(words: &[&'a str], last: &str) -> Option<&'a str> {
    let (_, front) = words.split_last()?;
    match front.last() {
        Some(word) if word.ends_with(SOURCE) && !last.ends_with(SOURCE) => Some(word),
        _ => None,
    }
}

/// What a `build` without `--out` is missing, if `file` is its last argument.
fn out_for<'a>(words: &[&'a str], file: &'a str) -> Guess<'a> {
    match source_before(words, file) {
        Some(source) => Guess::OutOf { text: file, source },
        None => Guess::Out(file),
    }
}

/// What a command is missing whose required argument was not given.
fn missing<'a>(words: &[&'a str], first: &str) -> Option<Guess<'a>> {
    let file = last_file(words)?;
    match first {
        "run" if !has_option(words, "--steps") => Some(Guess::Steps(file)),
        "build" if !has_option(words, "--out") && !has_option(words, "-o") => {
            Some(out_for(words, file))
        }
        _ => None,
    }
}

/// The option in an argument `OPTION=NUMBER` whose number is invalid.
fn invalid_within<'a>(word: &'a str) -> Option<&'a str> {
    match word.split_once('=') {
        Some((option, number)) if NUMBERED.contains(&option) && number_of(number).is_none() => {
            Some(option)
        }
        _ => None,
    }
}

/// The first option whose number, given after it or after a `=`, is invalid.
pub(crate) fn invalid_number<'a>(words: &[&'a str]) -> Option<&'a str> {
    let mut before = "";
    for word in words {
        if NUMBERED.contains(&before) && number_of(word).is_none() {
            return Some(before);
        }
        let within = invalid_within(word);
        if within.is_some() {
            return within;
        }
        before = word;
    }
    None
}

/// The first argument that has one dash and several letters, like an option with one dash too few.
fn with_one_dash<'a>(words: &[&'a str]) -> Option<&'a str> {
    for word in words {
        if word.len() > 2 && word.starts_with('-') && !word.starts_with("--") {
            return Some(word);
        }
    }
    None
}

/// What is missing from a command line with an unknown option: a valid number (a negative number looks like an
/// option), or a second dash.
fn unknown_option<'a>(words: &[&'a str]) -> Option<Guess<'a>> {
    match invalid_number(words) {
        Some(option) => Some(Guess::Number(option)),
        None => with_one_dash(words).map(Guess::Dash),
    }
}

/// What is probably missing from these arguments, which are invalid for the reason `bad`; `None` if that can't be
/// guessed.
pub fn guess_of<'a>(words: &[&'a str], bad: &ArgumentError<'_>) -> Option<Guess<'a>> {
    let kind = match bad {
        ArgumentError::Parser(error) => error.kind(),
        ArgumentError::Option { .. } | ArgumentError::Memory => return None,
    };
    let first = words.first()?;
    match kind {
        ErrorKind::InvalidSubcommand => Some(Guess::Command(first)),
        ErrorKind::MissingRequiredArgument => missing(words, first),
        ErrorKind::ValueValidation => invalid_number(words).map(Guess::Number),
        ErrorKind::UnknownArgument => unknown_option(words),
        _ => None,
    }
}

/// When to explain, for an invalid command line: the last valid value of `--places`, or else what `setting`, the value
/// of `BCPL_PLACES`, says.
pub fn places_in(words: &[&str], setting: Option<&str>) -> Places {
    let mut places = Places::default_of(setting);
    let mut is_next = false;
    for word in words {
        let value = if is_next {
            Some(*word)
        } else {
            word.strip_prefix("--places=")
        };
        if let Some(value) = value {
            places = Places::named(value).unwrap_or(places);
        }
        is_next = *word == "--places";
    }
    places
}
