//! Hints printed after a refusal of a file or of a command line if another command was probably meant.

use bc_build::BuildError;
use bc_link::LinkError;
use bc_word::Memory;
use bcpl_cli::{
    ArgumentError, Cause, Escaped, Expected, Failure, FileKind, Guess, file_kind, get_hint,
    guess_of, hint, named_twice, without_extension,
};
use bcpl_sources::readable;
use std::alloc::Global;
use std::rt::Files;

/// The hint on the file with this path, if it can be read and does not look as expected. Standard input, which `-` may
/// mean, was read already.
fn hint_of<F: Files>(rt: &F, alloc: Global, expected: Expected, path: &str) -> Option<String> {
    if path == "-" {
        return None;
    }
    let bytes = readable(rt, alloc, path)?;
    hint(alloc, expected, path, bytes.as_slice()).ok()?
}

/// The files that a command takes.
#[derive(Clone, Copy)]
pub struct ExpectedFiles<'a> {
    /// What each file is expected to be.
    expected: Expected,
    paths: &'a [&'a str],
    /// Whether more than the first line of a refusal is printed.
    pub explains: bool,
}

impl<'a> ExpectedFiles<'a> {
    /// The files with these paths, each expected to be `expected`. `explains` is whether more than the first line of a
    /// refusal is printed.
    pub fn new(expected: Expected, paths: &'a [&'a str], explains: bool) -> ExpectedFiles<'a> {
        ExpectedFiles {
            expected,
            paths,
            explains,
        }
    }
}

/// Whether this cause is about the content of a file of this kind.
fn is_of_content(cause: &Cause, expected: Expected) -> bool {
    match expected {
        Expected::Source => matches!(cause, Cause::Build(_)),
        Expected::Text => matches!(cause, Cause::Text(_)),
        Expected::Certificate => matches!(cause, Cause::Check(_)),
        Expected::Command => false,
    }
}

/// Whether the cause is that two routines set the same global.
fn is_of_two_setters(cause: &Cause) -> bool {
    matches!(
        cause,
        Cause::Link(LinkError::GlobalTwice(_))
            | Cause::Build(BuildError::Link(LinkError::GlobalTwice(_)))
    )
}

/// A hint for each file that does not look as expected or has carriage returns only.
fn hints_on_files<F: Files>(
    rt: &F,
    alloc: Global,
    files: ExpectedFiles<'_>,
) -> Result<String, Memory> {
    let mut lines = String::new(alloc);
    for path in files.paths {
        if let Some(hint) = hint_of(rt, alloc, files.expected, path) {
            let hint = hint.as_str();
            writeln!(lines, "  help: {hint}")?;
        }
    }
    Ok(lines)
}

/// Whether a source is expected here and the file is one whose lines end in carriage returns only.
fn has_returns_alone<F: Files>(rt: &F, alloc: Global, expected: Expected, path: &str) -> bool {
    match readable(rt, alloc, path) {
        Some(bytes) => matches!(
            (file_kind(bytes.as_slice()), expected),
            (Some(FileKind::Returns), Expected::Source)
        ),
        None => false,
    }
}

/// Whether one of these files is of another kind than expected. Then the help about its content is misleading.
fn is_other_among<F: Files>(rt: &F, alloc: Global, files: ExpectedFiles<'_>) -> bool {
    for path in files.paths {
        let is_other = hint_of(rt, alloc, files.expected, path).is_some();
        if is_other && !has_returns_alone(rt, alloc, files.expected, path) {
            return true;
        }
    }
    false
}

/// The explanation without the help at its end, which assumes that the file is of the expected kind.
fn without_help(explanation: &str) -> &str {
    let whole = explanation.trim_end_matches('\n');
    match whole.rsplit_once('\n') {
        Some((front, last)) if last.starts_with("  help: ") => front,
        _ => whole,
    }
}

/// The explanation followed by these lines.
fn joined(alloc: Global, explanation: &str, lines: &str) -> Result<String, Memory> {
    let mut joined = String::from_str(alloc, explanation)?;
    if !joined.is_empty() {
        joined.push_str("\n")?;
    }
    joined.push_str(lines)?;
    Ok(joined)
}

/// The explanation of a refusal of these files. If a file is of another kind than expected, the hint replaces the
/// help; a hint on carriage returns follows it.
fn lines_on_files<F: Files>(
    rt: &F,
    alloc: Global,
    explanation: &str,
    files: ExpectedFiles<'_>,
) -> Result<String, Memory> {
    let hints = hints_on_files(rt, alloc, files)?;
    if hints.is_empty() {
        return Ok(String::from_str(alloc, explanation)?);
    }
    let kept = if is_other_among(rt, alloc, files) {
        without_help(explanation)
    } else {
        explanation.trim_end_matches('\n')
    };
    joined(alloc, kept, hints.as_str())
}

/// The explanation of a refused content, with a hint where the file of a GET is, or with hints on the files.
fn lines_on_content<F: Files>(
    rt: &F,
    alloc: Global,
    explanation: &str,
    files: ExpectedFiles<'_>,
) -> Result<String, Memory> {
    match get_hint(rt, alloc, explanation, files.paths)? {
        Some(lines) => Ok(lines),
        None => lines_on_files(rt, alloc, explanation, files),
    }
}

/// The line about a file that is named twice.
fn line_on_twice(alloc: Global, path: &str) -> Result<String, Memory> {
    let path = Escaped(path);
    Ok(format!(in alloc; "{path} is named twice, so its content would be linked twice\n")?)
}

/// The explanation that replaces the one of this failure; `None` if that is kept.
fn lines_on_failure<F: Files>(
    rt: &F,
    alloc: Global,
    failure: &Failure,
    files: ExpectedFiles<'_>,
) -> Option<String> {
    if is_of_two_setters(&failure.cause) {
        let path = named_twice(rt, files.paths)?;
        line_on_twice(alloc, path).ok()
    } else if is_of_content(&failure.cause, files.expected) {
        lines_on_content(rt, alloc, failure.explanation(), files).ok()
    } else {
        None
    }
}

/// This failure with hints on the files that its command takes. An explanation of JSON objects is kept as it is.
fn hinted<F: Files>(rt: &F, alloc: Global, failure: Failure, files: ExpectedFiles<'_>) -> Failure {
    if failure.explanation().starts_with('{') {
        return failure;
    }
    match lines_on_failure(rt, alloc, &failure, files) {
        Some(lines) => failure.with(lines),
        None => failure,
    }
}

/// The result of a command, with hints on the files that it takes: on those that don't look as expected, and on one
/// that is named twice.
pub fn with_hints<T: Drop, F: Files>(
    rt: &F,
    alloc: Global,
    done: Result<T, Failure>,
    files: ExpectedFiles<'_>,
) -> Result<T, Failure> {
    match done {
        Err(failure) if files.explains => Err(hinted(rt, alloc, failure, files)),
        done => done,
    }
}

/// The hint if `--steps` is missing: what the file looks like, or how to give the number.
fn hint_on_steps<F: Files>(rt: &F, alloc: Global, path: &str) -> Result<Option<String>, Memory> {
    match hint_of(rt, alloc, Expected::Text, path) {
        Some(hint) => Ok(Some(hint)),
        None => {
            let path = Escaped(path);
            Ok(Some(format!(in alloc;
                "add --steps N, the largest number of instructions to run, as in `bcpl run --steps 1000000 {path}`"
            )?))
        }
    }
}

/// The hint if `--out` is missing: what the file looks like, or how to name the output.
fn hint_on_out<F: Files>(rt: &F, alloc: Global, path: &str) -> Result<Option<String>, Memory> {
    match hint_of(rt, alloc, Expected::Source, path) {
        Some(hint) => Ok(Some(hint)),
        None => {
            let bare = Escaped(without_extension(path));
            let path = Escaped(path);
            Ok(Some(format!(in alloc;
                "add --out OUT, the file for the INTCODE text, as in `bcpl build --out {bare}.int {path}`"
            )?))
        }
    }
}

/// The hint if the output was named without `--out`.
fn hint_on_text(alloc: Global, text: &str, source: &str) -> Result<Option<String>, Memory> {
    let text = Escaped(text);
    let source = Escaped(source);
    Ok(Some(format!(in alloc;
        "name the file for the INTCODE text with --out, as in `bcpl build --out {text} {source}`"
    )?))
}

/// The hint on an option whose number is invalid.
fn hint_on_number(alloc: Global, option: &str) -> Result<Option<String>, Memory> {
    Ok(Some(format!(in alloc;
        "{option} takes a number, as in `{option} 10000`, 1_000_000, 1e6, 10M or 2k"
    )?))
}

/// The hint on an option with one dash.
fn hint_on_dash(alloc: Global, word: &str) -> Result<Option<String>, Memory> {
    Ok(Some(format!(in alloc; "options begin with two dashes: -{word}")?))
}

/// The hint if a file is given instead of a command: what it looks like, or how to run a source.
fn hint_on_command<F: Files>(rt: &F, alloc: Global, path: &str) -> Result<Option<String>, Memory> {
    match hint_of(rt, alloc, Expected::Command, path) {
        Some(hint) => Ok(Some(hint)),
        None if path.ends_with(".bcpl") => {
            let path = Escaped(path);
            Ok(Some(format!(in alloc;
                "a command comes first: `bcpl go {path}` builds and runs a source"
            )?))
        }
        None => Ok(None),
    }
}

/// The hint for this guess.
fn hint_on_guess<F: Files>(
    rt: &F,
    alloc: Global,
    guess: Guess<'_>,
) -> Result<Option<String>, Memory> {
    match guess {
        Guess::Command(path) => hint_on_command(rt, alloc, path),
        Guess::Steps(path) => hint_on_steps(rt, alloc, path),
        Guess::Out(path) => hint_on_out(rt, alloc, path),
        Guess::OutOf { text, source } => hint_on_text(alloc, text, source),
        Guess::Number(option) => hint_on_number(alloc, option),
        Guess::Dash(word) => hint_on_dash(alloc, word),
    }
}

/// The hint on an invalid command line, or `None` if nothing can be guessed.
fn hint_on_arguments<F: Files>(
    rt: &F,
    alloc: Global,
    words: &[&str],
    bad: &ArgumentError<'_>,
) -> Result<Option<String>, Memory> {
    if let ArgumentError::Option { accepts, .. } = bad {
        return Ok(Some(String::from_str(alloc, accepts)?));
    }
    match guess_of(words, bad) {
        Some(guess) => hint_on_guess(rt, alloc, guess),
        None => Ok(None),
    }
}

/// The help line for an invalid command line, or an empty text. `Memory` if an allocation fails.
pub fn help_on_arguments<F: Files>(
    rt: &F,
    alloc: Global,
    words: &[&str],
    bad: &ArgumentError<'_>,
) -> Result<String, Memory> {
    Ok(match hint_on_arguments(rt, alloc, words, bad)? {
        Some(hint) => {
            let hint = hint.as_str();
            format!(in alloc; "  help: {hint}\n")?
        }
        None => String::new(alloc),
    })
}
