//! The command line of `interpret` that shows where a run of `go` went wrong.

use bc_machine_defs::End;
use bc_word::Memory;
use bcpl_cli::{Binding, Cause, Failure, GoOrder, Library};
use std::alloc::Global;

/// The characters, besides letters and digits, that a shell takes as they are.
const PLAIN: &str = "-_./=+:,@%";

/// Whether a shell takes this text as one word as it is.
fn is_plain(text: &str) -> bool {
    !text.is_empty()
        && text.chars().all(|character| character.is_ascii_alphanumeric()
            || PLAIN.contains(character))
}

/// Appends a blank and this text, in quotes if a shell needs them.
fn add_word(line: &mut String, text: &str) -> Result<(), Memory> {
    if is_plain(text) {
        write!(line, " {text}")?;
        return Ok(());
    }
    line.push_str(" '")?;
    for character in text.chars() {
        if character == '\'' {
            line.push_str("'\\''")?;
        } else {
            line.push(character)?;
        }
    }
    line.push_str("'")?;
    Ok(())
}

/// Appends an option for each of these bindings.
fn add_bindings(
    alloc: Global,
    line: &mut String,
    option: &str,
    bindings: &[Binding<'_>],
) -> Result<(), Memory> {
    for binding in bindings {
        let name = binding.name;
        let path = binding.path;
        let word = format!(in alloc; "{name}={path}")?;
        write!(line, " {option}")?;
        add_word(line, word.as_str())?;
    }
    Ok(())
}

/// Appends the sources, with the options that belong to them.
fn add_sources(alloc: Global, line: &mut String, order: &GoOrder<'_>) -> Result<(), Memory> {
    let sources = &order.program.sources;
    if sources.library == Library::Further {
        line.push_str(" --library ext")?;
    }
    add_bindings(alloc, line, "--get", sources.gets.as_slice())?;
    for folder in &sources.includes {
        line.push_str(" --include")?;
        add_word(line, folder)?;
    }
    add_bindings(alloc, line, "--in", order.program.inputs.as_slice())?;
    add_bindings(alloc, line, "--to", order.program.outputs.as_slice())?;
    for file in &sources.files {
        add_word(line, file)?;
    }
    Ok(())
}

/// The help on a run of `go` that ended with this cause.
fn help_on(alloc: Global, cause: &Cause, order: &GoOrder<'_>) -> Result<String, Memory> {
    let begin = match cause {
        Cause::Ended(End::BudgetSpent) => {
            "  help: --steps N allows more instructions; to see where the run is, type: bcpl interpret"
        }
        _ => "  help: to see where this happened, type: bcpl interpret",
    };
    let mut line = String::from_str(alloc, begin)?;
    add_sources(alloc, &mut line, order)?;
    line.push_str("\n")?;
    Ok(line)
}

/// The failure of a run of `go`, with the command line of `interpret` as its explanation if there was memory for it.
pub fn with_interpret_line(alloc: Global, failure: Failure, order: &GoOrder<'_>) -> Failure {
    match help_on(alloc, &failure.cause, order) {
        Ok(help) => failure.with(help),
        Err(_) => failure,
    }
}
