//! Prints what a run lost.

use bc_word::Memory;
use bcpl_cli::Clean;
use bcpl_reports::{Label, Severity, text_objects};
use bcpl_sources::print_messages;
use std::alloc::Global;
use std::io::Write;

/// The warning of these lines as a JSON object; nothing if there are none.
fn object_of(alloc: Global, lines: &str) -> Result<String, Memory> {
    let label = Label {
        severity: Severity::Warning,
        code: "",
    };
    text_objects(alloc, label, lines)
}

/// These lines as JSON objects, one for each line without blanks before it.
fn objects_of(alloc: Global, lines: &str) -> Result<String, Memory> {
    let mut objects = String::new(alloc);
    let mut entry = String::new(alloc);
    for line in lines.lines() {
        if !line.starts_with(' ') {
            objects.push_str(object_of(alloc, entry.as_str())?.as_str())?;
            entry = String::new(alloc);
        }
        writeln!(entry, "{line}")?;
    }
    objects.push_str(object_of(alloc, entry.as_str())?.as_str())?;
    Ok(objects)
}

/// These lines as warnings.
fn warnings_of(alloc: Global, lines: &str) -> Result<String, Memory> {
    let mut text = String::new(alloc);
    for line in lines.lines() {
        if !line.starts_with(' ') {
            text.push_str("bcpl: warning: ")?;
        }
        writeln!(text, "{line}")?;
    }
    Ok(text)
}

/// Prints what a run lost, from the lines that its streams give. Errors are ignored: there is nowhere to report them.
pub fn print_lost<E: Write + Drop>(alloc: Global, lines: &str, err: &mut Clean<E>) {
    if lines.is_empty() {
        return;
    }
    let text = if err.json().is_some() {
        objects_of(alloc, lines)
    } else {
        warnings_of(alloc, lines)
    };
    if let Ok(text) = text {
        print_messages(text.as_str(), err);
    }
}
