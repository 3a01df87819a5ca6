//! A message about sources as a JSON object.

use crate::json_place::{Place, place_of};
use bc_word::Memory;
use bcpl_messages::{Message, Named, Note};
use bcpl_places::LineIndex;
use serde_json::{Value, json};
use std::alloc::Global;

/// How serious a message is.
#[derive(Clone, Copy, PartialEq, Eq)]
pub enum Severity {
    /// The sources were refused, or a run ended otherwise than by finishing.
    Error,
    /// The sources were accepted.
    Warning,
}

impl Severity {
    /// Its name.
    pub fn name(self) -> &'static str {
        match self {
            Severity::Error => "error",
            Severity::Warning => "warning",
        }
    }
}

/// What a message is about.
#[derive(Clone, Copy)]
pub struct Label<'a> {
    /// How serious it is.
    pub severity: Severity,
    /// Part, number and name of a refusal with its fields, as in its first line; empty for a warning.
    pub code: &'a str,
}

/// A place and a sentence.
fn at_place(alloc: Global, place: Place<'_>, sentence: &str) -> Result<Value, Memory> {
    let value = json!(in alloc; {
        "file": place.file,
        "line": place.line,
        "column": place.column,
        "end": place.end,
        "message": sentence
    })?;
    Ok(value)
}

/// A related place.
fn related(
    alloc: Global,
    named: Named<'_, '_>,
    index: &mut LineIndex,
    note: &Note,
) -> Result<Value, Memory> {
    let place = place_of(alloc, named, index, note.span)?;
    at_place(alloc, place, note.sentence.as_str())
}

/// The related places of a message.
fn all_related(
    alloc: Global,
    named: Named<'_, '_>,
    index: &mut LineIndex,
    message: &Message,
) -> Result<Value, Memory> {
    let mut found = Vec::new(alloc);
    for note in &message.notes {
        found.push(related(alloc, named, index, note)?)?;
    }
    Ok(Value::from(found))
}

/// The help of a message, or null.
fn help_of(alloc: Global, message: &Message) -> Result<Value, Memory> {
    match &message.help {
        Some(help) => Ok(json!(in alloc; help.as_str())?),
        None => Ok(Value::Null),
    }
}

/// The sentence of a message without the word that its severity says.
fn sentence_of(message: &Message) -> &str {
    let sentence = message.sentence.as_str();
    match sentence.strip_prefix("warning: ") {
        Some(sentence) => sentence,
        None => sentence,
    }
}

/// A message that has a place.
fn placed(
    alloc: Global,
    label: Label<'_>,
    message: &Message,
    place: Place<'_>,
    related: Value,
) -> Result<Value, Memory> {
    let help = help_of(alloc, message)?;
    let value = json!(in alloc; {
        "severity": label.severity.name(),
        "code": label.code,
        "file": place.file,
        "line": place.line,
        "column": place.column,
        "end": place.end,
        "message": sentence_of(message),
        "help": help,
        "related": related
    })?;
    Ok(value)
}

/// A message that has no place.
fn unplaced(
    alloc: Global,
    label: Label<'_>,
    message: &Message,
    related: Value,
) -> Result<Value, Memory> {
    let help = help_of(alloc, message)?;
    let value = json!(in alloc; {
        "severity": label.severity.name(),
        "code": label.code,
        "message": sentence_of(message),
        "help": help,
        "related": related
    })?;
    Ok(value)
}

/// The line with a message as a JSON object. The index has the lines of the sources. Returns `Memory` if an allocation fails.
pub fn message_line(
    alloc: Global,
    named: Named<'_, '_>,
    index: &mut LineIndex,
    label: Label<'_>,
    message: &Message,
) -> Result<String, Memory> {
    let related = all_related(alloc, named, index, message)?;
    let value = match message.span {
        Some(span) => {
            let place = place_of(alloc, named, index, span)?;
            placed(alloc, label, message, place, related)?
        }
        None => unplaced(alloc, label, message, related)?,
    };
    let mut line = value.to_string(alloc)?;
    line.push_str("\n")?;
    Ok(line)
}
