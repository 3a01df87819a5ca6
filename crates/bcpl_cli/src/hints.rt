//! Hints for a file that is not of the kind that the command expects.

use crate::Failure;
use crate::escaped::Escaped;
use crate::file_kinds::{FileKind, file_kind};
use bc_word::Memory;
use std::alloc::Global;

/// What is expected where a file was named.
#[derive(Clone, Copy)]
pub enum Expected {
    /// A source.
    Source,
    /// A text of INTCODE.
    Text,
    /// A certificate.
    Certificate,
    /// The name of a command.
    Command,
}

/// A path without its extension.
pub fn without_extension(path: &str) -> &str {
    match path.rsplit_once('.') {
        Some((front, ending)) if !front.is_empty() && !ending.contains('/') => front,
        _ => path,
    }
}

/// What a file of this kind looks like where something else is expected, and which command accepts it. `@` means its path,
/// and `#` its path without the extension. `None` if it looks as expected.
fn template_of(kind: FileKind, expected: Expected) -> Option<&'static str> {
    match (kind, expected) {
        (FileKind::Wide, _) => Some(
            "@ begins with a UTF-16 byte order mark: save it as plain text, in ASCII or UTF-8",
        ),
        (FileKind::Returns, Expected::Source) => Some(
            "@ has carriage returns and no line feeds, so it counts as one line: save it with line feeds",
        ),
        (FileKind::Source | FileKind::Returns, Expected::Command) => Some(
            "@ looks like BCPL source: `bcpl go @` builds and runs it, `bcpl build @ -o #.int` makes a text for `bcpl run`",
        ),
        (FileKind::Source | FileKind::Returns, Expected::Text) => Some(
            "@ looks like BCPL source: `bcpl build @ -o #.int` makes a text for `bcpl run`, `bcpl interpret @` runs it directly",
        ),
        (FileKind::Source | FileKind::Returns, Expected::Certificate) => Some(
            "@ looks like BCPL source: `bcpl build @ -o #.int --cert #.cert` builds it with a certificate",
        ),
        (FileKind::Text, Expected::Source | Expected::Command) => {
            Some("@ looks like INTCODE text: `bcpl run --steps 1000000 @` runs it")
        }
        (FileKind::Text, Expected::Certificate) => Some(
            "@ looks like INTCODE text: the certificate comes before it, as in `bcpl check CERT @`",
        ),
        (FileKind::Certificate, Expected::Source | Expected::Text | Expected::Command) => {
            Some("@ looks like a certificate: `bcpl check @` checks it")
        }
        (FileKind::Source, Expected::Source)
        | (FileKind::Text, Expected::Text)
        | (FileKind::Certificate, Expected::Certificate) => None,
    }
}

/// Adds a part of a template, with this path for each `#`.
fn add_part(text: &mut String, part: &str, bare: Escaped<'_>) -> Result<(), Memory> {
    for (index, piece) in part.split('#').enumerate() {
        if index > 0 {
            write!(text, "{bare}")?;
        }
        text.push_str(piece)?;
    }
    Ok(())
}

/// A template with this path for each `@`, and without its extension for each `#`.
fn filled(alloc: Global, template: &str, path: &str) -> Result<String, Memory> {
    let bare = Escaped(without_extension(path));
    let path = Escaped(path);
    let mut text = String::new(alloc);
    for (index, part) in template.split('@').enumerate() {
        if index > 0 {
            write!(text, "{path}")?;
        }
        add_part(&mut text, part, bare)?;
    }
    Ok(text)
}

/// A hint for a file with this path and content that looks like something other than expected: what it looks like, and
/// which command accepts it. `None` if it looks as expected, or like nothing known.
///
/// # Errors
///
/// A failure of `Memory` if an allocation fails.
pub fn hint(
    alloc: Global,
    expected: Expected,
    path: &str,
    bytes: &[u8],
) -> Result<Option<String>, Failure> {
    let template = match file_kind(bytes) {
        Some(kind) => template_of(kind, expected),
        None => None,
    };
    match template {
        Some(template) => Ok(Some(filled(alloc, template, path)?)),
        None => Ok(None),
    }
}
