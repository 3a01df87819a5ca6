//! The old sources of a project: which files are sources, and the sections in each.

use crate::texts::Tokens;
use bc_word::Memory;
use bcpl_convert::name_of;
use std::alloc::Global;

/// A section of an old source, which becomes a file.
pub struct OldFile {
    /// The name of the new file.
    pub name: String,
    /// That name in the folder of the old source.
    pub beside: String,
    /// The path of the old source.
    pub source: String,
    /// How many lines of the old source come before it.
    pub lines_before: usize,
    /// Its text.
    pub text: Vec<u8>,
}

impl Drop for OldFile {
    fn drop(self) {
        let OldFile {
            name: _,
            beside: _,
            source: _,
            lines_before: _,
            text: _,
        } = self;
    }
}

/// The signs that open a list of declarations.
const OPENING: &[u8] = b"$[{";

/// The signs with which a string begins.
const QUOTES: &[u8] = b"\"'";

/// The signs that follow the first name after LET.
const AFTER_NAME: &[u8] = b"(=,";

/// Whether a text begins as a source does: with GET, SECTION or NEEDS and a string, with a list of declarations, with LET or AND,
/// or with a sign of conditional compilation.
pub fn is_source(alloc: Global, text: &[u8]) -> Result<bool, Memory> {
    let tokens = Tokens::of(alloc, text)?;
    for word in [b"GET".as_slice(), b"SECTION", b"NEEDS"] {
        if tokens.is_word(0, word) {
            return Ok(tokens.begins_with(1, QUOTES));
        }
    }
    for word in [
        b"GLOBAL".as_slice(),
        b"MANIFEST",
        b"STATIC",
        b"EXTERNAL",
        b"STRUCTURE",
    ] {
        if tokens.is_word(0, word) {
            return Ok(tokens.begins_with(1, OPENING));
        }
    }
    for word in [b"LET".as_slice(), b"AND"] {
        if tokens.is_word(0, word) {
            return Ok(tokens.begins_with(2, AFTER_NAME));
        }
    }
    let first = tokens.bytes(0);
    Ok(first.starts_with(b"$$".as_slice()) || first.starts_with(b"$<".as_slice()))
}

/// Whether the token with this index is a full stop that ends a section, with another one after it.
fn ends_section(tokens: &Tokens<'_>, index: usize) -> bool {
    let next = index.saturating_add(1);
    tokens.bytes(index) == b".".as_slice()
        && tokens.gap_after(index).contains(&b'\n')
        && next < tokens.count()
        && !tokens.begins_with(next, &[0x1a, 0])
}

/// The offset of the line after an offset.
fn next_line(text: &[u8], at: usize) -> usize {
    let rest = text.get(at..).unwrap_or(&[]);
    match rest.iter().position(|byte| *byte == b'\n') {
        Some(count) => at.saturating_add(count).saturating_add(1),
        None => text.len(),
    }
}

/// The offsets at which the sections of a text begin, and its length. There is one section more than there are full stops
/// between sections.
fn section_bounds(alloc: Global, text: &[u8]) -> Result<Vec<usize>, Memory> {
    let tokens = Tokens::of(alloc, text)?;
    let mut bounds = Vec::new(alloc);
    bounds.push(0)?;
    for index in 0..tokens.count() {
        if ends_section(&tokens, index) {
            bounds.push(next_line(text, tokens.end(index)))?;
        }
    }
    bounds.push(text.len())?;
    Ok(bounds)
}

/// The name of the section with this number: the file's name with the number before its ending.
fn section_name(alloc: Global, name: &str, number: usize) -> Result<String, Memory> {
    Ok(match name.rsplit_once('.') {
        Some((stem, ending)) if !stem.is_empty() => format!(in alloc; "{stem}-{number}.{ending}")?,
        _ => format!(in alloc; "{name}-{number}")?,
    })
}

/// A path with this name in the folder of another path.
fn beside(alloc: Global, path: &str, name: &str) -> Result<String, Memory> {
    let count = path.len().saturating_sub(name_of(path).len());
    let folder = path.get(..count).unwrap_or("");
    Ok(format!(in alloc; "{folder}{name}")?)
}

/// How many line feeds these bytes have.
pub fn count_lines(bytes: &[u8]) -> usize {
    bytes.iter().filter(|byte| **byte == b'\n').count()
}

/// Whether one of these tokens is this word.
fn has_word(tokens: &Tokens<'_>, word: &[u8]) -> bool {
    (0..tokens.count()).any(|index| tokens.is_word(index, word))
}

/// Whether a section only declares globals and constants, and so is a header for the sections after it.
fn is_header_section(alloc: Global, text: &[u8]) -> Result<bool, Memory> {
    let tokens = Tokens::of(alloc, text)?;
    let declares = has_word(&tokens, b"GLOBAL") || has_word(&tokens, b"MANIFEST");
    Ok(declares && !has_word(&tokens, b"LET") && !has_word(&tokens, b"STATIC"))
}

/// Whether a section gets a header.
fn gets_header(alloc: Global, text: &[u8]) -> Result<bool, Memory> {
    let tokens = Tokens::of(alloc, text)?;
    Ok(has_word(&tokens, b"GET"))
}

/// Whether the first of these sections of a source is a header for the others: it only declares names, and they get no header.
fn is_headed(alloc: Global, sections: &[OldFile]) -> Result<bool, Memory> {
    for (number, section) in sections.iter().enumerate() {
        let text = section.text.as_slice();
        let is_plain = if number == 0 {
            is_header_section(alloc, text)?
        } else {
            !gets_header(alloc, text)?
        };
        if !is_plain {
            return Ok(false);
        }
    }
    Ok(true)
}

/// The text of a section after a GET of the file with this name.
fn with_get(alloc: Global, name: &str, text: &[u8]) -> Result<Vec<u8>, Memory> {
    let get = format!(in alloc; "GET \"{name}\" ")?;
    let mut whole = Vec::from_slice(alloc, get.as_bytes())?;
    whole.extend_from_slice(text)?;
    Ok(whole)
}

/// Puts a GET of the first of these sections of a source at the beginning of the others, if it is a header for them.
fn get_first(alloc: Global, sections: &mut [OldFile]) -> Result<(), Memory> {
    let name = match sections.first() {
        Some(first) => String::from_str(alloc, first.name.as_str())?,
        None => return Ok(()),
    };
    if !is_headed(alloc, sections)? {
        return Ok(());
    }
    for number in 1..sections.len() {
        let text = with_get(alloc, name.as_str(), sections[number].text.as_slice())?;
        sections[number].text = text;
    }
    Ok(())
}

/// Adds the sections of the source with this path, each as a file. A source of one section keeps its name. If the first section
/// only declares names, and the others get no header, they get the first one.
///
/// # Errors
///
/// `Memory` if an allocation failed.
pub fn add_sections(
    alloc: Global,
    files: &mut Vec<OldFile>,
    path: &str,
    text: &[u8],
) -> Result<(), Memory> {
    let bounds = section_bounds(alloc, text)?;
    let is_whole = bounds.len() == 2;
    let mut sections = Vec::new(alloc);
    for number in 1..bounds.len() {
        let start = bounds.get(number - 1).copied().unwrap_or(0);
        let end = bounds.get(number).copied().unwrap_or(0);
        let name = if is_whole {
            String::from_str(alloc, name_of(path))?
        } else {
            section_name(alloc, name_of(path), number)?
        };
        sections.push(OldFile {
            beside: beside(alloc, path, name.as_str())?,
            name,
            source: String::from_str(alloc, path)?,
            lines_before: count_lines(text.get(..start).unwrap_or(&[])),
            text: Vec::from_slice(alloc, text.get(start..end).unwrap_or(&[]))?,
        })?;
    }
    get_first(alloc, sections.as_mut_slice())?;
    for section in sections {
        files.push(section)?;
    }
    Ok(())
}
