//! The names that a source gets.

use bc_word::Memory;
use std::alloc::Global;
use std::str;

/// The word before the name.
const GET: &[u8] = b"GET";

/// Whether this byte can be part of a name.
fn is_of_name(byte: u8) -> bool {
    byte.is_ascii_alphanumeric() || byte == b'.'
}

/// The string at the start of this text, after white space; `None` if there is none, or if it has escapes.
fn string_at_start(text: &[u8]) -> Option<&str> {
    let begin = text.iter().position(|byte| !byte.is_ascii_whitespace())?;
    let (quote, rest) = text.get(begin..)?.split_first()?;
    if *quote != b'"' {
        return None;
    }
    let end = rest.iter().position(|byte| *byte == b'"')?;
    let name = str::from_utf8(rest.get(..end)?).ok()?;
    if name.is_empty() || name.contains(['*', '\n']) {
        None
    } else {
        Some(name)
    }
}

/// The name that is got at this place of a text, if the word GET is there.
fn name_at(text: &[u8], at: usize) -> Option<&str> {
    let (front, rest) = text.split_at_checked(at)?;
    let after = rest.strip_prefix(GET)?;
    if front.last().is_some_and(|byte| is_of_name(*byte)) {
        return None;
    }
    string_at_start(after)
}

/// The names of the files that a source gets, and of those that it would get if its comments counted. `Memory` if an
/// allocation fails.
pub fn got_names(alloc: Global, text: &[u8]) -> Result<Vec<String>, Memory> {
    let mut names = Vec::new(alloc);
    for (at, byte) in text.iter().enumerate() {
        if *byte == b'G'
            && let Some(name) = name_at(text, at)
        {
            names.push(String::from_str(alloc, name)?)?;
        }
    }
    Ok(names)
}
