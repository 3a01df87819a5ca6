//! Which file each GET of a project means.

use crate::files::OldFile;
use crate::texts::{Tokens, as_text, inside};
use bc_convert::is_library_header;
use bc_word::Memory;
use std::alloc::Global;

/// A name after GET that isn't exactly the name of the file that it means.
#[derive(Drop)]
pub struct Alias {
    pub name: String,
    /// The index of the file.
    pub file: usize,
}

/// A name after GET that no file has.
#[derive(Drop)]
pub struct Missing {
    pub name: String,
    /// The index of the file with the GET.
    pub file: usize,
}

/// The headers of a project.
#[derive(Drop)]
pub struct Headers {
    pub aliases: Vec<Alias>,
    pub missing: Vec<Missing>,
    /// For each file whether another one gets it, or it has the name of the library's header.
    pub is_header: Vec<bool>,
}

/// The part of a name after the last sign of a path, as `DF0:BCPL/HDR` has them.
fn last_part(name: &[u8]) -> &[u8] {
    match name.iter().rposition(|byte| b"/\\:]".contains(byte)) {
        Some(at) => name.get(at..).unwrap_or(&[]).get(1..).unwrap_or(&[]),
        None => name,
    }
}

/// The part of a name before the first dot.
fn stem(name: &[u8]) -> &[u8] {
    match name.iter().position(|byte| *byte == b'.') {
        Some(at) if at > 0 => name.get(..at).unwrap_or(name),
        _ => name,
    }
}

/// The part of a name after the last dot.
fn ending(name: &[u8]) -> &[u8] {
    match name.iter().rposition(|byte| *byte == b'.') {
        Some(at) => name.get(at..).unwrap_or(&[]).get(1..).unwrap_or(&[]),
        None => name,
    }
}

/// How far the name of a file may differ from the one after GET.
#[derive(Clone, Copy)]
enum Likeness {
    Exact,
    /// In case.
    Caseless,
    /// In the path before it, and in the ending.
    Stem,
    /// In what comes before the last dot of the one after GET.
    Ending,
}

/// Whether a file with this name is so like the name after GET.
fn is_like(likeness: Likeness, file: &[u8], name: &[u8]) -> bool {
    let last = last_part(name);
    match likeness {
        Likeness::Exact => file == name,
        Likeness::Caseless => file.eq_ignore_ascii_case(last),
        Likeness::Stem => stem(file).eq_ignore_ascii_case(stem(last)),
        Likeness::Ending => stem(file).eq_ignore_ascii_case(ending(last)),
    }
}

/// The index of the file that a name after GET means, which is not the one with the GET itself.
fn file_meant(files: &[OldFile], from: usize, name: &[u8]) -> Option<usize> {
    for likeness in [
        Likeness::Exact,
        Likeness::Caseless,
        Likeness::Stem,
        Likeness::Ending,
    ] {
        for (index, file) in files.iter().enumerate() {
            if index != from && is_like(likeness, file.name.as_str().as_bytes(), name) {
                return Some(index);
            }
        }
    }
    None
}

/// Whether a name is among the aliases.
fn has_alias(aliases: &[Alias], name: &str) -> bool {
    for alias in aliases {
        if alias.name.as_str() == name {
            return true;
        }
    }
    false
}

/// Adds what the name after a GET of this file means.
fn add_get(
    alloc: Global,
    headers: &mut Headers,
    files: &[OldFile],
    from: usize,
    name: &[u8],
) -> Result<(), Memory> {
    if is_library_header(name) {
        return Ok(());
    }
    let shown = as_text(alloc, name)?;
    let Some(file) = file_meant(files, from, name) else {
        headers.missing.push(Missing {
            name: shown,
            file: from,
        })?;
        return Ok(());
    };
    if file < headers.is_header.len() {
        headers.is_header[file] = true;
    }
    let is_exact = match files.get(file) {
        Some(found) => found.name.as_str() == shown.as_str(),
        None => true,
    };
    if !is_exact && !has_alias(headers.aliases.as_slice(), shown.as_str()) {
        headers.aliases.push(Alias { name: shown, file })?;
    }
    Ok(())
}

/// Adds what the GETs of the file with this index mean.
fn add_gets(
    alloc: Global,
    headers: &mut Headers,
    files: &[OldFile],
    from: usize,
    text: &[u8],
) -> Result<(), Memory> {
    let tokens = Tokens::of(alloc, text)?;
    for index in 1..tokens.count() {
        if tokens.is_word(index - 1, b"GET") && tokens.begins_with(index, b"\"'") {
            add_get(alloc, headers, files, from, inside(tokens.bytes(index)))?;
        }
    }
    Ok(())
}

/// Finds the headers of a project, whose files have these texts as they are compiled.
///
/// # Errors
///
/// `Memory` if an allocation failed.
pub fn headers_of(alloc: Global, files: &[OldFile], texts: &[Vec<u8>]) -> Result<Headers, Memory> {
    let mut headers = Headers {
        aliases: Vec::new(alloc),
        missing: Vec::new(alloc),
        is_header: Vec::new(alloc),
    };
    for file in files {
        let is_header = is_library_header(file.name.as_str().as_bytes());
        headers.is_header.push(is_header)?;
    }
    for (index, text) in texts.iter().enumerate() {
        add_gets(alloc, &mut headers, files, index, text.as_slice())?;
    }
    Ok(headers)
}
