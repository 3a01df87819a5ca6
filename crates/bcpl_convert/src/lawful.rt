//! Which sources build as they are, with their headers. They come back unchanged.

ghost use Rattle.std.specs.Prelude.{◌≤◌, ◌<◌, length};
ghost use Rattle.bc_parse_tree.specs.View.{section_view};
ghost use Rattle.bc_parse_tree.specs.Size.{declarations_size};

use crate::job::name_of;
use bc_convert::{Lawful, is_library_header, library_name};
use bc_lex::{LexError, Source, lex};
use bc_library::LIBHDR;
use bc_library_ext::EXTHDR;
use bc_parse::{ParseError, Section, parse};
use bc_scope::{ScopeError, resolve};
use bc_word::Memory;
use bcpl_cli::contents;
use std::alloc::Global;
use std::fs;
use std::mem::forget;
use std::rt::Files;

/// The greatest number of headers of a source.
const MOST_HEADERS: usize = 200;

/// A header that a source gets.
#[derive(Drop)]
struct GotHeader {
    name: Vec<u8>,
    text: Vec<u8>,
    /// The file that it is, if that is converted too.
    file: Option<usize>,
    /// Whether it was found.
    is_found: bool,
}

/// The files that are converted: their paths and texts.
#[derive(Clone, Copy)]
pub struct Given<'g, 'p> {
    pub paths: &'g [&'p str],
    pub texts: &'g [Vec<u8>],
}

/// How far a source builds.
#[derive(Clone, Copy, PartialEq, Eq)]
enum Reach {
    /// It doesn't.
    No,
    /// It builds.
    Yes,
    /// Up to a name that isn't declared and isn't the library's in another case.
    Undeclared,
    /// The GET at this offset of this file names no source.
    Missing(usize, usize),
}

/// How far a section without syntax errors builds.
fn resolved(alloc: Global, section: &Section<'_>) -> Result<Reach, Memory>
    requires { declarations_size (section_view section.now) ≤ 60000 }
{
    match resolve(alloc, section) {
        Ok(core) => {
            // A drop of a large tree is expensive to prove.
            forget(core);
            Ok(Reach::Yes)
        }
        Err(ScopeError::Undeclared(name)) if library_name(name).is_none() => Ok(Reach::Undeclared),
        Err(ScopeError::Memory) => Err(Memory),
        Err(_) => Ok(Reach::No),
    }
}

/// How far the source with index 0 builds.
fn reach_of(alloc: Global, sources: &[Source<'_>]) -> Result<Reach, Memory>
    requires { 0 < length sources.now }
{
    let tokens = match lex(alloc, sources, 0) {
        Ok(tokens) => tokens,
        Err(LexError::GetMissing(file, offset)) => return Ok(Reach::Missing(file, offset)),
        Err(LexError::Memory) => return Err(Memory),
        Err(_) => return Ok(Reach::No),
    };
    match parse(alloc, tokens.as_slice()) {
        Ok(section) => {
            let found = resolved(alloc, &section);
            forget(section);
            found
        }
        Err(ParseError::Memory) => Err(Memory),
        Err(_) => Ok(Reach::No),
    }
}

/// The sources for a text: itself, the library's headers, and the headers found up to here.
fn sources_for<'s>(
    alloc: Global,
    text: &'s [u8],
    headers: &'s [GotHeader],
) -> Result<Vec<Source<'s>>, Memory> {
    let mut sources = Vec::new(alloc);
    sources.push(Source { name: b"", text })?;
    sources.push(Source {
        name: b"LIBHDR",
        text: LIBHDR.as_bytes(),
    })?;
    sources.push(Source {
        name: b"EXTHDR",
        text: EXTHDR.as_bytes(),
    })?;
    for header in headers {
        sources.push(Source {
            name: header.name.as_slice(),
            text: header.text.as_slice(),
        })?;
    }
    Ok(sources)
}

/// How far a text builds with the headers found up to here.
fn reach_with(alloc: Global, text: &[u8], headers: &[GotHeader]) -> Result<Reach, Memory> {
    let sources = sources_for(alloc, text, headers)?;
    if sources.is_empty() {
        return Ok(Reach::No);
    }
    reach_of(alloc, sources.as_slice())
}

/// The text of the file with this index among the sources.
fn text_of<'s>(text: &'s [u8], headers: &'s [GotHeader], file: usize) -> &'s [u8] {
    match file.checked_sub(3) {
        None => text,
        Some(number) => match headers.get(number) {
            Some(header) => header.text.as_slice(),
            None => text,
        },
    }
}

/// The name that the GET at an offset of a text has in quotes; empty if it has none.
fn got_name(text: &[u8], offset: usize) -> &[u8] {
    let rest = text.get(offset..).unwrap_or(&[]);
    let mut parts = rest.split(|byte| *byte == b'"');
    let _word = parts.next();
    parts.next().unwrap_or(&[])
}

/// The text of the plain file with this name in the folder of another one, if there is one.
fn file_beside<F: Files>(
    rt: &F,
    alloc: Global,
    path: &str,
    name: &[u8],
) -> Result<Option<Vec<u8>>, Memory> {
    if name.is_empty() || name.contains(&b'/') {
        return Ok(None);
    }
    let Ok(name) = str::from_utf8(name) else {
        return Ok(None);
    };
    let count = path.len().saturating_sub(name_of(path).len());
    let folder = path.get(..count).unwrap_or("");
    let beside = format!(in alloc; "{folder}{name}")?;
    match fs::metadata(rt, beside.as_str()) {
        Ok(found) if found.is_file() => {}
        _ => return Ok(None),
    }
    match contents(rt, alloc, beside.as_str()) {
        Ok(text) => Ok(Some(text)),
        Err(_) => Ok(None),
    }
}

/// The header with this name: a file that is converted too, else a file in the folder of the source, else an empty text.
fn header_of<F: Files>(
    rt: &F,
    alloc: Global,
    given: Given<'_, '_>,
    path: &str,
    name: &[u8],
) -> Result<GotHeader, Memory> {
    let mut header = GotHeader {
        name: Vec::from_slice(alloc, name)?,
        text: Vec::new(alloc),
        file: None,
        is_found: false,
    };
    for (index, other) in given.paths.iter().enumerate() {
        if name_of(other).as_bytes() == name
            && let Some(text) = given.texts.get(index)
        {
            header.text = Vec::from_slice(alloc, text.as_slice())?;
            header.file = Some(index);
            header.is_found = true;
            return Ok(header);
        }
    }
    if let Some(text) = file_beside(rt, alloc, path, name)? {
        header.text = text;
        header.is_found = true;
    }
    Ok(header)
}

/// Whether a text has carriage returns instead of line feeds, and a comment, which then has no end here.
fn has_endless_comment(text: &[u8]) -> bool {
    text.contains(&b'\r')
        && !text.contains(&b'\n')
        && text
            .windows(2)
            .any(|pair| matches!(pair, [b'/', b'/'] | [b'|', b'|']))
}

/// Whether the source with this path builds, and its headers.
fn lawful_source<F: Files>(
    rt: &F,
    alloc: Global,
    given: Given<'_, '_>,
    path: &str,
    text: &[u8],
) -> Result<(Lawful, Vec<GotHeader>), Memory> {
    let mut headers: Vec<GotHeader> = Vec::new(alloc);
    if has_endless_comment(text) {
        return Ok((Lawful::No, headers));
    }
    for _ in 0..MOST_HEADERS {
        let is_complete = headers.iter().all(|header| header.is_found);
        match reach_with(alloc, text, headers.as_slice())? {
            Reach::Missing(file, offset) => {
                let name = got_name(text_of(text, headers.as_slice(), file), offset);
                if name.is_empty() || is_library_header(name) {
                    return Ok((Lawful::No, headers));
                }
                let header = header_of(rt, alloc, given, path, name)?;
                headers.push(header)?;
            }
            Reach::Yes if is_complete => return Ok((Lawful::Whole, headers)),
            Reach::Yes => return Ok((Lawful::Unseen, headers)),
            Reach::Undeclared if !is_complete => return Ok((Lawful::Unseen, headers)),
            Reach::Undeclared | Reach::No => return Ok((Lawful::No, headers)),
        }
    }
    Ok((Lawful::No, headers))
}

/// Marks the files among the headers of a source that builds.
fn mark_headers(lawful: &mut [Lawful], headers: &[GotHeader]) {
    for header in headers {
        if let Some(file) = header.file
            && file < lawful.len()
        {
            lawful[file] = Lawful::Whole;
        }
    }
}

/// For each file whether it builds as it is. `may_exchange` says whether the library's header was chosen. It may also be
/// exchanged if one of the files doesn't build, since all files of a program get the same header.
///
/// # Errors
///
/// `Memory` if an allocation failed.
pub fn lawful_files<F: Files>(
    rt: &F,
    alloc: Global,
    given: Given<'_, '_>,
    may_exchange: bool,
) -> Result<Vec<Lawful>, Memory> {
    let mut lawful = Vec::new(alloc);
    let mut found = Vec::new(alloc);
    for (path, text) in given.paths.iter().zip(given.texts) {
        let (is_lawful, headers) = lawful_source(rt, alloc, given, path, text.as_slice())?;
        lawful.push(is_lawful)?;
        if is_lawful == Lawful::Whole {
            found.push(headers)?;
        }
    }
    for headers in &found {
        mark_headers(lawful.as_mut_slice(), headers.as_slice());
    }
    let is_mixed = lawful.iter().any(|one| *one == Lawful::No);
    for one in &mut lawful {
        if (is_mixed || may_exchange) && *one == Lawful::Whole {
            *one = Lawful::Header;
        }
    }
    Ok(lawful)
}
