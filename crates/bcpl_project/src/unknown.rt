//! The names that the files of a project use and nothing declares.

use crate::new_files::NewFile;
use crate::old_routines::old_routine;
use crate::programs::LIBRARY;
use crate::texts::as_text;
use bc_word::Memory;
use bcpl_advice::likely_meaning;
use bcpl_index::unknown_names;
use bcpl_messages::Named;
use bcpl_places::{LineCounter, Span};
use indexmap::IndexMap;
use std::alloc::Global;

/// A name that nothing declares.
#[derive(Drop)]
pub struct UnknownName {
    pub name: String,
    /// Its first place in each file, as FILE:LINE, separated by commas.
    pub places: String,
    /// What it may be.
    pub meaning: String,
}

/// The names of a project that nothing declares, in the order of their first places.
#[derive(Drop)]
pub struct UnknownNames {
    pub rows: Vec<UnknownName>,
    /// The row of each name.
    known: IndexMap<Vec<u8>, usize>,
}

/// A name that a main uses, and its place there as FILE:LINE.
#[derive(Clone, Copy)]
struct Use<'u> {
    main: usize,
    name: &'u [u8],
    place: &'u str,
}

/// What the library has for a name, as it is or in upper case, as the end of a sentence; empty if it has nothing.
fn likeness(
    alloc: Global,
    named: Named<'_, '_>,
    main: usize,
    name: &[u8],
) -> Result<String, Memory> {
    let meaning = likely_meaning(alloc, named.sources, main, name)?;
    if !meaning.is_empty() {
        return Ok(meaning);
    }
    let mut capital = Vec::new(alloc);
    for byte in name {
        capital.push(byte.to_ascii_uppercase())?;
    }
    likely_meaning(alloc, named.sources, main, capital.as_slice())
}

/// What a name may be: a routine of an old library, or what this one has.
fn meaning_of(
    alloc: Global,
    named: Named<'_, '_>,
    main: usize,
    name: &[u8],
) -> Result<String, Memory> {
    if let Some(old) = old_routine(name) {
        return Ok(String::from_str(alloc, old)?);
    }
    let meaning = likeness(alloc, named, main, name)?;
    let meaning = meaning.as_str().trim_start_matches("; ");
    Ok(if meaning.is_empty() {
        String::from_str(alloc, "not known here: look for its file, or write it")?
    } else {
        String::from_str(alloc, meaning)?
    })
}

/// Adds the place of a name to its row, or a new row.
fn add_use(
    alloc: Global,
    unknown: &mut UnknownNames,
    named: Named<'_, '_>,
    found: Use<'_>,
) -> Result<(), Memory> {
    if let Some(row) = unknown.known.get(found.name).copied() {
        if row < unknown.rows.len() {
            let places = &mut unknown.rows[row].places;
            places.push_str(", ")?;
            places.push_str(found.place)?;
        }
        return Ok(());
    }
    let row = unknown.rows.len();
    unknown
        .known
        .insert(Vec::from_slice(alloc, found.name)?, row)?;
    unknown.rows.push(UnknownName {
        name: as_text(alloc, found.name)?,
        places: String::from_str(alloc, found.place)?,
        meaning: meaning_of(alloc, named, found.main, found.name)?,
    })?;
    Ok(())
}

/// Adds the name at this place of a main.
fn add_span(
    alloc: Global,
    unknown: &mut UnknownNames,
    named: Named<'_, '_>,
    main: usize,
    span: Span,
) -> Result<(), Memory> {
    let Some(source) = named.sources.get(span.file) else {
        return Ok(());
    };
    let path = named.paths.get(span.file).copied().unwrap_or("");
    let mut counter = LineCounter::new();
    let number = counter.line_at(source.text, span.start).number;
    let place = format!(in alloc; "{path}:{number}")?;
    let found = Use {
        main,
        name: source.text.get(span.start..span.end).unwrap_or(&[]),
        place: place.as_str(),
    };
    add_use(alloc, unknown, named, found)
}

/// Adds the names of the main with this index among the sources.
fn add_main(
    alloc: Global,
    unknown: &mut UnknownNames,
    named: Named<'_, '_>,
    main: usize,
) -> Result<(), Memory> {
    for span in &unknown_names(alloc, named.sources, main)? {
        add_span(alloc, unknown, named, main, *span)?;
    }
    Ok(())
}

/// The names that the files use and nothing declares. Headers count where they are got.
///
/// # Errors
///
/// `Memory` if an allocation failed.
pub fn unknown_in(
    alloc: Global,
    files: &[NewFile],
    named: Named<'_, '_>,
) -> Result<UnknownNames, Memory> {
    let mut unknown = UnknownNames {
        rows: Vec::new(alloc),
        known: IndexMap::new(alloc),
    };
    for (index, file) in files.iter().enumerate() {
        if !file.is_header {
            let main = LIBRARY.saturating_add(index);
            add_main(alloc, &mut unknown, named, main)?;
        }
    }
    Ok(unknown)
}
