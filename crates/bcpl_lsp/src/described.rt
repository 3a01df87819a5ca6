//! What is said of a name: in a hover, and beside a proposal.

use crate::document::{Document, File};
use crate::library_routines::{LibraryRoutine, library_routine};
use crate::names::{Declared, Sort};
use crate::positions::line_of;
use bc_word::Memory;
use std::alloc::Global;

/// The greatest length of a declaration that is shown, in bytes.
const LONGEST: usize = 200;

/// What a name of this sort is.
pub fn noun(sort: Sort) -> &'static str {
    match sort {
        Sort::Constant => "constant",
        Sort::Static => "static",
        Sort::Global => "global",
        Sort::Variable => "variable",
        Sort::Counter => "FOR variable",
        Sort::Vector => "vector",
        Sort::Parameter => "parameter",
        Sort::Function => "function",
        Sort::Routine => "routine",
        Sort::Label => "label",
    }
}

/// Bytes as text; empty if they are no UTF-8.
pub fn shown(bytes: &[u8]) -> &str {
    match std::str::from_utf8(bytes) {
        Ok(text) => text,
        Err(_) => "",
    }
}

/// The name of a declaration.
pub fn name_of(document: &Document, declared: Declared) -> &str {
    match document.file(declared.file) {
        Some(file) => shown(file.stretch(declared.start, declared.end)),
        None => "",
    }
}

/// The library's routine that a declaration declares, if it is one.
pub fn library_of(document: &Document, declared: Declared) -> Option<LibraryRoutine> {
    if declared.sort != Sort::Global {
        return None;
    }
    let number = u16::try_from(declared.number?).ok()?;
    let routine = library_routine(number)?;
    if routine.name == name_of(document, declared) {
        Some(routine)
    } else {
        None
    }
}

/// The line on which a declaration begins, from there on, up to a limit.
fn line_from(file: &File, declared: Declared) -> &str {
    let line = line_of(file.lines.starts.as_slice(), declared.start);
    let start = file
        .lines
        .starts
        .get(line)
        .copied()
        .unwrap_or(declared.start);
    let next = file.lines.starts.get(line.saturating_add(1)).copied();
    let end = next.unwrap_or(file.text.len());
    shown(file.stretch(start, end.min(start.saturating_add(LONGEST)))).trim()
}

/// Adds where the cells of a declaration are.
fn add_cells(text: &mut String, declared: Declared) -> Result<(), Memory> {
    let Some(number) = declared.number else {
        return Ok(());
    };
    match declared.sort {
        Sort::Global => writeln!(text, "Global {number} of the global vector.")?,
        Sort::Vector => {
            let last = declared.cells.saturating_sub(2);
            let first = number.saturating_add(1);
            writeln!(
                text,
                "Offset {number} of the frame; cells 0 to {last} follow from offset {first} on."
            )?;
        }
        _ => writeln!(text, "Offset {number} of the frame.")?,
    }
    Ok(())
}

/// Adds which routine a declaration is in.
fn add_routine(text: &mut String, document: &Document, declared: Declared) -> Result<(), Memory> {
    if let Some(routine) = document.names.get(declared.routine) {
        let name = name_of(document, routine);
        write!(text, " of `{name}`")?;
    }
    Ok(())
}

/// Adds where a declaration is.
fn add_place(text: &mut String, file: &File, declared: Declared) -> Result<(), Memory> {
    let line = line_of(file.lines.starts.as_slice(), declared.start).saturating_add(1);
    if declared.file == 0 {
        writeln!(text, ", declared on line {line}.")?;
        return Ok(());
    }
    let name = file.name.as_str();
    if file.path.is_empty() {
        writeln!(text, ", declared by {name}.")?;
    } else {
        writeln!(text, ", declared on line {line} of {name}.")?;
    }
    Ok(())
}

/// The call of a library's routine, as in `WRITES(S)`. Returns `Memory` if an allocation fails.
pub fn call_of(alloc: Global, routine: &LibraryRoutine) -> Result<String, Memory> {
    let name = routine.name;
    let parameters = routine.parameters;
    Ok(format!(in alloc; "{name}({parameters})")?)
}

/// Two sentences on a library's routine. Returns `Memory` if an allocation fails.
pub fn library_text(alloc: Global, routine: &LibraryRoutine) -> Result<String, Memory> {
    let does = routine.does;
    let mut text = format!(in alloc; "{does}.")?;
    if !routine.gives.is_empty() {
        let gives = routine.gives;
        write!(text, " Its value: {gives}.")?;
    }
    Ok(text)
}

/// Adds what a library's routine does.
fn add_library(text: &mut String, alloc: Global, routine: &LibraryRoutine) -> Result<(), Memory> {
    let call = call_of(alloc, routine)?;
    let said = library_text(alloc, routine)?;
    let (call, said) = (call.as_str(), said.as_str());
    write!(text, "```bcpl\n{call}\n```\n{said}\n\n")?;
    Ok(())
}

/// Adds which global a routine sets.
fn add_global(text: &mut String, document: &Document, index: usize) -> Result<(), Memory> {
    if let Some(global) = document.names.get(document.names.global_of(index))
        && let Some(number) = global.number
    {
        writeln!(text, "Sets global {number}.")?;
    }
    Ok(())
}

/// Adds the declaration itself, or what a library's routine does, and what the name is.
fn add_heading(
    text: &mut String,
    alloc: Global,
    document: &Document,
    file: &File,
    declared: Declared,
) -> Result<(), Memory> {
    match library_of(document, declared) {
        Some(routine) => add_library(text, alloc, &routine)?,
        None => {
            let line = line_from(file, declared);
            write!(text, "```bcpl\n{line}\n```\n")?;
        }
    }
    let name = name_of(document, declared);
    let noun = noun(declared.sort);
    write!(text, "`{name}`: {noun}")?;
    Ok(())
}

/// Adds the routine, the line and the cells of a declaration.
fn add_position(
    text: &mut String,
    document: &Document,
    file: &File,
    declared: Declared,
) -> Result<(), Memory> {
    add_routine(text, document, declared)?;
    add_place(text, file, declared)?;
    add_cells(text, declared)
}

/// What is said of the declaration with this index, in Markdown. Returns `Memory` if an allocation fails.
pub fn said_of(
    alloc: Global,
    document: &Document,
    index: usize,
    declared: Declared,
) -> Result<String, Memory> {
    let Some(file) = document.file(declared.file) else {
        return Ok(String::new(alloc));
    };
    let mut text = String::new(alloc);
    add_heading(&mut text, alloc, document, file, declared)?;
    add_position(&mut text, document, file, declared)?;
    add_global(&mut text, document, index)?;
    Ok(text)
}
