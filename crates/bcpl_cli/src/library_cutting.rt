//! Which definitions a program reaches, and the texts of the libraries with only these.

use crate::library_definitions::{AND, Definition, LET, definitions_of, up_to_definition};
use crate::library_words::first_word;
use bc_word::Memory;
use std::alloc::Global;

/// Marks the definitions with this name as reached.
fn reach(definitions: &mut [Definition<'_>], name: &[u8]) {
    for definition in definitions.iter_mut() {
        if definition.name == name {
            definition.is_reached = true;
        }
    }
}

/// The name of the routine that a line of a source declares, if it begins with LET or AND and a routine's heading.
fn routine_in(line: &[u8]) -> Option<&[u8]> {
    let line = line.trim_ascii_start();
    let heading = line
        .strip_prefix(LET.as_bytes())
        .or(line.strip_prefix(AND.as_bytes()))?;
    let (name, following) = first_word(heading)?;
    let is_next = heading.trim_ascii_start().starts_with(name);
    if is_next && following.trim_ascii_start().starts_with(b"(".as_slice()) {
        Some(name)
    } else {
        None
    }
}

/// Says of the definitions with this name whether a source replaces them.
fn set_replaced(definitions: &mut [Definition<'_>], name: &[u8], is_replaced: bool) {
    for definition in definitions.iter_mut() {
        if definition.name == name {
            definition.is_replaced = is_replaced;
        }
    }
}

/// Marks the definitions of which this source has a routine.
fn replace_routines(definitions: &mut [Definition<'_>], source: &[u8]) {
    for line in source.split(|byte| *byte == b'\n') {
        if let Some(name) = routine_in(line) {
            set_replaced(definitions, name, true);
        }
    }
}

/// Unmarks the definitions whose names this source gives a number: then its routines set other globals.
fn keep_numbered(definitions: &mut [Definition<'_>], source: &[u8]) {
    let mut rest = source;
    for _ in 0..source.len() {
        let Some((word, following)) = first_word(rest) else {
            return;
        };
        let next = following.trim_ascii_start();
        if next.starts_with(b":".as_slice()) && !next.starts_with(b":=".as_slice()) {
            set_replaced(definitions, word, false);
        }
        rest = following;
    }
}

/// Marks the definitions whose names are in this text as reached.
fn reach_all(definitions: &mut [Definition<'_>], text: &[u8]) {
    let mut rest = text;
    for _ in 0..text.len() {
        let Some((word, following)) = first_word(rest) else {
            return;
        };
        reach(definitions, word);
        rest = following;
    }
}

/// The text of a definition that is reached and wasn't marked so far. It counts as marked from then on.
fn next_text<'l>(definitions: &mut [Definition<'l>]) -> Option<&'l str> {
    for definition in definitions.iter_mut() {
        if definition.is_reached && !definition.is_replaced && !definition.is_marked {
            definition.is_marked = true;
            return Some(definition.text);
        }
    }
    None
}

/// Marks the definitions that reached ones reach.
fn reach_further(definitions: &mut [Definition<'_>]) {
    for _ in 0..definitions.len() {
        match next_text(definitions) {
            Some(text) => reach_all(definitions, text.as_bytes()),
            None => return,
        }
    }
}

/// The text of the library with this index, with only the definitions that are reached.
fn lean_text(
    alloc: Global,
    library: usize,
    text: &str,
    definitions: &[Definition<'_>],
) -> Result<String, Memory> {
    let (front, _) = up_to_definition(text);
    let mut lean = String::from_str(alloc, front)?;
    let mut is_open = false;
    for definition in definitions {
        if definition.library != library {
            continue;
        }
        is_open = is_open && !definition.is_first;
        if definition.is_reached && !definition.is_replaced {
            lean.push_str(if is_open { AND } else { LET })?;
            lean.push_str(definition.text)?;
            is_open = true;
        }
    }
    Ok(lean)
}

/// Marks the definitions that are reached from these sources, and those that the sources replace.
fn mark(definitions: &mut [Definition<'_>], sources: &[&[u8]]) {
    for source in sources {
        reach_all(definitions, source);
    }
    for source in sources {
        replace_routines(definitions, source);
    }
    for source in sources {
        keep_numbered(definitions, source);
    }
    reach_further(definitions);
}

/// The texts of these libraries with only the definitions that the sources can reach by name: those whose names are in
/// a source, in a comment or a string too, and those whose names are in a definition that is kept. What comes before
/// the first definition is kept. A routine of a source replaces the library's of the same name, unless a source declares
/// that name as a global with a number. `Memory` if an allocation fails.
pub fn lean_libraries(
    alloc: Global,
    libraries: &[&str],
    sources: &[&[u8]],
) -> Result<Vec<String>, Memory> {
    let mut definitions = definitions_of(alloc, libraries)?;
    mark(definitions.as_mut_slice(), sources);
    let mut lean = Vec::new(alloc);
    for (library, text) in libraries.iter().enumerate() {
        lean.push(lean_text(alloc, library, text, definitions.as_slice())?)?;
    }
    Ok(lean)
}
