//! The definitions of a library: the parts of its text that begin with LET or AND at the start of a line.

use crate::library_words::first_word;
use bc_word::Memory;
use std::alloc::Global;

/// What begins the first definition of a group.
pub const LET: &str = "LET ";

/// What begins the other definitions of a group.
pub const AND: &str = "AND ";

/// A definition of a library.
#[derive(Clone, Copy)]
pub struct Definition<'l> {
    /// The index of the library.
    pub library: usize,
    /// The name that is defined.
    pub name: &'l [u8],
    /// Whether it is the first of its group.
    pub is_first: bool,
    /// The text after LET or AND, up to the next definition.
    pub text: &'l str,
    /// Whether the program can reach it.
    pub is_reached: bool,
    /// Whether what it reaches was marked.
    pub is_marked: bool,
    /// Whether a source has a routine of this name, and no global of its own with this name.
    pub is_replaced: bool,
}

/// The text up to its first definition. The second part begins with that definition, or is empty.
pub fn up_to_definition(text: &str) -> (&str, &str) {
    let mut at: usize = 0;
    for line in text.split_inclusive('\n') {
        if line.starts_with(LET) || line.starts_with(AND) {
            break;
        }
        at = at.saturating_add(line.len());
    }
    text.split_at_checked(at).unwrap_or((text, ""))
}

/// The definition with which a text begins, and the remaining text; `None` if there is none.
fn first_definition(library: usize, text: &str) -> Option<(Definition<'_>, &str)> {
    let is_first = text.starts_with(LET);
    let body = text.strip_prefix(LET).or(text.strip_prefix(AND))?;
    let (text, rest) = up_to_definition(body);
    let (name, _) = first_word(text.as_bytes())?;
    let definition = Definition {
        library,
        name,
        is_first,
        text,
        is_reached: false,
        is_marked: false,
        is_replaced: false,
    };
    Some((definition, rest))
}

/// Adds the definitions of the library with this index and text. `Memory` if an allocation fails.
pub fn add_definitions<'l>(
    definitions: &mut Vec<Definition<'l>>,
    library: usize,
    text: &'l str,
) -> Result<(), Memory> {
    let (_, mut rest) = up_to_definition(text);
    for _ in 0..text.len() {
        let Some((definition, following)) = first_definition(library, rest) else {
            return Ok(());
        };
        definitions.push(definition)?;
        rest = following;
    }
    Ok(())
}

/// The definitions of these libraries. `Memory` if an allocation fails.
pub fn definitions_of<'l>(
    alloc: Global,
    libraries: &[&'l str],
) -> Result<Vec<Definition<'l>>, Memory> {
    let mut definitions = Vec::new(alloc);
    for (library, text) in libraries.iter().enumerate() {
        add_definitions(&mut definitions, library, text)?;
    }
    Ok(definitions)
}
