//! The program that is debugged.

use bc_core::Core;
use bc_lex::{Source, lex};
use bc_machine_defs::Image;
use bc_parse::parse;
use bc_scope::resolve;
use bc_word::Memory;
use bcpl_messages::Named;
use bcpl_wild::WildProgram;
use std::alloc::Global;

/// A program that was built, and is debugged.
#[derive(Clone, Copy)]
pub struct DebugProgram<'p, 's> {
    /// All sources, with the paths under which they are printed.
    pub named: Named<'p, 's>,
    /// The indexes of the mains, in the order of their segments.
    pub mains: &'p [usize],
    /// How many sources at the start are the library's.
    pub library: usize,
    /// The resolved mains.
    pub cores: &'p [Core],
    /// The linked image.
    pub image: &'p Image,
    /// Whether it is known that no run of it meets a wild cell. Only the page says so.
    pub is_tame: bool,
}

impl<'p, 's> DebugProgram<'p, 's> {
    /// The text of a source; empty if there is none with this index.
    pub fn text(&self, file: usize) -> &'s [u8] {
        match self.named.sources.get(file) {
            Some(source) => source.text,
            None => b"",
        }
    }

    /// The path of a source; empty if there is none with this index.
    pub fn path(&self, file: usize) -> &'p str {
        match self.named.paths.get(file) {
            Some(path) => path,
            None => "",
        }
    }

    /// Whether a section is a part of the library.
    pub fn is_library(&self, section: usize) -> bool {
        match self.mains.get(section) {
            Some(main) => *main < self.library,
            None => true,
        }
    }
}

/// A program as `bcpl_wild` takes it.
pub(crate) fn wild_program<'p, 's>(program: &DebugProgram<'p, 's>) -> WildProgram<'p, 's> {
    WildProgram {
        sources: program.named.sources,
        mains: program.mains,
        image: program.image,
    }
}

/// Resolves a main.
///
/// `Memory` if an allocation fails, or if the main has a fault, which a main that was built hasn't.
fn resolved(alloc: Global, sources: &[Source<'_>], main: usize) -> Result<Core, Memory> {
    if main >= sources.len() {
        return Err(Memory);
    }
    let Ok(tokens) = lex(alloc, sources, main) else {
        return Err(Memory);
    };
    let Ok(section) = parse(alloc, tokens.as_slice()) else {
        return Err(Memory);
    };
    resolve(alloc, &section).map_err(|_| Memory)
}

/// Resolves all these mains.
///
/// `Memory` if an allocation fails, or if a main has a fault, which a main that was built hasn't.
pub fn all_resolved(
    alloc: Global,
    sources: &[Source<'_>],
    mains: &[usize],
) -> Result<Vec<Core>, Memory> {
    let mut cores = Vec::new(alloc);
    for main in mains {
        cores.push(resolved(alloc, sources, *main)?)?;
    }
    Ok(cores)
}
