//! The sources of a program: the library's, and those in the files that the arguments name.

ghost use Rattle.std.specs.Prelude.{◌<◌, All, IfOk, length, vec_len};

use crate::diagnostics::Program;
use crate::growing_list::Growing;
use bc_lex::Source;
use bc_library_ext::{EXTHDR, EXTLIB};
use bc_run::{BLIB, LIBHDR};
use bc_word::Memory;
use bcpl_cli::{Library, LinkedLibrary, LoadedSource, Sources, lean_libraries};
use bcpl_messages::Named;
use std::alloc::Global;

/// The number of sources before those of the command line: LIBHDR and BLIB, of which BLIB is a main.
const BASIC_SOURCES: usize = 2;

/// That number with the further library: EXTHDR and EXTLIB as well, of which EXTLIB is a main.
const FURTHER_SOURCES: usize = 4;

/// The number of sources in a library.
fn library_sources(library: Library) -> usize {
    match library {
        Library::Basic => BASIC_SOURCES,
        Library::Further => FURTHER_SOURCES,
    }
}

/// How the sources are ordered: those of the library, those of `--get`, the files, and those that were included.
#[derive(Clone, Copy)]
struct SourceOrder {
    library: usize,
    /// Whether the library is linked.
    is_linked: bool,
    gets: usize,
    files: usize,
}

impl SourceOrder {
    /// The index of the last file.
    fn last(self) -> usize {
        let before = self.library.saturating_add(self.gets);
        before.saturating_add(self.files).saturating_sub(1)
    }

    /// Whether the source with this index is a main: one of the library that is no header, or one of the files.
    fn is_main(self, source: usize) -> bool {
        if source < self.library {
            self.is_linked && source % 2 == 1
        } else {
            let number = source - self.library;
            number >= self.gets && number - self.gets < self.files
        }
    }
}

/// The indexes of the mains among `sources` sources.
fn mains_of(alloc: Global, order: SourceOrder, sources: usize) -> Result<Vec<usize>, Memory>
    ensures { IfOk result (λ mains. All (λ main. main < sources) mains.items) }
{
    let mut mains = Vec::new(alloc);
    for source in 1..sources {
        if order.is_main(source) {
            mains.push(source)?;
        }
    }
    Ok(mains)
}

/// The name of the library source with this index.
fn library_name<'s>(index: usize) -> &'s str {
    match index {
        0 => "LIBHDR",
        1 => "BLIB",
        2 => "EXTHDR",
        _ => "EXTLIB",
    }
}

/// The text of the library source with this index. `lean` has the texts of BLIB and EXTLIB if these are cut.
fn library_text<'s>(index: usize, lean: &'s [String]) -> &'s str {
    let text = match index {
        0 => LIBHDR,
        1 => BLIB,
        2 => EXTHDR,
        _ => EXTLIB,
    };
    match lean.get(index / 2) {
        Some(lean) if index % 2 == 1 => lean.as_str(),
        _ => text,
    }
}

/// The library source with this index, cut if `lean` has its text.
fn library_source<'s>(index: usize, lean: &'s [String]) -> Source<'s> {
    Source {
        name: library_name(index).as_bytes(),
        text: library_text(index, lean).as_bytes(),
    }
}

/// The texts of BLIB and EXTLIB with only what these files reach by name, if that is ordered; otherwise nothing.
pub fn lean_texts(
    alloc: Global,
    given: &Sources<'_>,
    files: &[LoadedSource],
) -> Result<Vec<String>, Memory> {
    if given.linked != LinkedLibrary::Lean {
        return Ok(Vec::new(alloc));
    }
    let mut texts = Growing::new(alloc);
    for file in files {
        texts.add(file.text.as_slice());
    }
    let texts = texts.whole()?;
    match given.library {
        Library::Basic => lean_libraries(alloc, &[BLIB], texts.as_slice()),
        Library::Further => lean_libraries(alloc, &[BLIB, EXTLIB], texts.as_slice()),
    }
}

/// All sources in the compiler's order: those of the library, cut if `lean` has their texts, then these.
fn given_to_compiler<'s>(
    alloc: Global,
    library: usize,
    files: &'s [LoadedSource],
    lean: &'s [String],
) -> Result<Vec<Source<'s>>, Memory> {
    let mut sources = Growing::new(alloc);
    for index in 0..library {
        sources.add(library_source(index, lean));
    }
    for file in files {
        sources.add(Source {
            name: file.name.as_bytes(),
            text: file.text.as_slice(),
        });
    }
    sources.whole()
}

/// The paths to print for the sources, in the same order.
fn paths_of<'s>(
    alloc: Global,
    library: usize,
    files: &'s [LoadedSource],
) -> Result<Vec<&'s str>, Memory> {
    let mut paths = Growing::new(alloc);
    for index in 0..library {
        paths.add(library_name(index));
    }
    for file in files {
        paths.add(file.shown.as_str());
    }
    paths.whole()
}

/// The sources of a program in the compiler's order, and which of them are mains.
pub struct Gathered<'a, 's> {
    sources: Vec<Source<'s>>,
    /// The path of each source.
    paths: Vec<&'a str>,
    /// The indexes of the mains.
    mains: Vec<usize>,
    /// The number of sources that belong to the library; they come first.
    pub library: usize,
    /// Whether messages are JSON objects.
    is_json: bool,
    /// Whether all errors of a file are explained.
    explains_all: bool,
    /// The index of the last file of the command line.
    pub last: usize,
    ghost within: { All (λ main. main < vec_len sources) mains.items },
}

impl Drop for Gathered<'_, '_> {
    fn drop(self) {
        let Gathered {
            sources: _,
            paths: _,
            mains: _,
            library: _,
            is_json: _,
            explains_all: _,
            last: _,
        } = self;
    }
}

impl<'s> Gathered<'s, 's> {
    /// The program of the library and these files, which the arguments name or which were included.
    pub fn new(
        alloc: Global,
        given: &Sources<'_>,
        files: &'s [LoadedSource],
    ) -> Result<Gathered<'s, 's>, Memory> {
        Gathered::with_lean_library(alloc, given, files, &[])
    }

    /// Like `new`, with these texts of BLIB and EXTLIB, unless `lean` has none.
    pub fn with_lean_library(
        alloc: Global,
        given: &Sources<'_>,
        files: &'s [LoadedSource],
        lean: &'s [String],
    ) -> Result<Gathered<'s, 's>, Memory> {
        let library = library_sources(given.library);
        let sources = given_to_compiler(alloc, library, files, lean)?;
        let paths = paths_of(alloc, library, files)?;
        let order = SourceOrder {
            library,
            is_linked: given.linked != LinkedLibrary::Nothing,
            gets: given.gets.len(),
            files: given.files.len(),
        };
        let mains = mains_of(alloc, order, sources.len())?;
        Ok(Gathered {
            sources,
            paths,
            mains,
            library,
            is_json: given.is_json,
            explains_all: given.explains_all,
            last: order.last(),
        })
    }
}

impl<'a, 's> Gathered<'a, 's> {
    /// The sources with their paths, and the mains.
    pub fn program(&self) -> Program<'_, 's>
        ensures { All (λ main. main < length result.named.sources.now) result.mains.now }
    {
        Program {
            named: Named {
                sources: self.sources.as_slice(),
                paths: self.paths.as_slice(),
            },
            mains: self.mains.as_slice(),
            is_json: self.is_json,
            explains_all: self.explains_all,
        }
    }
}
