//! Which files make a program, and whether they build.

ghost use Rattle.std.specs.Prelude.{◌<◌, All, IfOk};

use crate::headers::Alias;
use crate::new_files::NewFile;
use crate::texts::Tokens;
use bc_build::{BuildError, build};
use bc_lex::{LexError, Source};
use bc_library::{BLIB, LIBHDR};
use bc_library_ext::{EXTHDR, EXTLIB};
use bc_word::Memory;
use bcpl_advice::advised;
use bcpl_cli::{BuildLine, lean_libraries, without_extension};
use bcpl_messages::{Named, message_lines, message_of};
use indexmap::IndexMap;
use std::alloc::Global;

/// The number of sources of the library.
pub const LIBRARY: usize = 4;

/// A program of the project.
#[derive(Drop)]
pub struct ProjectProgram {
    /// The name of its text, without an ending.
    pub name: String,
    /// The index of the file with START, if there is one.
    pub start: Option<usize>,
    /// Whether it is built with the library cut to what it reaches, and so with routines of its own in place of the library's.
    pub is_lean: bool,
    /// Whether it is built without the files that have no START.
    pub is_alone: bool,
}

/// The programs of a project: one for each file with START, or one for all files if none has it.
///
/// # Errors
///
/// `Memory` if an allocation failed.
pub fn programs_of(alloc: Global, files: &[NewFile]) -> Result<Vec<ProjectProgram>, Memory> {
    let mut programs = Vec::new(alloc);
    for (index, file) in files.iter().enumerate() {
        if file.has_start && !file.is_header {
            programs.push(ProjectProgram {
                name: String::from_str(alloc, without_extension(file.name()))?,
                start: Some(index),
                is_lean: false,
                is_alone: false,
            })?;
        }
    }
    if programs.is_empty() {
        programs.push(ProjectProgram {
            name: String::from_str(alloc, "program")?,
            start: None,
            is_lean: false,
            is_alone: false,
        })?;
    }
    Ok(programs)
}

/// Whether the file with this index is a main of a program: it is the one with START, or has none and is no header, unless the
/// program is built by itself.
pub fn is_part(program: &ProjectProgram, files: &[NewFile], index: usize) -> bool {
    match files.get(index) {
        Some(file) if file.is_header => false,
        Some(file) if file.has_start => program.start == Some(index),
        Some(_) => !program.is_alone,
        None => false,
    }
}

/// The sources of all files as the compiler gets them, after those of the library.
///
/// # Errors
///
/// `Memory` if an allocation failed.
pub fn sources_of<'s>(
    alloc: Global,
    files: &'s [NewFile],
    aliases: &'s [Alias],
) -> Result<Vec<Source<'s>>, Memory> {
    let mut sources = Vec::new(alloc);
    for (name, text) in [
        ("LIBHDR", LIBHDR),
        ("BLIB", BLIB),
        ("EXTHDR", EXTHDR),
        ("EXTLIB", EXTLIB),
    ] {
        sources.push(Source {
            name: name.as_bytes(),
            text: text.as_bytes(),
        })?;
    }
    for file in files {
        sources.push(Source {
            name: file.name().as_bytes(),
            text: file.text(),
        })?;
    }
    for alias in aliases {
        if let Some(file) = files.get(alias.file) {
            sources.push(Source {
                name: alias.name.as_str().as_bytes(),
                text: file.text(),
            })?;
        }
    }
    Ok(sources)
}

/// The names of these sources.
///
/// # Errors
///
/// `Memory` if an allocation failed.
pub fn paths_of<'s>(
    alloc: Global,
    files: &'s [NewFile],
    aliases: &[Alias],
) -> Result<Vec<&'s str>, Memory> {
    let mut paths = Vec::new(alloc);
    for name in ["LIBHDR", "BLIB", "EXTHDR", "EXTLIB"] {
        paths.push(name)?;
    }
    for file in files {
        paths.push(file.name())?;
    }
    for alias in aliases {
        if let Some(file) = files.get(alias.file) {
            paths.push(file.name())?;
        }
    }
    Ok(paths)
}

/// The indexes below `count` that are chosen.
fn mains_of(alloc: Global, count: usize, chosen: &[bool]) -> Result<Vec<usize>, Memory>
    ensures { IfOk result (λ mains. All (λ main. main < count) mains.items) }
{
    let mut mains = Vec::new(alloc);
    for source in 0..count {
        if chosen.get(source).copied().unwrap_or(false) {
            mains.push(source)?;
        }
    }
    Ok(mains)
}

/// Why something isn't built.
#[derive(Drop)]
pub struct Refusal {
    /// The first line, and what the program says about it.
    pub lines: String,
    /// Whether the refusal is of a name that isn't declared, or of a header that isn't there: the report lists these.
    pub is_listed: bool,
    /// Whether it is the linker's.
    pub is_of_linking: bool,
}

/// What is said of a refusal.
fn refusal_of(
    alloc: Global,
    named: Named<'_, '_>,
    mains: &[usize],
    fault: &BuildError,
) -> Result<Refusal, Memory> {
    let line = BuildLine(fault);
    let mut lines = format!(in alloc; "bcpl: {line}\n")?;
    if let Some(message) = message_of(alloc, named.sources, mains, fault)? {
        let message = advised(alloc, named.sources, fault, message)?;
        let text = message_lines(alloc, named, &message)?;
        lines.push_str(text.as_str())?;
    }
    Ok(Refusal {
        lines,
        is_listed: matches!(
            fault,
            BuildError::Scope(_, bc_build::ScopeFault::Undeclared(_))
                | BuildError::Lex(_, LexError::GetMissing(_, _))
        ),
        is_of_linking: matches!(fault, BuildError::Link(_)),
    })
}

/// Builds these sources, of which the chosen ones are mains. `None` if they build.
///
/// # Errors
///
/// `Memory` if an allocation failed.
pub fn refusal_for(
    alloc: Global,
    named: Named<'_, '_>,
    chosen: &[bool],
) -> Result<Option<Refusal>, Memory> {
    let mains = mains_of(alloc, named.sources.len(), chosen)?;
    match build(alloc, named.sources, mains.as_slice()) {
        Ok(_) => Ok(None),
        Err(BuildError::Memory) => Err(Memory),
        Err(fault) => Ok(Some(refusal_of(alloc, named, mains.as_slice(), &fault)?)),
    }
}

/// The texts of the libraries, cut to what the files of a program reach.
fn lean_texts(
    alloc: Global,
    program: &ProjectProgram,
    files: &[NewFile],
    is_further: bool,
) -> Result<Vec<String>, Memory> {
    let mut texts = Vec::new(alloc);
    for (index, file) in files.iter().enumerate() {
        if file.is_header || is_part(program, files, index) {
            texts.push(file.text())?;
        }
    }
    if is_further {
        lean_libraries(alloc, &[BLIB, EXTLIB], texts.as_slice())
    } else {
        lean_libraries(alloc, &[BLIB], texts.as_slice())
    }
}

/// A source that owns its name and its text.
#[derive(Drop)]
struct OwnSource {
    name: Vec<u8>,
    text: Vec<u8>,
}

/// A copy of these bytes.
fn copy_of(alloc: Global, bytes: &[u8]) -> Result<Vec<u8>, Memory> {
    let mut copy = Vec::new(alloc);
    copy.extend_from_slice(bytes)?;
    Ok(copy)
}

/// Copies of these sources, with other texts for the libraries. They are copied since the borrow checker doesn't cover a list
/// of sources that borrow at several lifetimes.
fn with_libraries(
    alloc: Global,
    sources: &[Source<'_>],
    libraries: &[String],
) -> Result<Vec<OwnSource>, Memory> {
    let mut copies = Vec::new(alloc);
    for (index, source) in sources.iter().enumerate() {
        let library = match index {
            1 => libraries.first(),
            3 => libraries.get(1),
            _ => None,
        };
        let text = match library {
            Some(library) => copy_of(alloc, library.as_str().as_bytes())?,
            None => copy_of(alloc, source.text)?,
        };
        let name = copy_of(alloc, source.name)?;
        copies.push(OwnSource { name, text })?;
    }
    Ok(copies)
}

/// These sources, as the compiler gets them.
fn borrowed(alloc: Global, copies: &[OwnSource]) -> Result<Vec<Source<'_>>, Memory> {
    let mut sources = Vec::new(alloc);
    for copy in copies {
        sources.push(Source {
            name: copy.name.as_slice(),
            text: copy.text.as_slice(),
        })?;
    }
    Ok(sources)
}

/// Whether a program builds if the library is cut to what it reaches. These are its parts.
fn builds_lean(
    alloc: Global,
    program: &ProjectProgram,
    files: &[NewFile],
    sources: &[Source<'_>],
    parts: &[bool],
) -> Result<bool, Memory> {
    let further = parts.get(LIBRARY - 1).copied().unwrap_or(false);
    let libraries = lean_texts(alloc, program, files, further)?;
    let copies = with_libraries(alloc, sources, libraries.as_slice())?;
    let cut = borrowed(alloc, copies.as_slice())?;
    let mains = mains_of(alloc, cut.len(), parts)?;
    match build(alloc, cut.as_slice(), mains.as_slice()) {
        Ok(_) => Ok(true),
        Err(BuildError::Memory) => Err(Memory),
        Err(_) => Ok(false),
    }
}

/// Why a program isn't built with its parts. If only the linker refuses it, the library is cut to what it reaches; if it builds
/// then, that is noted.
fn refusal_with_parts(
    alloc: Global,
    program: &mut ProjectProgram,
    files: &[NewFile],
    named: Named<'_, '_>,
    is_further: bool,
) -> Result<Option<Refusal>, Memory> {
    let parts = parts_of(alloc, &*program, files, is_further)?;
    let refusal = refusal_for(alloc, named, parts.as_slice())?;
    let is_of_linking = match &refusal {
        Some(refusal) => refusal.is_of_linking,
        None => false,
    };
    if !is_of_linking || !builds_lean(alloc, &*program, files, named.sources, parts.as_slice())? {
        return Ok(refusal);
    }
    program.is_lean = true;
    Ok(None)
}

/// Adds the names of the routines that a text declares.
fn add_routines(
    alloc: Global,
    routines: &mut IndexMap<Vec<u8>, usize>,
    text: &[u8],
) -> Result<(), Memory> {
    let tokens = Tokens::of(alloc, text)?;
    for index in 1..tokens.count() {
        let is_declared = tokens.is_word(index - 1, b"LET") || tokens.is_word(index - 1, b"AND");
        if is_declared && tokens.begins_with(index.saturating_add(1), b"(") {
            routines.insert(Vec::from_slice(alloc, tokens.bytes(index))?, index)?;
        }
    }
    Ok(())
}

/// The names of the routines that the files without START declare.
fn routines_of_parts(alloc: Global, files: &[NewFile]) -> Result<IndexMap<Vec<u8>, usize>, Memory> {
    let mut routines = IndexMap::new(alloc);
    for file in files {
        if !file.is_header && !file.has_start {
            add_routines(alloc, &mut routines, file.text())?;
        }
    }
    Ok(routines)
}

/// Whether a text names one of these routines, and declares none of that name.
fn names_one_of(
    alloc: Global,
    text: &[u8],
    routines: &IndexMap<Vec<u8>, usize>,
) -> Result<bool, Memory> {
    let mut own = IndexMap::new(alloc);
    add_routines(alloc, &mut own, text)?;
    let tokens = Tokens::of(alloc, text)?;
    for index in 0..tokens.count() {
        let name = tokens.bytes(index);
        if routines.get(name).is_some() && own.get(name).is_none() {
            return Ok(true);
        }
    }
    Ok(false)
}

/// Whether there are files without START, and the one with START names no routine of theirs.
fn needs_no_part(
    alloc: Global,
    program: &ProjectProgram,
    files: &[NewFile],
) -> Result<bool, Memory> {
    let routines = routines_of_parts(alloc, files)?;
    let start = match program.start {
        Some(index) => files.get(index),
        None => None,
    };
    match start {
        Some(file) if !routines.is_empty() => { Ok(!names_one_of(alloc, file.text(), &routines)?) }
        _ => Ok(false),
    }
}

/// Why a program isn't built. If it is refused with its parts, and names no routine of theirs, it is built by itself; if it
/// builds then, that is noted.
///
/// # Errors
///
/// `Memory` if an allocation failed.
pub fn refusal_of_program(
    alloc: Global,
    program: &mut ProjectProgram,
    files: &[NewFile],
    named: Named<'_, '_>,
    is_further: bool,
) -> Result<Option<Refusal>, Memory> {
    let refusal = refusal_with_parts(alloc, program, files, named, is_further)?;
    if refusal.is_none() || !needs_no_part(alloc, &*program, files)? {
        return Ok(refusal);
    }
    program.is_alone = true;
    let alone = refusal_with_parts(alloc, program, files, named, is_further)?;
    if alone.is_none() {
        return Ok(None);
    }
    program.is_alone = false;
    Ok(refusal)
}

/// The sources with only the file with this index chosen.
///
/// # Errors
///
/// `Memory` if an allocation failed.
pub fn file_alone(alloc: Global, index: usize) -> Result<Vec<bool>, Memory> {
    let mut chosen = Vec::new(alloc);
    for _ in 0..LIBRARY.saturating_add(index) {
        chosen.push(false)?;
    }
    chosen.push(true)?;
    Ok(chosen)
}

/// The sources that are the mains of a program.
fn parts_of(
    alloc: Global,
    program: &ProjectProgram,
    files: &[NewFile],
    is_further: bool,
) -> Result<Vec<bool>, Memory> {
    let mut chosen = Vec::new(alloc);
    for is_main in [false, true, false, is_further] {
        chosen.push(is_main)?;
    }
    for index in 0..files.len() {
        chosen.push(is_part(program, files, index))?;
    }
    Ok(chosen)
}
