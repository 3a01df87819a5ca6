//! The sources of a document that an editor has open: its text, and the files that it gets, as the editor has them or from
//! the file system.

use bc_word::Memory;
use bcpl_cli::{Library, LoadedSource, contents};
use bcpl_lsp::{Document, File, Server, folder_of};
use bcpl_places::gets_of;
use std::alloc::Global;
use std::fs;
use std::rt::Files;

/// Whether the library has a source with this name.
fn is_of_library(name: &str) -> bool {
    Library::Further.has_source(name)
}

/// The names in the GETs of a text.
fn names_got(alloc: Global, text: &[u8]) -> Result<Vec<String>, Memory> {
    let mut names = Vec::new(alloc);
    for get in &gets_of(alloc, text)? {
        if let Ok(name) = std::str::from_utf8(get.name) {
            names.push(String::from_str(alloc, name)?)?;
        }
    }
    Ok(names)
}

/// The content of the file with this path, as an editor has it or from the file system; `None` if there is no such file.
fn content_of<F: Files>(
    rt: &F,
    alloc: Global,
    server: &Server,
    path: &str,
) -> Result<Option<Vec<u8>>, Memory> {
    if let Some(text) = server.text_of(path) {
        return Ok(Some(Vec::from_slice(alloc, text)?));
    }
    match fs::metadata(rt, path) {
        Ok(found) if found.is_file() => Ok(contents(rt, alloc, path).ok()),
        _ => Ok(None),
    }
}

/// A source from a file.
fn loaded(alloc: Global, name: &str, path: &str, text: Vec<u8>) -> Result<LoadedSource, Memory> {
    Ok(LoadedSource {
        name: String::from_str(alloc, name)?,
        path: String::from_str(alloc, path)?,
        shown: String::from_str(alloc, path)?,
        text,
    })
}

/// The file with this name in this folder, if there is one.
fn got_from<F: Files>(
    rt: &F,
    alloc: Global,
    server: &Server,
    folder: &str,
    name: &str,
) -> Result<Option<LoadedSource>, Memory> {
    let path = format!(in alloc; "{folder}/{name}")?;
    match content_of(rt, alloc, server, path.as_str())? {
        Some(text) => Ok(Some(loaded(alloc, name, path.as_str(), text)?)),
        None => Ok(None),
    }
}

/// The file with this name in the first of these folders that has it, if one does.
fn got<F: Files>(
    rt: &F,
    alloc: Global,
    server: &Server,
    folders: &[&str],
    name: &str,
) -> Result<Option<LoadedSource>, Memory> {
    for folder in folders {
        let found = got_from(rt, alloc, server, folder, name)?;
        if found.is_some() {
            return Ok(found);
        }
    }
    Ok(None)
}

/// Whether a GET of this name is to be looked up in folders: it names neither a header of the library nor one of these sources.
fn is_wanted(sources: &[LoadedSource], name: &str) -> bool {
    !name.is_empty() && !is_of_library(name) && !has_source(sources, name)
}

/// Whether a source has this name.
fn has_source(sources: &[LoadedSource], name: &str) -> bool {
    for source in sources {
        if source.name.as_str() == name {
            return true;
        }
    }
    false
}

/// The greatest number of files that a document may get.
const MOST_FILES: usize = 1000;

/// Adds the files that these sources get, and what those get.
fn add_all_got<F: Files>(
    rt: &F,
    alloc: Global,
    server: &Server,
    folders: &[&str],
    sources: &mut Vec<LoadedSource>,
) -> Result<(), Memory> {
    for number in 0..MOST_FILES {
        let names = match sources.get(number) {
            Some(source) => names_got(alloc, source.text.as_slice())?,
            None => return Ok(()),
        };
        for name in &names {
            if is_wanted(sources.as_slice(), name.as_str())
                && let Some(source) = got(rt, alloc, server, folders, name.as_str())?
            {
                sources.push(source)?;
            }
        }
    }
    Ok(())
}

/// A link to the working directory.
const HERE: &str = "/proc/self/cwd";

/// The path of a folder from the root on. A relative one counts from `here`.
fn absolute(alloc: Global, here: &str, folder: &str) -> Result<String, Memory> {
    let mut path = String::new(alloc);
    if !folder.starts_with('/') {
        path.push_str(here)?;
    }
    for part in folder.split('/') {
        match (part, path.as_str().rsplit_once('/')) {
            ("" | ".", _) => {}
            ("..", Some((before, _))) => path = String::from_str(alloc, before)?,
            _ => write!(path, "/{part}")?,
        }
    }
    Ok(path)
}

/// The path of a folder from the root on, or its relative path on a system that doesn't show the working directory.
fn absolute_folder<F: Files>(rt: &F, alloc: Global, folder: &str) -> Result<String, Memory> {
    match rt.read_link(alloc, HERE) {
        Ok(here) => absolute(alloc, here.as_str(), folder),
        Err(_) => Ok(String::from_str(alloc, folder)?),
    }
}

/// The paths of these folders from the root on, since a URI can't have a relative one. Returns `Memory` if an allocation
/// fails.
pub fn absolute_folders<F: Files>(
    rt: &F,
    alloc: Global,
    folders: &[&str],
) -> Result<Vec<String>, Memory> {
    let mut paths = Vec::new(alloc);
    for folder in folders {
        paths.push(absolute_folder(rt, alloc, folder)?)?;
    }
    Ok(paths)
}

/// The folders in which the files that a document gets are: its own, if it is a file, then these.
fn folders_for<'f>(
    alloc: Global,
    document: &'f Document,
    includes: &'f [String],
) -> Result<Vec<&'f str>, Memory> {
    let mut folders = Vec::new(alloc);
    if document.path().starts_with('/') {
        folders.push(folder_of(document.path()))?;
    }
    for folder in includes {
        folders.push(folder.as_str())?;
    }
    Ok(folders)
}

/// The source of a document.
fn own_source(alloc: Global, document: &Document) -> Result<LoadedSource, Memory> {
    let path = document.path();
    let text = Vec::from_slice(alloc, document.text())?;
    loaded(alloc, path, path, text)
}

/// The source of a document, and the files that it gets from its own folder and from these. Returns `Memory` if an
/// allocation fails; a file that can't be read is left out.
pub fn sources_of<F: Files>(
    rt: &F,
    alloc: Global,
    server: &Server,
    document: &Document,
    includes: &[String],
) -> Result<Vec<LoadedSource>, Memory> {
    let folders = folders_for(alloc, document, includes)?;
    let mut sources = Vec::new(alloc);
    sources.push(own_source(alloc, document)?)?;
    add_all_got(rt, alloc, server, folders.as_slice(), &mut sources)?;
    Ok(sources)
}

/// The library that these sources need: the further one if one of them gets its header.
pub fn library_for(alloc: Global, sources: &[LoadedSource]) -> Result<Library, Memory> {
    for source in sources {
        for name in &names_got(alloc, source.text.as_slice())? {
            if matches!(name.as_str(), "EXTHDR" | "EXTLIB") {
                return Ok(Library::Further);
            }
        }
    }
    Ok(Library::Basic)
}

/// A file with a copy of this content.
fn file_with(alloc: Global, name: &str, path: &str, content: &[u8]) -> Result<File, Memory> {
    let text = Vec::from_slice(alloc, content)?;
    File::new(alloc, name, path, text)
}

/// The files that GETs of the first source can name: the headers of the library, then the other sources. Returns `Memory`
/// if an allocation fails.
pub fn headers_of(
    alloc: Global,
    headers: &[(&str, &str)],
    sources: &[LoadedSource],
) -> Result<Vec<File>, Memory> {
    let mut files = Vec::new(alloc);
    for (name, text) in headers {
        files.push(file_with(alloc, name, "", text.as_bytes())?)?;
    }
    for source in sources.iter().skip(1) {
        let (name, path) = (source.name.as_str(), source.path.as_str());
        files.push(file_with(alloc, name, path, source.text.as_slice())?)?;
    }
    Ok(files)
}
