//! The sources of a program, read from the files that the arguments name, or standard input, and from the folders of
//! `--include`.

use crate::Failure;
use crate::arguments::{Library, Sources};
use crate::command_files::STANDARD_INPUT;
use crate::escaped::shown_path;
use crate::folders::is_folder;
use crate::got_names::got_names;
use crate::read_file::contents;
use bc_word::Memory;
use std::alloc::Global;
use std::fs;
use std::rt::Files;

/// A source that was read from a file.
pub struct LoadedSource {
    /// The name by which GET finds it.
    pub name: String,
    /// The path of the file.
    pub path: String,
    /// The path as messages show it.
    pub shown: String,
    /// Its content.
    pub text: Vec<u8>,
}

impl Drop for LoadedSource {
    fn drop(self) {
        let LoadedSource {
            name: _,
            path: _,
            shown: _,
            text: _,
        } = self;
    }
}

/// A source with this content.
fn loaded(alloc: Global, name: &str, path: &str, text: Vec<u8>) -> Result<LoadedSource, Memory> {
    Ok(LoadedSource {
        name: String::from_str(alloc, name)?,
        path: String::from_str(alloc, path)?,
        shown: shown_path(alloc, path)?,
        text,
    })
}

/// Reads a source from the file with this path, and adds it.
fn add_source<F: Files>(
    rt: &F,
    alloc: Global,
    sources: &mut Vec<LoadedSource>,
    name: &str,
    path: &str,
) -> Result<(), Failure> {
    let text = contents(rt, alloc, path)?;
    Ok(sources.push(loaded(alloc, name, path, text)?)?)
}

/// Reads a source from standard input or from the file with this path, and adds it.
fn add_file<F: Files>(
    rt: &F,
    alloc: Global,
    given: &Sources<'_>,
    sources: &mut Vec<LoadedSource>,
    path: &str,
) -> Result<(), Failure> {
    let text = given.standard.contents(rt, alloc, path)?;
    let shown = given.standard.shown(alloc, path)?;
    let place = if given.standard.is_at(path) {
        STANDARD_INPUT
    } else {
        path
    };
    let name = String::from_str(alloc, path)?;
    let path = String::from_str(alloc, place)?;
    Ok(sources.push(LoadedSource {
        name,
        path,
        shown,
        text,
    })?)
}

/// Whether GET finds a source with this name.
fn has_source(library: Library, sources: &[LoadedSource], name: &str) -> bool {
    library.has_source(name) || sources.iter().any(|source| source.name.as_str() == name)
}

/// The path of the file with this name in the first of these folders that has it.
fn path_in_folders<F: Files>(
    rt: &F,
    alloc: Global,
    folders: &[&str],
    name: &str,
) -> Result<Option<String>, Memory> {
    for folder in folders {
        let folder = folder.trim_end_matches('/');
        let path = format!(in alloc; "{folder}/{name}")?;
        if let Ok(found) = fs::metadata(rt, path.as_str())
            && found.is_file()
        {
            return Ok(Some(path));
        }
    }
    Ok(None)
}

/// Adds the file with this name from the folders of `--include`, if one has it and no source has the name.
fn add_included<F: Files>(
    rt: &F,
    alloc: Global,
    given: &Sources<'_>,
    sources: &mut Vec<LoadedSource>,
    name: &str,
) -> Result<(), Failure> {
    if has_source(given.library, sources.as_slice(), name) {
        return Ok(());
    }
    match path_in_folders(rt, alloc, given.includes.as_slice(), name)? {
        Some(path) => add_source(rt, alloc, sources, name, path.as_str()),
        None => Ok(()),
    }
}

/// Adds the files that the sources get from the folders of `--include`, and what these get.
fn add_all_included<F: Files>(
    rt: &F,
    alloc: Global,
    given: &Sources<'_>,
    sources: &mut Vec<LoadedSource>,
) -> Result<(), Failure> {
    for number in 0..usize::MAX {
        let names = match sources.get(number) {
            Some(source) => got_names(alloc, source.text.as_slice())?,
            None => return Ok(()),
        };
        for name in &names {
            add_included(rt, alloc, given, sources, name.as_str())?;
        }
    }
    Ok(())
}

/// Fails if one of these folders of `--include` isn't there: it is probably misspelt.
fn check_folders<F: Files>(rt: &F, alloc: Global, folders: &[&str]) -> Result<(), Failure> {
    for folder in folders {
        if !is_folder(rt, folder) {
            let reason = "--include names this folder, but there is no such folder";
            return Err(Failure::file_since(alloc, folder, reason));
        }
    }
    Ok(())
}

/// Reads the sources of a program: those of `--get`, then those that become segments, then those that they get from
/// the folders of `--include`.
///
/// # Errors
///
/// The failure of a file that can't be read or of a folder that isn't there, or one of `Memory`.
pub fn load_sources<F: Files>(
    rt: &F,
    alloc: Global,
    given: &Sources<'_>,
) -> Result<Vec<LoadedSource>, Failure> {
    let mut sources = Vec::new(alloc);
    for get in &given.gets {
        add_source(rt, alloc, &mut sources, get.name, get.path)?;
    }
    for path in &given.files {
        add_file(rt, alloc, given, &mut sources, path)?;
    }
    if !given.includes.is_empty() {
        check_folders(rt, alloc, given.includes.as_slice())?;
        add_all_included(rt, alloc, given, &mut sources)?;
    }
    Ok(sources)
}
