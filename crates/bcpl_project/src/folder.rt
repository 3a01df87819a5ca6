//! The folders of a project: the files of the old one, and whether the new one may be written to.

use crate::files::{OldFile, add_sections, is_source};
use crate::outputs::LIST;
use crate::texts::as_text;
use bc_word::Memory;
use bcpl_cli::{FILE_LIMIT, Failure, contents, is_folder, names_in, sorted_names};
use bcpl_convert::name_of;
use indexmap::IndexMap;
use std::alloc::Global;
use std::os::unix::fs::MetadataExt;
use std::rt::Files;
use std::{fs, str};

/// The name of the report.
pub const REPORT: &str = "REPORT.md";

/// The name of the report as a page.
pub const PAGE: &str = "REPORT.html";

/// The name of the script that builds the result.
pub const SCRIPT: &str = "build.sh";

/// How a report begins.
pub const TITLE: &str = "Conversion report";

/// The old sources of a project.
#[derive(Drop)]
pub struct OldProject {
    pub files: Vec<OldFile>,
    /// The names of files that are no sources.
    pub others: Vec<String>,
}

/// The names in a folder that aren't hidden, in order. Those that aren't UTF-8 are left out.
fn sorted_in<'n>(
    alloc: Global,
    project: &mut OldProject,
    names: &'n [u8],
) -> Result<Vec<&'n str>, Memory> {
    for name in names.split(|byte| *byte == 0) {
        if !name.is_empty() && !name.starts_with(b".") && str::from_utf8(name).is_err() {
            project.others.push(as_text(alloc, name)?)?;
        }
    }
    sorted_names(alloc, names)
}

/// Whether this path leads to a file that can be read as a whole.
fn is_readable<F: Files>(rt: &F, path: &str) -> bool {
    match fs::metadata(rt, path) {
        Ok(found) => found.is_file() && found.len() <= FILE_LIMIT,
        Err(_) => false,
    }
}

/// Adds the file with this path in a folder, if it is a source; otherwise notes its name.
fn add_found<F: Files>(
    rt: &F,
    alloc: Global,
    project: &mut OldProject,
    path: &str,
) -> Result<(), Failure> {
    if is_readable(rt, path) {
        let text = contents(rt, alloc, path)?;
        if is_source(alloc, text.as_slice())? {
            add_sections(alloc, &mut project.files, path, text.as_slice())?;
            return Ok(());
        }
    }
    project
        .others
        .push(String::from_str(alloc, name_of(path))?)?;
    Ok(())
}

/// Adds the files of a folder.
fn add_folder<F: Files>(
    rt: &F,
    alloc: Global,
    project: &mut OldProject,
    folder: &str,
) -> Result<(), Failure> {
    let folder = folder.trim_end_matches('/');
    let names = names_in(rt, alloc, folder)?;
    for name in &sorted_in(alloc, project, names.as_slice())? {
        let path = format!(in alloc; "{folder}/{name}")?;
        add_found(rt, alloc, project, path.as_str())?;
    }
    Ok(())
}

/// Adds a file that an argument names, or the files of a folder.
fn add_given<F: Files>(
    rt: &F,
    alloc: Global,
    project: &mut OldProject,
    path: &str,
) -> Result<(), Failure> {
    if is_folder(rt, path) {
        return add_folder(rt, alloc, project, path);
    }
    let text = contents(rt, alloc, path)?;
    add_sections(alloc, &mut project.files, path, text.as_slice())?;
    Ok(())
}

/// The sources that these paths lead to, which are those of folders or of files.
///
/// # Errors
///
/// Fails if a file or folder can't be read, or if there is no source.
pub fn old_project<F: Files>(rt: &F, alloc: Global, paths: &[&str]) -> Result<OldProject, Failure> {
    let mut project = OldProject {
        files: Vec::new(alloc),
        others: Vec::new(alloc),
    };
    for path in paths {
        add_given(rt, alloc, &mut project, path)?;
    }
    match (project.files.is_empty(), paths.first()) {
        (true, Some(first)) => Err(Failure::file_since(
            alloc,
            first,
            "no file in this folder begins as a source does, with GET, LET, GLOBAL, MANIFEST, STATIC, SECTION or NEEDS",
        )),
        _ => Ok(project),
    }
}

/// Whether a folder has the report of an earlier conversion.
fn has_report<F: Files>(rt: &F, alloc: Global, folder: &str) -> Result<bool, Failure> {
    let path = format!(in alloc; "{folder}/{REPORT}")?;
    if !is_readable(rt, path.as_str()) {
        return Ok(false);
    }
    let text = contents(rt, alloc, path.as_str())?;
    let start = text
        .as_slice()
        .strip_prefix(b"# ".as_slice())
        .unwrap_or(&[]);
    Ok(start.starts_with(TITLE.as_bytes()))
}

/// Creates the folder of the result. It may exist if it is empty, or has the list or the report of an earlier conversion.
///
/// # Errors
///
/// Fails if the folder can't be created, or has other files.
pub fn make_folder<F: Files>(rt: &F, alloc: Global, folder: &str) -> Result<(), Failure> {
    if !is_folder(rt, folder) {
        return match fs::create_dir(rt, folder) {
            Ok(()) => Ok(()),
            Err(error) => Err(Failure::io(alloc, &error, folder)),
        };
    }
    let names = names_in(rt, alloc, folder)?;
    let mut is_used = false;
    for name in names.split(|byte| *byte == 0) {
        if name == LIST.as_bytes() {
            return Ok(());
        }
        // A conversion that was killed early leaves only an unfinished list.
        is_used |= !matches!(name, b"" | b"." | b"..") && !name.starts_with(LIST.as_bytes());
    }
    if is_used && !has_report(rt, alloc, folder)? {
        return Err(Failure::file_since(
            alloc,
            folder,
            "this folder has files that no conversion wrote; name a new folder, or an empty one",
        ));
    }
    Ok(())
}

/// The file with this name in a folder.
///
/// # Errors
///
/// `Memory` if an allocation failed.
pub fn path_in(alloc: Global, folder: &str, name: &str) -> Result<String, Memory> {
    let folder = if folder.len() > 1 {
        folder.trim_end_matches('/')
    } else {
        folder
    };
    Ok(format!(in alloc; "{folder}/{name}")?)
}

/// What a path leads to: the device and the inode.
fn identity<F: Files>(rt: &F, path: &str) -> Option<(u64, u64)> {
    match fs::metadata(rt, path) {
        Ok(found) => Some((found.dev(), found.ino())),
        Err(_) => None,
    }
}

/// The files of these sources.
fn identities<F: Files>(
    rt: &F,
    alloc: Global,
    files: &[OldFile],
) -> Result<IndexMap<(u64, u64), bool>, Memory> {
    let mut found = IndexMap::new(alloc);
    for file in files {
        if let Some(identity) = identity(rt, file.source.as_str()) {
            found.insert(identity, true)?;
        }
    }
    Ok(found)
}

/// Refuses to write these files to a folder if one would be lost.
///
/// # Errors
///
/// A failure that names the file.
pub fn spare_files<F: Files>(
    rt: &F,
    alloc: Global,
    folder: &str,
    files: &[OldFile],
) -> Result<(), Failure> {
    let sources = identities(rt, alloc, files)?;
    let mut names = IndexMap::new(alloc);
    for file in files {
        let name = file.name.as_str();
        let path = path_in(alloc, folder, name)?;
        let is_source = match identity(rt, path.as_str()) {
            Some(identity) => sources.get(&identity).is_some(),
            None => false,
        };
        let other = names.insert(Vec::from_slice(alloc, name.as_bytes())?, true)?;
        let reason = if other.is_some() {
            "two sources would be written to this file; rename one of them"
        } else if is_source {
            "this is a source, which would be lost; name a new folder"
        } else if matches!(name, REPORT | PAGE | SCRIPT | LIST) {
            "a source has the name of the script, the report or the list of digests; rename it"
        } else {
            continue;
        };
        return Err(Failure::file_since(alloc, path.as_str(), reason));
    }
    Ok(())
}
