//! A hint on a GET whose file lies beside a source, but is not named for it.

use crate::folders::{names_in, sorted_names};
use bc_word::Memory;
use std::alloc::Global;
use std::fs;
use std::rt::Files;

/// What comes before the name in the first line on a GET without a file.
const MISSING: &str = ": error: no source has the name ";

/// Whether this is the name of a header of the library, however it is spelled. A file of that name is no help.
fn is_of_library(name: &str) -> bool {
    let bare = name.split('.').next().unwrap_or(name).as_bytes();
    bare.eq_ignore_ascii_case(b"LIBHDR") || bare.eq_ignore_ascii_case(b"EXTHDR")
}

/// The lines before the help on a GET without a file, and the name in them.
fn without_help(explanation: &str) -> Option<(&str, &str)> {
    let (first, _) = explanation.split_once('\n')?;
    let (_, name) = first.split_once(MISSING)?;
    if is_of_library(name) {
        return None;
    }
    match explanation.split_once("\n  help: ") {
        Some((front, _)) => Some((front, name)),
        None => Some((explanation.trim_end_matches('\n'), name)),
    }
}

/// The folder of a file.
fn folder_of(path: &str) -> &str {
    match path.rsplit_once('/') {
        Some(("", _)) => "/",
        Some((folder, _)) => folder,
        None => ".",
    }
}

/// Whether this folder has a file with this name.
fn has_file<F: Files>(rt: &F, alloc: Global, folder: &str, name: &str) -> Result<bool, Memory> {
    let path = format!(in alloc; "{folder}/{name}")?;
    match fs::metadata(rt, path.as_str()) {
        Ok(found) => Ok(found.is_file()),
        Err(_) => Ok(false),
    }
}

/// The folder that has a file with this name: this one, or the first folder in it that does.
fn folder_with<F: Files>(
    rt: &F,
    alloc: Global,
    folder: &str,
    name: &str,
) -> Result<Option<String>, Memory> {
    if has_file(rt, alloc, folder, name)? {
        return Ok(Some(String::from_str(alloc, folder)?));
    }
    let Ok(names) = names_in(rt, alloc, folder) else {
        return Ok(None);
    };
    for inner in &sorted_names(alloc, names.as_slice())? {
        let inner = format!(in alloc; "{folder}/{inner}")?;
        if has_file(rt, alloc, inner.as_str(), name)? {
            return Ok(Some(inner));
        }
    }
    Ok(None)
}

/// The explanation of a GET without a file. If the file lies beside one of these sources, or in a folder there, its help
/// is how to name that folder. `None` if it is another explanation, or if there is no such file.
pub fn get_hint<F: Files>(
    rt: &F,
    alloc: Global,
    explanation: &str,
    sources: &[&str],
) -> Result<Option<String>, Memory> {
    let Some((front, name)) = without_help(explanation) else {
        return Ok(None);
    };
    for source in sources {
        if let Some(folder) = folder_with(rt, alloc, folder_of(source), name)? {
            let folder = folder.as_str();
            let path = format!(in alloc; "{folder}/{name}")?;
            return Ok(Some(format!(in alloc;
                "{front}\n  help: {path} has that name: add --include {folder}, or --get {name}={path}\n"
            )?));
        }
    }
    Ok(None)
}
