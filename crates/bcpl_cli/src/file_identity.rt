//! Which file a path leads to, also if the file doesn't exist yet.

use bc_word::Memory;
use std::alloc::Global;
use std::fs;
use std::os::unix::fs::MetadataExt;
use std::rt::Files;

/// How many links are followed to a file that doesn't exist.
const LINKS: usize = 40;

/// A regular file, or one that writing to its path would create.
#[derive(Drop)]
struct FileIdentity {
    /// The device and the inode of the file or, if it doesn't exist, of its folder.
    device: u64,
    inode: u64,
    /// The name in that folder, if the file doesn't exist.
    absent: Option<String>,
}

/// The folder and the name in it.
pub(crate) fn parts(path: &str) -> (&str, &str) {
    match path.rsplit_once('/') {
        Some(("", name)) => ("/", name),
        Some((folder, name)) => (folder, name),
        None => (".", path),
    }
}

/// The path to which a link leads that has this target.
fn link_target(alloc: Global, link: &str, target: &str) -> Result<String, Memory> {
    let (folder, _) = parts(link);
    Ok(if target.starts_with('/') {
        String::from_str(alloc, target)?
    } else {
        format!(in alloc; "{folder}/{target}")?
    })
}

/// The path to which links at the end of this path lead.
fn without_links<F: Files>(rt: &F, alloc: Global, path: &str) -> Result<String, Memory> {
    let mut path = String::from_str(alloc, path)?;
    for _ in 0..LINKS {
        match rt.read_link(alloc, path.as_str()) {
            Ok(target) => path = link_target(alloc, path.as_str(), target.as_str())?,
            Err(_) => return Ok(path),
        }
    }
    Ok(path)
}

/// The identity of a file that doesn't exist, or `None` if its folder doesn't exist either.
fn absent_file<F: Files>(
    rt: &F,
    alloc: Global,
    path: &str,
) -> Result<Option<FileIdentity>, Memory> {
    let path = without_links(rt, alloc, path)?;
    let (folder, name) = parts(path.as_str());
    let Ok(found) = fs::metadata(rt, folder) else {
        return Ok(None);
    };
    Ok(Some(FileIdentity {
        device: found.dev(),
        inode: found.ino(),
        absent: Some(String::from_str(alloc, name)?),
    }))
}

/// The identity of the file to which a path leads. `None` for a device, a pipe or a folder, to which writing loses
/// nothing, and if there can't be such a file.
fn identity_of<F: Files>(
    rt: &F,
    alloc: Global,
    path: &str,
) -> Result<Option<FileIdentity>, Memory> {
    match fs::metadata(rt, path) {
        Ok(found) if found.is_file() => Ok(Some(FileIdentity {
            device: found.dev(),
            inode: found.ino(),
            absent: None,
        })),
        Ok(_) => Ok(None),
        Err(_) => absent_file(rt, alloc, path),
    }
}

/// Whether two absent files have the same name; files that exist have none.
fn is_same_name(one: &Option<String>, other: &Option<String>) -> bool {
    match (one, other) {
        (None, None) => true,
        (Some(one), Some(other)) => one.as_str() == other.as_str(),
        _ => false,
    }
}

/// Whether two files are the same.
fn is_same(one: &FileIdentity, other: &FileIdentity) -> bool {
    one.device == other.device
        && one.inode == other.inode
        && is_same_name(&one.absent, &other.absent)
}

/// Whether this path leads to that file.
fn leads_to<F: Files>(
    rt: &F,
    alloc: Global,
    path: &str,
    file: &FileIdentity,
) -> Result<bool, Memory> {
    match identity_of(rt, alloc, path)? {
        Some(found) => Ok(is_same(&found, file)),
        None => Ok(false),
    }
}

/// Whether two paths lead to the same regular file, by whatever spelling or link, also if it doesn't exist yet.
/// `Memory` if an allocation fails.
pub fn is_same_file<F: Files>(
    rt: &F,
    alloc: Global,
    one: &str,
    other: &str,
) -> Result<bool, Memory> {
    match identity_of(rt, alloc, one)? {
        Some(file) => leads_to(rt, alloc, other, &file),
        None => Ok(false),
    }
}
