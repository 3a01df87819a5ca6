//! Folders: whether a path leads to one, and the names in it.

use crate::Failure;
use bc_word::Memory;
use std::alloc::Global;
use std::io::Read;
use std::rt::Files;
use std::{fs, str};

/// The size of the buffer for the names in a folder.
const ROOM: usize = 8192;

/// Whether this path leads to a folder.
pub fn is_folder<F: Files>(rt: &F, path: &str) -> bool {
    match fs::metadata(rt, path) {
        Ok(found) => found.is_dir(),
        Err(_) => false,
    }
}

/// The names in a folder, each ended by a byte 0. Fails if the folder can't be read.
pub fn names_in<F: Files>(rt: &F, alloc: Global, folder: &str) -> Result<Vec<u8>, Failure> {
    let path = format!(in alloc; "{folder}/")?;
    let mut names = Vec::new(alloc);
    let mut opened = match rt.open_dir(path.as_str()) {
        Ok(opened) => opened,
        Err(error) => return Err(Failure::io(alloc, &error, folder)),
    };
    // A read fails without room for the next name. `read_to_end` reads into the rest of a buffer, which gets too small.
    let mut buffer = [0u8; ROOM];
    for _ in 0..usize::MAX {
        match opened.read(&mut buffer) {
            Ok(0) => break,
            Ok(count) => names.extend_from_slice(buffer.get(..count).unwrap_or(&[]))?,
            Err(error) => return Err(Failure::io(alloc, &error, folder)),
        }
    }
    Ok(names)
}

/// Those of these names that aren't hidden, in order. `Memory` if an allocation fails.
pub fn sorted_names<'n>(alloc: Global, names: &'n [u8]) -> Result<Vec<&'n str>, Memory> {
    let mut sorted = Vec::new(alloc);
    for name in names.split(|byte| *byte == 0) {
        if let Ok(name) = str::from_utf8(name)
            && !name.is_empty()
            && !name.starts_with('.')
        {
            sorted.push(name)?;
        }
    }
    sorted.sort()?;
    Ok(sorted)
}
