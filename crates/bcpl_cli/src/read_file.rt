//! Files that are read as a whole, up to a limit.

use crate::Failure;
use std::alloc::Global;
use std::fs;
use std::io::Read;
use std::rt::Files;

/// The largest size of a file, in bytes.
pub const FILE_LIMIT: u64 = 16_777_216;

/// The content of the file with this path. Fails if the file can't be opened or read, has more than `FILE_LIMIT`
/// bytes, or an allocation fails.
pub fn contents<F: Files>(rt: &F, alloc: Global, path: &str) -> Result<Vec<u8>, Failure> {
    let file = match fs::open(rt, path) {
        Ok(file) => file,
        Err(error) => return Err(Failure::io(alloc, &error, path)),
    };
    let mut bytes = Vec::new(alloc);
    match file.take(FILE_LIMIT + 1).read_to_end(&mut bytes) {
        Ok(count) if count as u64 <= FILE_LIMIT => Ok(bytes),
        Ok(_) => Err(Failure::file_since(alloc, path, "the file is larger than 16777216 bytes")),
        Err(error) => Err(Failure::io(alloc, &error, path)),
    }
}
