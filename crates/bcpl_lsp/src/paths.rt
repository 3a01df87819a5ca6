//! Paths of files, and the URIs that the protocol has for them.

use bc_word::Memory;
use percent_encoding::{AsciiSet, NON_ALPHANUMERIC, percent_decode, percent_encode};
use std::alloc::Global;

/// The beginning of a file's URI.
const SCHEME: &str = "file://";

/// The path of the file with this URI; the URI itself if it names no file. Returns `Memory` if an allocation fails.
pub fn path_of(alloc: Global, uri: &str) -> Result<String, Memory> {
    let path = match uri.strip_prefix(SCHEME) {
        Some(path) => path,
        None => return Ok(String::from_str(alloc, uri)?),
    };
    let mut bytes = Vec::new(alloc);
    percent_decode(path.as_bytes()).append_to(&mut bytes)?;
    let decoded = match std::str::from_utf8(bytes.as_slice()) {
        Ok(decoded) => decoded,
        Err(_) => path,
    };
    Ok(String::from_str(alloc, decoded)?)
}

/// The characters of a path that are escaped in a URI.
fn escaped() -> AsciiSet {
    NON_ALPHANUMERIC
        .remove(b'/')
        .remove(b'.')
        .remove(b'-')
        .remove(b'_')
        .remove(b'~')
}

/// The URI of the file with this path. Returns `Memory` if an allocation fails.
pub fn uri_of(alloc: Global, path: &str) -> Result<String, Memory> {
    let mut uri = String::from_str(alloc, SCHEME)?;
    percent_encode(path.as_bytes(), escaped()).append_to(&mut uri)?;
    Ok(uri)
}

/// The folder of the file with this path, without the slash after it; `.` if the path has none.
pub fn folder_of(path: &str) -> &str {
    match path.rsplit_once('/') {
        Some((folder, _)) => folder,
        None => ".",
    }
}
