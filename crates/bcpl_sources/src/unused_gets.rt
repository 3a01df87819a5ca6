//! Warnings about files of `--get` that no GET can reach.

use crate::diagnostics::plain_warning;
use bc_word::Memory;
use bcpl_cli::Sources;
use std::alloc::Global;

/// Why no GET can reach the file at this index of `--get`; `None` if one can.
fn reason(given: &Sources<'_>, at: usize, name: &str) -> Option<&'static str> {
    if given.library.has_source(name) {
        return Some("this name always means the library's own file");
    }
    let is_earlier = given.gets.iter().take(at).any(|get| get.name == name);
    if is_earlier {
        Some("an earlier --get has this name")
    } else {
        None
    }
}

/// The warnings about files of `--get` that no GET can reach, because the first source of a name counts. `Memory` if
/// an allocation fails.
pub fn ignored_gets(alloc: Global, given: &Sources<'_>) -> Result<String, Memory> {
    let mut text = String::new(alloc);
    for (at, get) in given.gets.iter().enumerate() {
        let name = get.name;
        if let Some(reason) = reason(given, at, name) {
            let path = get.path;
            let sentence = format!(in alloc; "--get {name}={path} is not used: {reason}")?;
            let line = plain_warning(alloc, given.is_json, sentence.as_str())?;
            text.push_str(line.as_str())?;
        }
    }
    Ok(text)
}
