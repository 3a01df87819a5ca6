//! Standard input as one of the files of a command, which `-` names.

use crate::escaped::shown_path;
use crate::failure::{Cause, Failure};
use crate::read_file::{FILE_LIMIT, contents};
use bc_word::Memory;
use std::alloc::Global;
use std::io;
use std::io::Read;
use std::rt::Files;

/// The argument that names standard input.
pub(crate) const DASH: &str = "-";

/// What messages call standard input.
const SHOWN: &str = "standard input";

/// What a command reads for `-`.
#[derive(Drop)]
pub struct StandardInput {
    /// The content of standard input; `None` if `-` is the name of a file or isn't among the files.
    text: Option<Vec<u8>>,
}

/// The failure of standard input, for this reason.
fn failure_since(alloc: Global, reason: &str) -> Failure {
    match format!(in alloc; "{SHOWN}: {reason}\n") {
        Ok(explanation) => Failure::file(alloc, DASH).with(explanation),
        Err(_) => Failure::new(Cause::Memory),
    }
}

/// The failure of standard input after an I/O error.
fn failure_of(alloc: Global, error: &io::Error) -> Failure {
    if error.kind() == io::ErrorKind::OutOfMemory {
        return Failure::new(Cause::Memory);
    }
    match format!(in alloc; "{error}") {
        Ok(reason) => failure_since(alloc, reason.as_str()),
        Err(_) => Failure::new(Cause::Memory),
    }
}

/// The content of standard input. Fails like `contents`.
fn content_of<R: Read + Drop>(alloc: Global, input: R) -> Result<Vec<u8>, Failure> {
    let mut bytes = Vec::new(alloc);
    match input.take(FILE_LIMIT + 1).read_to_end(&mut bytes) {
        Ok(count) if count as u64 <= FILE_LIMIT => Ok(bytes),
        Ok(_) => Err(failure_since(alloc, "the text is larger than 16777216 bytes")),
        Err(error) => Err(failure_of(alloc, &error)),
    }
}

impl StandardInput {
    /// `-` is the name of a file.
    pub fn none() -> StandardInput {
        StandardInput { text: None }
    }

    /// Reads standard input if one of these paths is `-`.
    ///
    /// # Errors
    ///
    /// The failure of standard input if it can't be read or has more than `FILE_LIMIT` bytes, or one of `Memory`.
    pub fn of<R: Read + Drop>(
        alloc: Global,
        paths: &[&str],
        input: R,
    ) -> Result<StandardInput, Failure> {
        if !paths.contains(&DASH) {
            return Ok(StandardInput::none());
        }
        let text = content_of(alloc, input)?;
        Ok(StandardInput { text: Some(text) })
    }

    /// Whether this path means standard input.
    pub fn is_at(&self, path: &str) -> bool {
        self.text.is_some() && path == DASH
    }

    /// The content of standard input or of the file with this path. Fails like `contents`.
    pub fn contents<F: Files>(
        &self,
        rt: &F,
        alloc: Global,
        path: &str,
    ) -> Result<Vec<u8>, Failure> {
        match &self.text {
            Some(text) if path == DASH => Ok(Vec::from_slice(alloc, text.as_slice())?),
            _ => contents(rt, alloc, path),
        }
    }

    /// This path as a name: `standard input` if it means that.
    pub fn name_of<'p>(&self, path: &'p str) -> &'p str {
        if self.is_at(path) { SHOWN } else { path }
    }

    /// This path as messages show it. `Memory` if an allocation fails.
    pub fn shown(&self, alloc: Global, path: &str) -> Result<String, Memory> {
        shown_path(alloc, self.name_of(path))
    }

    /// Refuses to write to the place of standard input, which has none. `reason` says how it can't be written.
    ///
    /// # Errors
    ///
    /// The failure of standard input, if it was read.
    pub fn refuse_place(&self, alloc: Global, reason: &str) -> Result<(), Failure> {
        match &self.text {
            Some(_) => Err(failure_since(alloc, reason)),
            None => Ok(()),
        }
    }
}
