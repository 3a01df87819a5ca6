//! The files of a project once they are converted.

use crate::files::OldFile;
use crate::texts::Tokens;
use bc_convert::{Conversion, Replacement};
use bc_word::Memory;
use std::alloc::Global;

/// A file of the result.
pub struct NewFile {
    pub old: OldFile,
    pub conversion: Conversion,
    /// The replacements of each later round of its conversion that changed something.
    pub later: Vec<Vec<Replacement>>,
    /// Whether another file gets it.
    pub is_header: bool,
    /// Whether it declares the routine START.
    pub has_start: bool,
}

impl Drop for NewFile {
    fn drop(self) {
        let NewFile {
            old: _,
            conversion: _,
            later: _,
            is_header: _,
            has_start: _,
        } = self;
    }
}

impl NewFile {
    /// Its name.
    pub fn name(&self) -> &str {
        self.old.name.as_str()
    }

    /// Its text.
    pub fn text(&self) -> &[u8] {
        self.conversion.text.as_slice()
    }
}

/// Whether a text declares the routine START.
///
/// # Errors
///
/// `Memory` if an allocation failed.
pub fn declares_start(alloc: Global, text: &[u8]) -> Result<bool, Memory> {
    let tokens = Tokens::of(alloc, text)?;
    for index in 1..tokens.count() {
        let is_declared = tokens.is_word(index - 1, b"LET") || tokens.is_word(index - 1, b"AND");
        if is_declared
            && tokens.bytes(index) == b"START".as_slice()
            && tokens.begins_with(index.saturating_add(1), b"(")
        {
            return Ok(true);
        }
    }
    Ok(false)
}

/// Whether a text gets EXTHDR.
///
/// # Errors
///
/// `Memory` if an allocation failed.
pub fn gets_further(alloc: Global, text: &[u8]) -> Result<bool, Memory> {
    let tokens = Tokens::of(alloc, text)?;
    for index in 1..tokens.count() {
        if tokens.is_word(index - 1, b"GET") && tokens.bytes(index) == b"\"EXTHDR\"".as_slice() {
            return Ok(true);
        }
    }
    Ok(false)
}
