//! The names of both libraries.

use bc_library::{is_of_library, library_word};
use bc_library_ext::{further_word, is_of_further_library};

/// The library's name that a word spells in either case.
pub fn library_name(word: &[u8]) -> Option<&'static [u8]> {
    let name = match library_word(word) {
        Some(name) => name,
        None => further_word(word)?,
    };
    Some(name.as_bytes())
}

/// Whether a word is a name of the library, exactly as spelled there.
pub fn is_library_name(word: &[u8]) -> bool {
    is_of_library(word) || is_of_further_library(word)
}
