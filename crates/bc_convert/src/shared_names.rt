//! What all sources of a program show together of the names that they share.

use crate::kind::Kind;
use crate::names::{declares, declares_routine, is_in_list_of};
use crate::reading::Reading;
use crate::source::TokenizedText;
use crate::words::reserved;
use bc_word::Memory;
use indexmap::IndexMap;
use std::alloc::Global;

/// What is known of a shared name.
#[derive(Clone, Copy, Default)]
struct Shared {
    /// It is a reserved word in some dialect, and a name in this program.
    is_word: bool,
    /// A header gives it a value by MANIFEST, so it is no vector.
    is_constant: bool,
}

/// The names that the sources of a program share: those that one of them declares by GLOBAL, and those that one of its
/// headers declares by MANIFEST. A source that declares no routine is a header.
#[derive(Drop)]
pub struct SharedNames {
    names: IndexMap<Vec<u8>, Shared>,
}

/// Whether a source declares no routine.
fn is_header(source: TokenizedText<'_>) -> bool {
    for index in 0..source.tokens.len() {
        if declares_routine(source, index) {
            return false;
        }
    }
    true
}

impl SharedNames {
    /// No names.
    pub fn new(alloc: Global) -> SharedNames {
        SharedNames {
            names: IndexMap::new(alloc),
        }
    }

    /// Adds the names that a source with this text shares.
    ///
    /// # Errors
    ///
    /// `Memory` if an allocation failed.
    pub fn add(&mut self, alloc: Global, text: &[u8]) -> Result<(), Memory> {
        let reading = Reading::new(alloc, text, None, None)?;
        let source = reading.source(text);
        let is_header = is_header(source);
        for index in 0..source.tokens.len() {
            let is_constant = is_header && is_in_list_of(source, index, Kind::Manifest);
            let is_shared = is_constant || is_in_list_of(source, index, Kind::Global);
            if is_shared && source.kind(index) == Kind::Name && declares(source, index) {
                let bytes = source.bytes(index);
                let is_word = reserved(bytes, reading.dialect.has_small_words).is_some();
                self.add_name(
                    alloc,
                    bytes,
                    Shared {
                        is_word,
                        is_constant,
                    },
                )?;
            }
        }
        Ok(())
    }

    /// Adds what a source shows of a name. Nothing is kept of a name about which nothing is known.
    fn add_name(&mut self, alloc: Global, name: &[u8], shown: Shared) -> Result<(), Memory> {
        let known = self.names.get(name).copied().unwrap_or_default();
        let is_word = known.is_word || shown.is_word;
        let is_constant = known.is_constant || shown.is_constant;
        if is_word != known.is_word || is_constant != known.is_constant {
            let shared = Shared {
                is_word,
                is_constant,
            };
            self.names.insert(Vec::from_slice(alloc, name)?, shared)?;
        }
        Ok(())
    }

    /// Whether a word that is reserved in some dialect is a name in all sources.
    pub fn has_word(&self, word: &[u8]) -> bool {
        matches!(self.names.get(word), Some(shared) if shared.is_word)
    }

    /// Whether a name has a value by MANIFEST in all sources.
    pub fn has_constant(&self, name: &[u8]) -> bool {
        matches!(self.names.get(name), Some(shared) if shared.is_constant)
    }
}
