//! The name of a stream, kept in an array: a call that may not allocate can note it.

use bc_word::Memory;
use std::alloc::Global;

/// The longest name that a program can ask for: the length of a string.
const LONGEST: usize = 255;

/// The name of a stream. An empty one means that nothing was noted.
#[derive(Clone, Copy)]
pub struct StreamName {
    bytes: [u8; LONGEST],
    length: usize,
}

impl StreamName {
    /// No name.
    pub fn none() -> StreamName {
        StreamName {
            bytes: [0; LONGEST],
            length: 0,
        }
    }

    /// The name with these bytes, of which the first 255 count.
    pub fn of(name: &[u8]) -> StreamName {
        let mut kept = StreamName::none();
        for (place, byte) in kept.bytes.iter_mut().zip(name) {
            *place = *byte;
        }
        kept.length = name.len().min(LONGEST);
        kept
    }

    /// Whether there is a name.
    pub fn is_some(&self) -> bool {
        self.length > 0
    }

    /// The name as text, with `?` for what is not ASCII or can't be printed.
    pub fn text(&self, alloc: Global) -> Result<String, Memory> {
        let mut text = String::new(alloc);
        for byte in self.bytes.iter().take(self.length) {
            text.push(if byte.is_ascii_graphic() || *byte == b' ' {
                char::from(*byte)
            } else {
                '?'
            })?;
        }
        Ok(text)
    }
}
