//! Bytes of sources as text, and the tokens of a source by their bytes.

use bc_convert::{Token, lex};
use bc_word::Memory;
use std::alloc::Global;
use std::str;

/// Bytes as text, with a question mark for each byte that isn't printable ASCII, if they are not valid UTF-8, and for each
/// control character but a tab.
///
/// # Errors
///
/// `Memory` if an allocation failed.
pub fn as_text(alloc: Global, bytes: &[u8]) -> Result<String, Memory> {
    let mut text = String::new(alloc);
    match str::from_utf8(bytes) {
        Ok(whole) => {
            for character in whole.chars() {
                let is_plain = !character.is_control() || character == '\t';
                text.push(if is_plain { character } else { '?' })?;
            }
        }
        Err(_) => {
            for byte in bytes {
                let is_plain = byte.is_ascii_graphic() || *byte == b' ' || *byte == b'\t';
                text.push(if is_plain { char::from(*byte) } else { '?' })?;
            }
        }
    }
    Ok(text)
}

/// A text with its tokens, as an old dialect has them.
#[derive(Drop)]
pub struct Tokens<'s> {
    text: &'s [u8],
    tokens: Vec<Token>,
}

impl<'s> Tokens<'s> {
    /// Reads the tokens of a text.
    ///
    /// # Errors
    ///
    /// `Memory` if an allocation failed.
    pub fn of(alloc: Global, text: &'s [u8]) -> Result<Tokens<'s>, Memory> {
        let tokens = lex(alloc, text)?;
        Ok(Tokens { text, tokens })
    }

    /// How many tokens there are.
    pub fn count(&self) -> usize {
        self.tokens.len()
    }

    /// The bytes of the token with this index; none past the last one.
    pub fn bytes(&self, index: usize) -> &'s [u8] {
        match self.tokens.get(index) {
            Some(token) => self.text.get(token.start..token.end).unwrap_or(&[]),
            None => &[],
        }
    }

    /// The offset after the token with this index.
    pub fn end(&self, index: usize) -> usize {
        match self.tokens.get(index) {
            Some(token) => token.end,
            None => self.text.len(),
        }
    }

    /// The bytes between the token with this index and the next one.
    pub fn gap_after(&self, index: usize) -> &'s [u8] {
        let end = match self.tokens.get(index.saturating_add(1)) {
            Some(token) => token.start,
            None => self.text.len(),
        };
        self.text.get(self.end(index)..end).unwrap_or(&[])
    }

    /// Whether the token with this index is this word, in either case.
    pub fn is_word(&self, index: usize, word: &[u8]) -> bool {
        self.bytes(index).eq_ignore_ascii_case(word)
    }

    /// Whether the token with this index begins with one of these bytes.
    pub fn begins_with(&self, index: usize, signs: &[u8]) -> bool {
        match self.bytes(index).first() {
            Some(first) => signs.contains(first),
            None => false,
        }
    }
}

/// What is between the first and the last byte.
pub fn inside(quoted: &[u8]) -> &[u8] {
    let end = quoted.len().saturating_sub(1);
    quoted.get(1..end).unwrap_or(&[])
}
