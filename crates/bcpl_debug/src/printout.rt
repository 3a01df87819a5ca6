//! What a command prints, while it is written.

use bc_word::Memory;
use bcpl_messages::Fill;
use std::alloc::Global;

/// What a command prints, while it is written. A failed allocation is remembered, so that only `finish` can fail.
#[derive(Drop)]
pub struct Printout {
    /// The text.
    text: String,
    /// Whether an allocation failed. Then the text is void.
    is_refused: bool,
}

impl Printout {
    /// An empty one.
    pub fn new(alloc: Global) -> Printout {
        Printout {
            text: String::new(alloc),
            is_refused: false,
        }
    }

    /// The whole text. `Memory` if an allocation failed.
    pub fn finish(self) -> Result<String, Memory> {
        let Printout { text, is_refused } = self;
        if is_refused { Err(Memory) } else { Ok(text) }
    }

    /// Remembers that an allocation failed.
    pub fn refuse(&mut self) {
        self.is_refused = true;
    }

    /// Appends a text.
    pub fn text(&mut self, text: &str) {
        if self.text.push_str(text).is_err() {
            self.is_refused = true;
        }
    }

    /// Appends a line.
    pub fn say(&mut self, line: &str) {
        self.text(line);
        self.text("\n");
    }

    /// Appends a number.
    pub fn number(&mut self, number: u64) {
        if write!(self.text, "{number}").is_err() {
            self.is_refused = true;
        }
    }

    /// Appends a word as a signed number.
    pub fn signed(&mut self, word: u16) {
        let signed = word.cast_signed();
        if write!(self.text, "{signed}").is_err() {
            self.is_refused = true;
        }
    }

    /// Appends a word in base 16, as BCPL writes it.
    pub fn hexadecimal(&mut self, word: u16) {
        if write!(self.text, "#X{word:04X}").is_err() {
            self.is_refused = true;
        }
    }

    /// Appends a word in base 8, as BCPL writes it.
    pub fn octal(&mut self, word: u16) {
        if write!(self.text, "#{word:o}").is_err() {
            self.is_refused = true;
        }
    }

    /// Appends a byte as a string of BCPL has it by its number.
    pub fn escape(&mut self, byte: u8) {
        if write!(self.text, "*#{byte:02x}").is_err() {
            self.is_refused = true;
        }
    }

    /// Appends the number of a line, right in four columns.
    pub fn line_number(&mut self, number: usize) {
        if write!(self.text, "{number:>4}").is_err() {
            self.is_refused = true;
        }
    }

    /// Appends a text, and blanks up to column 32.
    pub fn column(&mut self, text: &str) {
        if write!(self.text, "{text:<32}").is_err() {
            self.is_refused = true;
        }
    }

    /// Appends a character of ASCII. One that isn't printable becomes `?`.
    pub fn character(&mut self, byte: u8) {
        let shown = match byte {
            32..=126 => char::from(byte),
            _ => '?',
        };
        if self.text.push(shown).is_err() {
            self.is_refused = true;
        }
    }

    /// Appends bytes as characters of ASCII. Those that aren't printable become `?`.
    pub fn characters(&mut self, bytes: &[u8]) {
        for byte in bytes {
            self.character(*byte);
        }
    }

    /// Appends what fills a `{}`.
    fn part(&mut self, part: Fill<'_>) {
        match part {
            Fill::Text(text) => self.text(text),
            Fill::Shown(bytes) => self.characters(bytes),
            Fill::Number(number) => self.number(number),
        }
    }

    /// Appends a sentence in which each `{}` is replaced by the next of these parts.
    pub fn fill(&mut self, sentence: &str, parts: &[Fill<'_>]) {
        let mut at = 0usize;
        for piece in sentence.split("{}") {
            if let Some(before) = at.checked_sub(1)
                && let Some(part) = parts.get(before)
            {
                self.part(*part);
            }
            self.text(piece);
            at = at.saturating_add(1);
        }
    }
}
