//! The text of a listing while it is written, with its columns.
use bc_word::Memory;
use std::alloc::Global;

/// The number of columns of a listing.
pub const WIDTH: usize = 100;

/// A part of a line.
#[derive(Clone, Copy)]
pub enum Field<'a> {
    /// A text as it is.
    Text(&'a str),
    /// As many of these bytes as fit into this many columns, followed by an ellipsis if some are left out.
    Front(&'a [u8], usize),
    /// A number, right-aligned in this many columns.
    Number(u64, usize),
    /// Blanks up to this column.
    Column(usize),
}

/// A listing while it is written. Once an allocation has failed, the text is void.
#[derive(Drop)]
pub struct Page {
    alloc: Global,
    text: Vec<u8>,
    /// The number of columns used in the last line.
    column: usize,
    is_refused: bool,
}

/// Whether a byte continues a UTF-8 character.
fn is_further(byte: u8) -> bool {
    byte & 0xC0 == 0x80
}

/// The number of columns that these bytes take, one for each character.
pub fn width(bytes: &[u8]) -> usize {
    bytes.iter().filter(|byte| !is_further(**byte)).count()
}

/// As many of these bytes as fit into this many columns.
fn front(bytes: &[u8], columns: usize) -> &[u8] {
    let mut taken: usize = 0;
    for (at, byte) in bytes.iter().enumerate() {
        if !is_further(*byte) {
            if taken == columns {
                return bytes.get(..at).unwrap_or(bytes);
            }
            taken = taken.saturating_add(1);
        }
    }
    bytes
}

impl Page {
    /// An empty page.
    pub fn new(alloc: Global) -> Page {
        Page {
            alloc,
            text: Vec::new(alloc),
            column: 0,
            is_refused: false,
        }
    }

    /// The allocator of the page.
    pub fn alloc(&self) -> Global {
        self.alloc
    }

    /// The column after the last one that is used, counted from 0.
    pub fn column(&self) -> usize {
        self.column
    }

    /// Notes that an allocation failed.
    pub fn refuse(&mut self) {
        self.is_refused = true;
    }

    /// Adds bytes as they are.
    fn add_bytes(&mut self, bytes: &[u8]) {
        if self.text.extend_from_slice(bytes).is_err() {
            self.refuse();
        }
    }

    /// Adds bytes without line feeds.
    pub fn add(&mut self, bytes: &[u8]) {
        self.add_bytes(bytes);
        self.column = self.column.saturating_add(width(bytes));
    }

    /// Adds as many of these bytes as fit into this many columns, and an ellipsis if some are left out.
    pub fn add_front(&mut self, bytes: &[u8], columns: usize) {
        let shown = front(bytes, columns);
        self.add(shown);
        if shown.len() < bytes.len() {
            self.add_text("…");
        }
    }

    /// Adds a text without line feeds.
    pub fn add_text(&mut self, text: &str) {
        self.add(text.as_bytes());
    }

    /// Adds a number, right-aligned in this many columns.
    pub fn add_number(&mut self, number: u64, columns: usize) {
        let Ok(digits) = format!(in self.alloc; "{number}") else {
            return self.refuse();
        };
        let blanks = columns.saturating_sub(digits.len());
        self.fill_to(self.column.saturating_add(blanks));
        self.add(digits.as_bytes());
    }

    /// Adds blanks up to a column.
    pub fn fill_to(&mut self, column: usize) {
        for _ in self.column..column {
            self.add(b" ");
        }
    }

    /// Adds a part of a line.
    fn add_field(&mut self, field: Field<'_>) {
        match field {
            Field::Text(text) => self.add_text(text),
            Field::Front(bytes, columns) => self.add_front(bytes, columns),
            Field::Number(number, columns) => self.add_number(number, columns),
            Field::Column(column) => self.fill_to(column),
        }
    }

    /// Adds parts of a line.
    pub fn add_all(&mut self, fields: &[Field<'_>]) {
        for field in fields {
            self.add_field(*field);
        }
    }

    /// Adds parts of a line and ends it.
    pub fn add_line(&mut self, fields: &[Field<'_>]) {
        self.add_all(fields);
        self.end_line();
    }

    /// Adds complete lines, each with its line feed. No line may be begun.
    pub fn add_lines(&mut self, lines: &str) {
        self.add_bytes(lines.as_bytes());
    }

    /// Ends the line if anything is on it.
    pub fn end_begun(&mut self) {
        if self.column > 0 {
            self.end_line();
        }
    }

    /// Adds bytes. What doesn't fit continues on further lines, beginning at this column.
    pub fn add_folded(&mut self, bytes: &[u8], column: usize) {
        for byte in bytes {
            if self.column >= WIDTH && !is_further(*byte) {
                self.go_on(column);
            }
            self.add(&[*byte]);
        }
    }

    /// Continues on a new line at this column.
    pub fn go_on(&mut self, column: usize) {
        self.end_line();
        self.fill_to(column);
    }

    /// Adds what precedes a word of this many columns: a blank, or `head` on a new line.
    fn before_word(&mut self, columns: usize, head: &str) {
        let taken = columns.saturating_add(1);
        if self.column.saturating_add(taken) > WIDTH {
            self.end_line();
            self.add_text(head);
        } else {
            self.add(b" ");
        }
    }

    /// Adds the words of a text. A word that doesn't fit goes to a new line that begins with `head`.
    pub fn add_words(&mut self, words: &str, head: &str) {
        let mut is_first = true;
        for word in words.split_whitespace() {
            if !is_first {
                self.before_word(width(word.as_bytes()), head);
            }
            self.add_text(word);
            is_first = false;
        }
    }

    /// Ends the line.
    pub fn end_line(&mut self) {
        self.add_bytes(b"\n");
        self.column = 0;
    }

    /// The text, or `Memory` if an allocation failed.
    pub fn into_text(self) -> Result<Vec<u8>, Memory> {
        if self.is_refused {
            return Err(Memory);
        }
        Ok(self.text)
    }
}
