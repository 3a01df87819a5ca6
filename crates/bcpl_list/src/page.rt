//! The text of a listing while it is written, with its columns.

use bc_text_items::Item;
use bc_word::Memory;
use bcpl_show::ShownItem;
use std::alloc::Global;

/// The smallest number of columns of an item that has a description.
const ITEM: usize = 14;

/// The lines of a listing. A line may have an item with a description. Once an allocation has failed, the text is
/// void.
#[derive(Drop)]
pub struct Page {
    text: String,
    /// Where the item of this line begins, in bytes.
    item: usize,
    /// Where its description begins, in bytes, if it has one.
    said: Option<usize>,
    is_refused: bool,
}

impl Page {
    /// An empty page.
    pub fn new(alloc: Global) -> Page {
        Page {
            text: String::new(alloc),
            item: 0,
            said: None,
            is_refused: false,
        }
    }

    /// Notes that an allocation failed.
    pub fn refuse(&mut self) {
        self.is_refused = true;
    }

    /// Adds a text.
    pub fn add(&mut self, text: &str) {
        if self.text.push_str(text).is_err() {
            self.refuse();
        }
    }

    /// Adds a character.
    pub fn add_sign(&mut self, sign: char) {
        if self.text.push(sign).is_err() {
            self.refuse();
        }
    }

    /// Adds a number.
    pub fn add_number(&mut self, number: usize) {
        if write!(self.text, "{number}").is_err() {
            self.refuse();
        }
    }

    /// Adds a number, right-aligned in six columns.
    pub fn add_column(&mut self, number: usize) {
        if write!(self.text, "{number:>6}").is_err() {
            self.refuse();
        }
    }

    /// Adds a byte as two hexadecimal digits.
    pub fn add_digits(&mut self, byte: u8) {
        if write!(self.text, "{byte:02x}").is_err() {
            self.refuse();
        }
    }

    /// Adds an item in INTCODE.
    pub fn add_item(&mut self, item: &Item) {
        let shown = ShownItem(item);
        if write!(self.text, "{shown}").is_err() {
            self.refuse();
        }
    }

    /// Begins the item of a line.
    pub fn begin_item(&mut self) {
        self.add("  ");
        self.item = self.text.len();
        self.said = None;
    }

    /// Begins the description of the line's item, in its column.
    fn begin_said(&mut self) {
        let taken = self.text.len().saturating_sub(self.item);
        for _ in taken..ITEM {
            self.add(" ");
        }
        self.add(" / ");
        self.said = Some(self.text.len());
    }

    /// Adds to the description of the line's item.
    pub fn say(&mut self, text: &str) {
        if self.said.is_none() {
            self.begin_said();
        }
        self.add(text);
    }

    /// Adds a text and a number to the description.
    pub fn say_number(&mut self, text: &str, number: usize) {
        self.say(text);
        self.add_number(number);
    }

    /// The length of the description so far, in bytes.
    pub fn said(&self) -> usize {
        match self.said {
            Some(start) => self.text.len().saturating_sub(start),
            None => 0,
        }
    }

    /// Ends the line.
    pub fn end_line(&mut self) {
        self.add("\n");
    }

    /// The text since it was cleared; empty if an allocation failed.
    pub fn text(&self) -> &str {
        if self.is_refused {
            ""
        } else {
            self.text.as_str()
        }
    }

    /// Forgets the lines up to here.
    pub fn clear(&mut self) {
        self.text.clear();
    }

    /// `Memory` if an allocation failed.
    pub fn finish(self) -> Result<(), Memory> {
        if self.is_refused { Err(Memory) } else { Ok(()) }
    }
}
