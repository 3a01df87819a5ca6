//! A report while it is being written: places with excerpts, sentences, and helps.

use crate::placed::{Placed, line_of};
use bc_text::print;
use bc_text_items::{Item, Segment};
use bc_word::Memory;
use bcpl_places::{Excerpt, column_at};
use std::alloc::Global;

/// How many characters of a name are printed.
const SHOWN: usize = 40;

/// What fills a `{}` of a sentence.
#[derive(Clone, Copy)]
pub enum Fill<'a> {
    /// This text.
    Text(&'a str),
    /// Bytes, each as the character with its code.
    Letters(&'a [u8]),
    /// A name, cut off after `SHOWN` characters.
    Front(&'a str),
    /// This number in decimal.
    Number(u128),
    /// An item as a text has it.
    Item(&'a Item),
    /// The byte at an offset, described in words; `None` is the end of the text.
    Found(Option<u8>),
}

/// A report while it is being written.
#[derive(Drop)]
pub struct Report {
    alloc: Global,
    lines: String,
}

/// An item's line in a text, followed by the line that ends a segment; empty if it can't be printed.
fn printed(alloc: Global, item: Item) -> Result<Vec<u8>, Memory> {
    let mut items = Vec::new(alloc);
    items.push(item)?;
    let mut printed = Vec::new(alloc);
    if print(&Segment::new(items), &mut printed).is_err() {
        printed.truncate(0);
    }
    Ok(printed)
}

/// The bytes before the first line feed.
fn first_line(bytes: &[u8]) -> &[u8] {
    for (at, byte) in bytes.iter().enumerate() {
        if *byte == b'\n' {
            return bytes.get(..at).unwrap_or(bytes);
        }
    }
    bytes
}

impl Report {
    /// An empty report.
    pub fn new(alloc: Global) -> Report {
        Report {
            alloc,
            lines: String::new(alloc),
        }
    }

    /// The allocator of the report.
    pub fn alloc(&self) -> Global {
        self.alloc
    }

    /// Appends this text. Returns `Memory` if an allocation fails, as do all functions below.
    pub fn text(&mut self, text: &str) -> Result<(), Memory> {
        Ok(self.lines.push_str(text)?)
    }

    /// Appends bytes, each as the character with its code.
    fn letters(&mut self, letters: &[u8]) -> Result<(), Memory> {
        for letter in letters {
            self.lines.push(char::from(*letter))?;
        }
        Ok(())
    }

    /// Appends a name, cut off after `SHOWN` characters.
    fn front(&mut self, name: &str) -> Result<(), Memory> {
        for (index, character) in name.chars().enumerate() {
            if index >= SHOWN {
                return self.text("...");
            }
            self.lines.push(character)?;
        }
        Ok(())
    }

    /// Appends a number in decimal.
    fn number(&mut self, number: u128) -> Result<(), Memory> {
        write!(self.lines, "{number}")?;
        Ok(())
    }

    /// Appends an item as a text has it.
    fn item(&mut self, item: &Item) -> Result<(), Memory> {
        let printed = printed(self.alloc, *item)?;
        self.letters(first_line(printed.as_slice()))
    }

    /// Appends a byte that a terminal can show.
    fn sign(&mut self, byte: u8) -> Result<(), Memory> {
        let sign = char::from(byte);
        write!(self.lines, "`{sign}`")?;
        Ok(())
    }

    /// Appends a byte by its number.
    fn byte(&mut self, byte: u8) -> Result<(), Memory> {
        write!(self.lines, "the byte {byte}")?;
        Ok(())
    }

    /// Appends a description of a byte: the byte between quotes if a terminal can show it, else its number.
    fn found(&mut self, byte: Option<u8>) -> Result<(), Memory> {
        match byte {
            Some(byte) if byte.is_ascii_graphic() => self.sign(byte),
            Some(b'\n' | b'\r') => self.text("the end of the line"),
            Some(b' ') => self.text("a space"),
            Some(byte) => self.byte(byte),
            None => self.text("nothing"),
        }
    }

    /// Appends what fills one `{}`.
    fn part(&mut self, part: Fill<'_>) -> Result<(), Memory> {
        match part {
            Fill::Text(text) => self.text(text),
            Fill::Letters(letters) => self.letters(letters),
            Fill::Front(name) => self.front(name),
            Fill::Number(number) => self.number(number),
            Fill::Item(item) => self.item(item),
            Fill::Found(byte) => self.found(byte),
        }
    }

    /// Appends the part with this index, if there is one.
    fn nth(&mut self, parts: &[Fill<'_>], index: usize) -> Result<(), Memory> {
        match parts.get(index) {
            Some(part) => self.part(*part),
            None => Ok(()),
        }
    }

    /// Appends a sentence in which each `{}` is replaced by the next of these parts.
    pub fn say(&mut self, sentence: &str, parts: &[Fill<'_>]) -> Result<(), Memory> {
        let mut at: usize = 0;
        for text in sentence.split("{}") {
            if at > 0 {
                self.nth(parts, at - 1)?;
            }
            self.text(text)?;
            at = at.saturating_add(1);
        }
        Ok(())
    }

    /// Appends a sentence as a line.
    pub fn line(&mut self, sentence: &str, parts: &[Fill<'_>]) -> Result<(), Memory> {
        self.say(sentence, parts)?;
        self.text("\n")
    }

    /// Appends `PATH:LINE:COLUMN: `. A sentence must follow, and then a call of `end_place`.
    pub fn begin_place(&mut self, placed: Placed<'_>) -> Result<(), Memory> {
        let Placed { text, stretch } = placed;
        let at = stretch.start.min(text.bytes.len());
        let line = line_of(placed);
        let start = line.start.min(at);
        let column = column_at(self.alloc, &text.bytes[start..], at - start)?;
        self.say(
            "{}:{}:{}: ",
            &[
                Fill::Text(text.path),
                Fill::Number(line.number as u128),
                Fill::Number(column as u128),
            ],
        )
    }

    /// Ends the sentence on a place, and appends the line of the text with a mark below the stretch.
    pub fn end_place(&mut self, placed: Placed<'_>) -> Result<(), Memory> {
        let Placed { text, stretch } = placed;
        let line = line_of(placed);
        let excerpt = Excerpt::new(self.alloc, text.bytes, line, stretch.start, stretch.end)?;
        writeln!(self.lines, "\n{excerpt}")?;
        Ok(())
    }

    /// Appends `PATH:LINE:COLUMN: SENTENCE`, and the line of the text with a mark below the stretch.
    pub fn place(
        &mut self,
        placed: Placed<'_>,
        sentence: &str,
        parts: &[Fill<'_>],
    ) -> Result<(), Memory> {
        self.begin_place(placed)?;
        self.say(sentence, parts)?;
        self.end_place(placed)
    }

    /// Appends a place, and what to do.
    pub fn fault(
        &mut self,
        placed: Placed<'_>,
        sentence: &str,
        parts: &[Fill<'_>],
        help: &str,
    ) -> Result<(), Memory> {
        self.place(placed, sentence, parts)?;
        self.help(help)
    }

    /// Appends a related place.
    pub fn note(&mut self, placed: Placed<'_>, sentence: &str) -> Result<(), Memory> {
        self.text("  ")?;
        self.place(placed, sentence, &[])
    }

    /// Appends what to do.
    pub fn help(&mut self, help: &str) -> Result<(), Memory> {
        self.line("  help: {}", &[Fill::Text(help)])
    }

    /// The finished report.
    pub fn into_text(self) -> String {
        self.lines
    }
}
