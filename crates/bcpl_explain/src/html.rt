//! A page of HTML while it is written, with its data as JSON.
use bc_rules_defs::Rule;
use bc_word::Memory;
use itoa::Buffer;
use std::alloc::Global;
use std::str;
use ucd_props::is_bidi_control;

/// A part of a page.
#[derive(Clone, Copy)]
pub enum Fragment<'a> {
    /// Markup, JSON or a script, as it is.
    Mark(&'a str),
    /// Bytes as a JSON string, with its quotes.
    Quoted(&'a [u8]),
    /// A number.
    Number(u64),
    /// The name of a rule.
    Rule(Rule),
}

/// A page while it is written. Once an allocation has failed, its text is void.
#[derive(Drop)]
pub struct Html {
    alloc: Global,
    text: Vec<u8>,
    is_refused: bool,
}

impl Html {
    /// An empty page.
    pub fn new(alloc: Global) -> Html {
        Html {
            alloc,
            text: Vec::new(alloc),
            is_refused: false,
        }
    }

    /// The allocator of the page.
    pub fn alloc(&self) -> Global {
        self.alloc
    }

    /// Notes that an allocation failed.
    pub fn refuse(&mut self) {
        self.is_refused = true;
    }

    /// A number, or 0 after noting that an allocation failed.
    pub fn counted(&mut self, found: Result<u64, Memory>) -> u64 {
        match found {
            Ok(count) => count,
            Err(_) => {
                self.refuse();
                0
            }
        }
    }

    /// Adds bytes as they are.
    fn put(&mut self, bytes: &[u8]) {
        if self.text.extend_from_slice(bytes).is_err() {
            self.refuse();
        }
    }

    /// Adds markup as it is.
    pub fn mark(&mut self, markup: &str) {
        self.put(markup.as_bytes());
    }

    /// Adds a part of the template.
    pub fn template(&mut self, texts: &[&str]) {
        for text in texts {
            self.mark(text);
        }
    }

    /// Adds text, with the signs of markup escaped, and a question mark for each byte of a control character and of one
    /// that changes the direction of text.
    pub fn tell(&mut self, text: &str) {
        for character in text.chars() {
            match character {
                '<' => self.mark("&lt;"),
                '>' => self.mark("&gt;"),
                '&' => self.mark("&amp;"),
                '"' => self.mark("&quot;"),
                _ => self.plain(character),
            }
        }
    }

    /// Adds a character as it is, or a question mark for each byte of one that must not be shown.
    fn plain(&mut self, character: char) {
        if character.is_control() || is_bidi_control(character) {
            for _ in 0..character.len_utf8() {
                self.mark("?");
            }
        } else {
            let mut bytes = [0u8; 4];
            self.mark(character.encode_utf8(&mut bytes));
        }
    }

    /// Adds bytes as a JSON string. Escapes what could end the string or the script around it. Writes a question mark
    /// for each byte of a control character and of one that changes the direction of text, and for each byte from 128 on
    /// if the bytes are not valid UTF-8.
    pub fn quoted(&mut self, bytes: &[u8]) {
        self.mark("\"");
        match str::from_utf8(bytes) {
            Ok(text) => {
                for character in text.chars() {
                    self.sign(character);
                }
            }
            Err(_) => {
                for byte in bytes {
                    self.sign(if *byte < 128 { char::from(*byte) } else { '?' });
                }
            }
        }
        self.mark("\"");
    }

    /// Adds a character of a JSON string.
    fn sign(&mut self, character: char) {
        match character {
            '"' => self.mark("\\\""),
            '\\' => self.mark("\\\\"),
            '<' => self.mark("\\u003c"),
            '>' => self.mark("\\u003e"),
            '&' => self.mark("\\u0026"),
            '\t' => self.mark("\\t"),
            _ => self.plain(character),
        }
    }

    /// Adds a number.
    pub fn number(&mut self, number: u64) {
        let mut buffer = Buffer::new();
        self.put(buffer.format(number).as_bytes());
    }

    /// Adds the name of a rule.
    fn rule(&mut self, rule: Rule) {
        self.put(&[rule.letter()]);
        self.number(u64::from(rule.number()));
    }

    /// Adds a part.
    fn part(&mut self, part: Fragment<'_>) {
        match part {
            Fragment::Mark(markup) => self.mark(markup),
            Fragment::Quoted(bytes) => self.quoted(bytes),
            Fragment::Number(number) => self.number(number),
            Fragment::Rule(rule) => self.rule(rule),
        }
    }

    /// Adds these parts in order.
    pub fn all(&mut self, parts: &[Fragment<'_>]) {
        for part in parts {
            self.part(*part);
        }
    }

    /// Adds a list of numbers as JSON, with its brackets.
    pub fn numbers(&mut self, list: &[usize]) {
        self.mark("[");
        for (index, number) in list.iter().enumerate() {
            self.separate(index);
            self.number(*number as u64);
        }
        self.mark("]");
    }

    /// Adds the comma before the element of a list with this index.
    pub fn separate(&mut self, index: usize) {
        if index > 0 {
            self.mark(",");
        }
    }

    /// The text of the page, or `Memory` if an allocation failed.
    pub fn into_text(self) -> Result<Vec<u8>, Memory> {
        if self.is_refused {
            return Err(Memory);
        }
        Ok(self.text)
    }
}
