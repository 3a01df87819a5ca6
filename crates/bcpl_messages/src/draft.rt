//! A message while it is being composed.

use crate::message::{Message, Note};
use crate::words::push_shown;
use bc_word::Memory;
use bcpl_places::Span;
use std::alloc::Global;

/// What fills a `{}` of a sentence.
#[derive(Clone, Copy)]
pub enum Fill<'a> {
    /// This text.
    Text(&'a str),
    /// The text of a token, cut off if it is long.
    Shown(&'a [u8]),
    /// This number in decimal.
    Number(u64),
}

/// Appends a number in decimal.
fn add_number(text: &mut String, number: u64) -> Result<(), Memory> {
    write!(text, "{number}")?;
    Ok(())
}

/// Appends what fills one `{}`.
fn add_part(text: &mut String, part: Fill<'_>) -> Result<(), Memory> {
    match part {
        Fill::Text(added) => Ok(text.push_str(added)?),
        Fill::Shown(bytes) => push_shown(text, bytes),
        Fill::Number(number) => add_number(text, number),
    }
}

/// Appends the part with this index, if there is one.
fn add_nth(text: &mut String, parts: &[Fill<'_>], index: usize) -> Result<(), Memory> {
    match parts.get(index) {
        Some(part) => add_part(text, *part),
        None => Ok(()),
    }
}

/// Appends a sentence in which each `{}` is replaced by the next of these parts. Returns `Memory` if an allocation
/// fails.
pub fn add_sentence(text: &mut String, sentence: &str, parts: &[Fill<'_>]) -> Result<(), Memory> {
    let mut at: usize = 0;
    for piece in sentence.split("{}") {
        if at > 0 {
            add_nth(text, parts, at - 1)?;
        }
        text.push_str(piece)?;
        at = at.saturating_add(1);
    }
    Ok(())
}

/// A message while it is being composed. It remembers a failed allocation; once one has failed, its contents are void.
#[derive(Drop)]
pub struct Draft {
    alloc: Global,
    message: Message,
    is_refused: bool,
}

impl Draft {
    /// An empty message about a refusal of this main.
    pub fn new(alloc: Global, main: usize) -> Draft {
        Draft {
            alloc,
            message: Message {
                span: None,
                main,
                sentence: String::new(alloc),
                notes: Vec::new(alloc),
                help: None,
            },
            is_refused: false,
        }
    }

    /// The allocator of the message.
    pub fn alloc(&self) -> Global {
        self.alloc
    }

    /// Records that an allocation failed.
    pub fn refuse(&mut self) {
        self.is_refused = true;
    }

    /// The result, or `otherwise` after recording that memory ran out.
    pub fn found<T: Drop>(&mut self, found: Result<T, Memory>, otherwise: T) -> T {
        match found {
            Ok(found) => found,
            Err(_) => {
                self.refuse();
                otherwise
            }
        }
    }

    /// Sets the main that is refused.
    pub fn set_main(&mut self, main: usize) {
        self.message.main = main;
    }

    /// Sets the place of the fault.
    pub fn place(&mut self, span: Span) {
        self.message.span = Some(span);
    }

    /// Appends to the sentence on what is wrong.
    pub fn say(&mut self, sentence: &str, parts: &[Fill<'_>]) {
        if add_sentence(&mut self.message.sentence, sentence, parts).is_err() {
            self.refuse();
        }
    }

    /// A filled sentence, as text to be inserted into others.
    pub fn filled(&mut self, sentence: &str, parts: &[Fill<'_>]) -> String {
        let mut text = String::new(self.alloc);
        if add_sentence(&mut text, sentence, parts).is_err() {
            self.refuse();
        }
        text
    }

    /// Sets the help, replacing an earlier one.
    pub fn help(&mut self, sentence: &str, parts: &[Fill<'_>]) {
        let help = self.filled(sentence, parts);
        self.message.help = Some(help);
    }

    /// Adds a related place and what is there.
    pub fn note(&mut self, span: Span, sentence: &str, parts: &[Fill<'_>]) {
        let sentence = self.filled(sentence, parts);
        if self.message.notes.push(Note { span, sentence }).is_err() {
            self.refuse();
        }
    }

    /// The finished message. Returns `Memory` if an allocation failed.
    pub fn into_message(self) -> Result<Message, Memory> {
        if self.is_refused {
            return Err(Memory);
        }
        Ok(self.message)
    }

    /// Whether its sentence is empty.
    pub fn is_empty(&self) -> bool {
        self.message.sentence.is_empty()
    }

    /// The finished message, or `None` if its sentence is empty. Returns `Memory` if an allocation failed.
    pub fn end(self) -> Result<Option<Message>, Memory> {
        let is_empty = self.message.sentence.is_empty();
        let message = self.into_message()?;
        Ok(if is_empty { None } else { Some(message) })
    }
}
