//! The answer of a case, as text.

use crate::growth::Growth;
use bcpl_show::ShownBytes;
use std::alloc::Global;
use std::fmt;

/// A text that is appended to, and remembers a failed allocation. Once one has failed, its text is void.
#[derive(Drop)]
pub struct Answer {
    text: String,
    /// The allocator, which remembers whether an allocation failed.
    pub growth: Growth,
}

impl Answer {
    /// An empty answer.
    pub fn new(alloc: Global) -> Answer {
        Answer {
            text: String::new(alloc),
            growth: Growth::new(alloc),
        }
    }

    /// The allocator, for lists that an answer needs.
    pub fn alloc(&self) -> Global {
        self.growth.alloc()
    }

    /// Records that an allocation failed.
    pub fn refuse(&mut self) {
        self.growth.refuse();
    }

    /// The text up to here.
    pub fn text(&self) -> &str {
        self.text.as_str()
    }

    /// The text. A failed allocation is recorded in `growth` too.
    pub fn into_text(self, growth: &mut Growth) -> String {
        if self.growth.is_refused() {
            growth.refuse();
        }
        self.text
    }

    /// Appends a value as it is displayed.
    pub fn show<D: fmt::Display>(&mut self, shown: &D) {
        if write!(self.text, "{shown}").is_err() {
            self.refuse();
        }
    }

    /// Appends the name of a value, as its `Debug` has it.
    pub fn name<D: fmt::Debug>(&mut self, named: &D) {
        if write!(self.text, "{named:?}").is_err() {
            self.refuse();
        }
    }

    /// Appends a text.
    pub fn say(&mut self, text: &str) {
        if self.text.push_str(text).is_err() {
            self.refuse();
        }
    }

    /// Appends a number in decimal digits.
    pub fn number(&mut self, number: u64) {
        self.show(&number);
    }

    /// Appends a text, and then `true` or `false`.
    pub fn truth(&mut self, text: &str, truth: bool) {
        self.say(text);
        self.say(if truth { "true" } else { "false" });
    }

    /// Appends a text, and then a number.
    pub fn numbered(&mut self, text: &str, number: u64) {
        self.say(text);
        self.number(number);
    }

    /// Appends a text, and then a signed number.
    pub fn signed(&mut self, text: &str, number: i16) {
        self.say(text);
        self.show(&number);
    }

    /// Appends bytes as text; those that can't be shown are escaped.
    pub fn bytes(&mut self, bytes: &[u8]) {
        let bytes = ShownBytes(bytes);
        self.show(&bytes);
    }

    /// Appends a separator unless the text is empty.
    pub fn go_on(&mut self, between: &str) {
        if !self.text.is_empty() {
            self.say(between);
        }
    }

    /// Appends the number with this index, if there is one.
    fn nth(&mut self, numbers: &[u64], index: usize) {
        match numbers.get(index) {
            Some(number) => self.number(*number),
            None => {}
        }
    }

    /// Appends a sentence in which each `{}` is replaced by the next of these numbers.
    pub fn sentence(&mut self, sentence: &str, numbers: &[u64]) {
        let mut at: usize = 0;
        for text in sentence.split("{}") {
            if at > 0 {
                self.nth(numbers, at - 1);
            }
            self.say(text);
            at = at.saturating_add(1);
        }
    }
}
