//! A case, as it is read from a file line by line.

use crate::growth::Growth;
use std::alloc::Global;

/// A case: its kind, its name, its input and the expected answer. Each line of input and answer ends with a line feed.
#[derive(Drop)]
pub struct Case {
    /// The kind of the cases from here on.
    pub kind: String,
    /// The name of the current case.
    pub name: String,
    /// Its input.
    pub input: String,
    answer: String,
    /// Whether a case has begun since the last kind.
    pub is_begun: bool,
    growth: Growth,
}

/// The text of a line of the answer, which follows `= `.
fn said(line: &str) -> &str {
    let text = line.strip_prefix('=').unwrap_or(line);
    text.strip_prefix(' ').unwrap_or(text)
}

impl Case {
    /// The state before the first line: no case and no kind.
    pub fn new(alloc: Global) -> Case {
        Case {
            kind: String::new(alloc),
            name: String::new(alloc),
            input: String::new(alloc),
            answer: String::new(alloc),
            is_begun: false,
            growth: Growth::new(alloc),
        }
    }

    /// Whether an allocation failed for this case or one before it.
    pub fn is_refused(&self) -> bool {
        self.growth.is_refused()
    }

    /// The expected answer, without the line feed at its end.
    pub fn wanted(&self) -> &str {
        let answer = self.answer.as_str();
        answer.strip_suffix('\n').unwrap_or(answer)
    }

    /// Begins a kind: the cases from here on are of this kind.
    fn begin_kind(&mut self, kind: &str) {
        self.is_begun = false;
        self.growth.replace(&mut self.kind, kind);
    }

    /// Begins a case with this name.
    fn begin_case(&mut self, name: &str) {
        self.is_begun = true;
        self.input.clear();
        self.answer.clear();
        self.growth.replace(&mut self.name, name);
    }

    /// Takes a line that begins a kind (`[kind]`) or a case.
    pub fn begin(&mut self, line: &str) {
        match kind_of(line) {
            Some(kind) => self.begin_kind(kind),
            None => self.begin_case(line),
        }
    }

    /// Appends a line of the input, which begins with two blanks, or of the answer.
    pub fn add(&mut self, line: &str) {
        match line.strip_prefix("  ") {
            Some(text) => self.growth.add_line(&mut self.input, text),
            None => self.growth.add_line(&mut self.answer, said(line)),
        }
    }
}

/// Whether a line belongs to the current case: it is a line of its input or answer.
pub fn belongs(line: &str) -> bool {
    line.starts_with("  ") || line.starts_with('=')
}

/// Whether a line is empty or a comment.
pub fn is_silent(line: &str) -> bool {
    line.is_empty() || line.starts_with('#')
}

/// The kind that a line begins. None if it begins none.
fn kind_of(line: &str) -> Option<&str> {
    line.strip_prefix('[')?.strip_suffix(']')
}
