//! The sources of a program by index, and the lines of a text by number.
use bc_lex::Source;
use bc_lex_tokens::Token;
use bc_word::Memory;
use bcpl_places::ColumnCounter;
use std::alloc::Global;

/// The sources of a program and the paths to print for them.
#[derive(Clone, Copy)]
pub struct Files<'a, 's> {
    /// The sources.
    pub sources: &'a [Source<'s>],
    /// The path of each source.
    pub paths: &'a [&'a str],
    /// The number of sources that belong to the library; they come first.
    pub library: usize,
}

impl<'a, 's> Files<'a, 's> {
    /// The text of a source, or an empty text if there is no such source.
    pub fn text(&self, file: usize) -> &'s [u8] {
        match self.sources.get(file) {
            Some(source) => source.text,
            None => b"",
        }
    }

    /// The name by which a GET finds a source.
    pub fn name(&self, file: usize) -> &'s [u8] {
        match self.sources.get(file) {
            Some(source) => source.name,
            None => b"",
        }
    }

    /// Whether a source belongs to the library.
    pub fn is_of_library(&self, file: usize) -> bool {
        file < self.library
    }

    /// The path of a source.
    pub fn path(&self, file: usize) -> &'a str {
        match self.paths.get(file) {
            Some(path) => path,
            None => "",
        }
    }
}

/// The offsets at which the lines of a text begin.
#[derive(Drop)]
pub struct Lines {
    starts: Vec<usize>,
}

impl Lines {
    /// Finds the lines of a text. Fails only if an allocation fails.
    pub fn new(alloc: Global, text: &[u8]) -> Result<Lines, Memory> {
        let mut starts: Vec<usize> = Vec::new(alloc);
        starts.push(0)?;
        for (at, byte) in text.iter().enumerate() {
            if *byte == b'\n' {
                starts.push(at.saturating_add(1))?;
            }
        }
        Ok(Lines { starts })
    }

    /// The number, counted from 1, of the line with the byte at this offset.
    pub fn number_at(&self, at: usize) -> usize {
        match self.starts.as_slice().binary_search(&at) {
            Ok(index) => index.saturating_add(1),
            Err(index) => index,
        }
    }

    /// The number of lines of the text. An empty line after the last line feed does not count.
    pub fn count(&self, text: &[u8]) -> usize {
        let count = self.starts.len();
        match text.last() {
            Some(byte) if *byte != b'\n' => count,
            _ => count.saturating_sub(1),
        }
    }

    /// The offset at which the line with this number begins, or the end of the text.
    fn start(&self, text: &[u8], number: usize) -> usize {
        match self.starts.as_slice().get(number.saturating_sub(1)) {
            Some(start) => *start,
            None => text.len(),
        }
    }

    /// The line with this number, without a line feed or a carriage return and line feed at its end.
    pub fn line<'t>(&self, text: &'t [u8], number: usize) -> &'t [u8] {
        let from = self.start(text, number).min(text.len());
        let to = self.start(text, number.saturating_add(1)).min(text.len());
        let line = &text[from..to.max(from)];
        let line = line.strip_suffix(b"\n").unwrap_or(line);
        line.strip_suffix(b"\r").unwrap_or(line)
    }

    /// The number of bytes that precede the byte at this offset in its line.
    pub fn bytes_before(&self, text: &[u8], at: usize) -> usize {
        at.saturating_sub(self.start(text, self.number_at(at)))
    }

    /// The column of the first byte of a token of a file, counted from 1 as a terminal shows it. `text` is the file's.
    pub fn column_of(&self, columns: &mut ColumnCounter, text: &[u8], token: &Token<'_>) -> usize {
        let start = self.start(text, self.number_at(token.start));
        columns.column_at(text, token.file, start, token.start)
    }
}
