//! A source that an editor has open, with the files that it gets and what its names mean.

use crate::costs::Cost;
use crate::finding::Finding;
use crate::json_values::JsonObject;
use crate::names::{Names, names_of};
use crate::positions::{Lines, Position, offset_of, range_of};
use bc_lex::{Source, Token, lex};
use bc_word::Memory;
use serde_json::Value;
use std::alloc::Global;

/// A text with a name.
#[derive(Drop)]
pub struct File {
    /// The name by which GET finds it.
    pub name: String,
    /// The path of the file; empty for a header of the library.
    pub path: String,
    /// Its content.
    pub text: Vec<u8>,
    /// Its lines.
    pub lines: Lines,
}

impl File {
    /// A file with this content. Returns `Memory` if an allocation fails.
    pub fn new(alloc: Global, name: &str, path: &str, text: Vec<u8>) -> Result<File, Memory> {
        let lines = Lines::of(alloc, text.as_slice())?;
        Ok(File {
            name: String::from_str(alloc, name)?,
            path: String::from_str(alloc, path)?,
            text,
            lines,
        })
    }

    /// The bytes from one offset to another; empty if the file has none there.
    pub fn stretch(&self, start: usize, end: usize) -> &[u8] {
        self.text.as_slice().get(start..end).unwrap_or(b"")
    }

    /// The range of a stretch. Returns `Memory` if an allocation fails.
    pub fn range(&self, alloc: Global, start: usize, end: usize) -> Result<Value, Memory> {
        range_of(alloc, self.text.as_slice(), &self.lines, (start, end))
    }

    /// The offset of a position.
    pub fn offset(&self, position: Position) -> usize {
        offset_of(self.text.as_slice(), self.lines.starts.as_slice(), position)
    }
}

/// A source that an editor has open.
#[derive(Drop)]
pub struct Document {
    /// The name that the editor has for it.
    pub uri: String,
    /// The number of its state, as the editor counts them.
    pub version: Option<i64>,
    /// Its files: first its own text, then those that GET can name.
    pub files: Vec<File>,
    /// What its names mean.
    pub names: Names,
    /// What is wrong with it, as far as that was computed.
    pub findings: Vec<Finding>,
    /// How many words the code of its expressions, tests and assignments takes, as far as that was computed; empty if it can't
    /// be built.
    pub costs: Option<Vec<Cost>>,
}

/// The files of a document with this path and text, before it is known what it gets.
fn files_with(alloc: Global, path: &str, text: &str) -> Result<Vec<File>, Memory> {
    let text = Vec::from_slice(alloc, text.as_bytes())?;
    let mut files = Vec::new(alloc);
    files.push(File::new(alloc, path, path, text)?)?;
    Ok(files)
}

impl Document {
    /// A document with this text, and nothing known of it. Returns `Memory` if an allocation fails.
    pub fn new(alloc: Global, uri: &str, path: &str, text: &str) -> Result<Document, Memory> {
        let uri = String::from_str(alloc, uri)?;
        let files = files_with(alloc, path, text)?;
        Ok(Document {
            uri,
            version: None,
            files,
            names: Names::new(alloc),
            findings: Vec::new(alloc),
            costs: None,
        })
    }

    /// Its own text as a file.
    pub fn main(&self) -> Option<&File> {
        self.files.first()
    }

    /// The file with this index.
    pub fn file(&self, index: usize) -> Option<&File> {
        self.files.get(index)
    }

    /// The path of its own file.
    pub fn path(&self) -> &str {
        match self.main() {
            Some(file) => file.path.as_str(),
            None => "",
        }
    }

    /// Its own text.
    pub fn text(&self) -> &[u8] {
        match self.main() {
            Some(file) => file.text.as_slice(),
            None => b"",
        }
    }

    /// The offset that a position in its own text has.
    pub fn offset(&self, position: Position) -> usize {
        match self.main() {
            Some(file) => file.offset(position),
            None => 0,
        }
    }

    /// The range of a stretch of its own text. Returns `Memory` if an allocation fails.
    pub fn range(&self, alloc: Global, start: usize, end: usize) -> Result<Value, Memory> {
        match self.main() {
            Some(file) => file.range(alloc, start, end),
            None => Ok(Value::Null),
        }
    }

    /// The edit that gives a stretch of its own text another text. Returns `Memory` if an allocation fails.
    pub fn edit(
        &self,
        alloc: Global,
        start: usize,
        end: usize,
        text: &str,
    ) -> Result<Value, Memory> {
        let mut object = JsonObject::new(alloc);
        object.add("range", self.range(alloc, start, end));
        object.add_text("newText", text);
        object.finish()
    }

    /// Sets its own text. Returns `Memory` if an allocation fails.
    pub fn set_text(&mut self, alloc: Global, text: Vec<u8>) -> Result<(), Memory> {
        let lines = Lines::of(alloc, text.as_slice())?;
        if let Some(file) = self.files.first_mut() {
            file.text = text;
            file.lines = lines;
        }
        self.costs = None;
        Ok(())
    }

    /// Sets the files that GET can name, and finds what the names mean. Returns `Memory` if an allocation fails.
    pub fn set_headers(&mut self, alloc: Global, headers: Vec<File>) -> Result<(), Memory> {
        self.files.truncate(1);
        for file in headers {
            self.files.push(file)?;
        }
        self.costs = None;
        let sources = sources_of(alloc, self.files.as_slice())?;
        self.names = names_of(alloc, sources.as_slice())?;
        Ok(())
    }
}

/// The files as sources. Returns `Memory` if an allocation fails.
pub fn sources_of(alloc: Global, files: &[File]) -> Result<Vec<Source<'_>>, Memory> {
    let mut sources = Vec::new(alloc);
    for file in files {
        sources.push(Source {
            name: file.name.as_bytes(),
            text: file.text.as_slice(),
        })?;
    }
    Ok(sources)
}

/// The tokens of the first source; none if it has a fault.
pub fn tokens_of<'s>(alloc: Global, sources: &[Source<'s>]) -> Vec<Token<'s>> {
    if sources.is_empty() {
        return Vec::new(alloc);
    }
    match lex(alloc, sources, 0) {
        Ok(tokens) => tokens,
        Err(_) => Vec::new(alloc),
    }
}

/// The tokens of the first source up to an offset; none if these bytes have a fault, as where a string or comment is open.
pub fn tokens_before<'s>(
    alloc: Global,
    files: &'s [File],
    offset: usize,
) -> Result<Vec<Token<'s>>, Memory> {
    let mut sources = sources_of(alloc, files)?;
    if let Some(source) = sources.first_mut() {
        source.text = source.text.get(..offset).unwrap_or(b"");
    }
    Ok(tokens_of(alloc, sources.as_slice()))
}
