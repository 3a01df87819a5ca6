//! A place in a source as it is printed: file, line and columns.

use bc_lex::Source;
use bc_word::Memory;
use bcpl_messages::Named;
use bcpl_places::{LineIndex, Span, column_at};
use std::alloc::Global;

/// A place in a file. Lines and columns are counted from 1.
#[derive(Clone, Copy)]
pub struct Place<'a> {
    /// The path of the file.
    pub file: &'a str,
    /// The line.
    pub line: u64,
    /// The first column.
    pub column: u64,
    /// The column after the last one; that of the end of the line if the place goes on in the next.
    pub end: u64,
}

/// The text of a source; empty if there is none.
fn text_of<'s>(sources: &[Source<'s>], file: usize) -> &'s [u8] {
    match sources.get(file) {
        Some(source) => source.text,
        None => b"",
    }
}

/// The column of an offset in the line that begins at `start`.
fn column(alloc: Global, text: &[u8], start: usize, at: usize) -> Result<u64, Memory> {
    let start = start.min(text.len());
    let column = column_at(alloc, &text[start..], at.saturating_sub(start))?;
    Ok(column as u64)
}

/// The place of a span. The index has the lines of the sources. Returns `Memory` if an allocation fails.
pub fn place_of<'a>(
    alloc: Global,
    named: Named<'a, '_>,
    index: &mut LineIndex,
    span: Span,
) -> Result<Place<'a>, Memory> {
    let text = text_of(named.sources, span.file);
    let at = span.start.min(text.len());
    let line = index.line(alloc, span.file, text, at)?;
    let end = span.end.min(line.end).max(at);
    let file = match named.paths.get(span.file) {
        Some(path) => *path,
        None => "",
    };
    Ok(Place {
        file,
        line: line.number as u64,
        column: column(alloc, text, line.start, at)?,
        end: column(alloc, text, line.start, end)?,
    })
}
