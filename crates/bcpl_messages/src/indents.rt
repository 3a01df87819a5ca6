//! The indentation of section brackets, which shows where one is probably missing or too many.

use crate::brackets::{close, tag_at};
use crate::read::Read;
use crate::words::is_at;
use bc_lex_tokens::Symbol;
use bc_word::Memory;
use bstr::ByteSlice;
use std::alloc::Global;

/// A `$)` without a tag that begins its line, and the `$(` that it closes.
#[derive(Clone, Copy)]
pub struct Closing {
    /// The index of the `$(`.
    pub open: usize,
    /// The indentation of the line of the `$(`, in bytes.
    pub indent: usize,
    /// The index of the `$)`.
    pub index: usize,
    /// The indentation of the `$)`, in bytes.
    pub column: usize,
    /// Whether the `$)` is indented no further than the line of the next `$(` around these two.
    pub is_of_outer: bool,
}

impl Closing {
    /// Whether the `$)` is probably meant for a bracket around the one that it closes.
    fn is_stray(&self) -> bool {
        self.column < self.indent && self.is_of_outer
    }

    /// Whether the `$)` is probably too many, given the indentation of a later `$)` that closes nothing.
    fn is_surplus(&self, last: usize) -> bool {
        self.indent == last && self.column > last
    }
}

/// How many bytes are between the beginning of its line and the token with this index.
fn column_of(read: Read<'_, '_>, index: usize) -> usize {
    let Some(token) = read.tokens.get(index) else {
        return 0;
    };
    let text = read.source(token.file).get(..token.start).unwrap_or(b"");
    let line = match text.rfind_byte(b'\n') {
        Some(end) => end.saturating_add(1),
        None => 0,
    };
    text.len().saturating_sub(line)
}

/// Whether a line begins with the token with this index.
fn begins_line(read: Read<'_, '_>, index: usize) -> bool {
    match read.tokens.get(index) {
        Some(token) => token.line_before || index == 0,
        None => false,
    }
}

/// What the `$)` at an index closes, if it has no tag and begins its line. `open` and `indents` have the open brackets
/// and the indentations of their lines, and `column` is that of the `$)`.
fn closing_at(
    read: Read<'_, '_>,
    index: usize,
    column: usize,
    open: &[usize],
    indents: &[usize],
) -> Option<Closing> {
    if !begins_line(read, index) || !tag_at(read.tokens, index).is_empty() {
        return None;
    }
    let open = *open.last()?;
    let (indent, outer) = indents.split_last()?;
    Some(Closing {
        open,
        indent: *indent,
        index,
        column,
        is_of_outer: match outer.last() {
            Some(around) => column <= *around,
            None => false,
        },
    })
}

/// All `$)` before the token `end` that have no tag and begin their line. Returns `Memory` if an allocation fails.
fn closings(alloc: Global, read: Read<'_, '_>, end: usize) -> Result<Vec<Closing>, Memory> {
    let mut closings = Vec::new(alloc);
    let mut open: Vec<usize> = Vec::new(alloc);
    let mut indents: Vec<usize> = Vec::new(alloc);
    let mut indent: usize = 0;
    for index in 0..end.min(read.tokens.len()) {
        if begins_line(read, index) {
            indent = column_of(read, index);
        }
        if is_at(read.tokens, index, Symbol::OpenSection) {
            open.push(index)?;
            indents.push(indent)?;
        } else if is_at(read.tokens, index, Symbol::CloseSection) {
            if let Some(closing) = closing_at(
                read,
                index,
                indent,
                open.as_slice(),
                indents.as_slice(),
            ) {
                closings.push(closing)?;
            }
            close(&mut open, read.tokens, tag_at(read.tokens, index));
            indents.truncate(open.len());
        }
    }
    Ok(closings)
}

/// The first `$)` that is probably meant for a bracket around the one that it closes. Returns `Memory` if an allocation
/// fails.
pub fn stray_closing(alloc: Global, read: Read<'_, '_>) -> Result<Option<Closing>, Memory> {
    let closings = closings(alloc, read, read.tokens.len())?;
    for closing in &closings {
        if closing.is_stray() {
            return Ok(Some(*closing));
        }
    }
    Ok(None)
}

/// The last `$)` that is probably too many, so that the one at an index closes nothing. Returns `Memory` if an
/// allocation fails.
pub fn surplus_closing(
    alloc: Global,
    read: Read<'_, '_>,
    index: usize,
) -> Result<Option<Closing>, Memory> {
    if !begins_line(read, index) {
        return Ok(None);
    }
    let last = column_of(read, index);
    let mut found = None;
    let closings = closings(alloc, read, index)?;
    for closing in &closings {
        if closing.is_surplus(last) {
            found = Some(*closing);
        }
    }
    Ok(found)
}
