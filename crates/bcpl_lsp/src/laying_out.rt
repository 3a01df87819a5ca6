//! The layout of a whole document.

use crate::document::{Document, sources_of};
use crate::json_values::JsonArray;
use crate::reply::{Reply, RequestError};
use bc_word::Memory;
use bcpl_format::{FormatError, Style, formatted};
use serde_json::Value;
use std::alloc::Global;

/// The number of bytes of the lines with which both texts begin.
fn common_start(left: &[u8], right: &[u8]) -> usize {
    let mut start: usize = 0;
    for (index, (a, b)) in left.iter().zip(right.iter()).enumerate() {
        if a != b {
            break;
        }
        if *a == b'\n' {
            start = index.saturating_add(1);
        }
    }
    start
}

/// The number of bytes of the lines with which both texts end; all of a text if the other one ends with it.
fn common_end(left: &[u8], right: &[u8]) -> usize {
    let mut end: usize = 0;
    for (count, (a, b)) in left.iter().rev().zip(right.iter().rev()).enumerate() {
        if a != b {
            return end;
        }
        if *a == b'\n' {
            end = count;
        }
    }
    left.len().min(right.len())
}

/// The edit that makes another text of a document's: of the lines from the first to the last one that differ, so that an
/// editor keeps its place in the others. No edit if both are the same.
fn edits_to(alloc: Global, document: &Document, text: &[u8]) -> Result<Value, Memory> {
    let old = document.text();
    let mut edits = JsonArray::new(alloc);
    if text != old {
        let start = common_start(old, text);
        let old_rest = old.get(start..).unwrap_or(b"");
        let rest = text.get(start..).unwrap_or(b"");
        let end = common_end(old_rest, rest);
        let new = rest.get(..rest.len().saturating_sub(end)).unwrap_or(b"");
        if let Ok(new) = std::str::from_utf8(new) {
            edits.add(document.edit(alloc, start, old.len().saturating_sub(end), new));
        }
    }
    edits.finish()
}

/// The answer to `textDocument/formatting`: what `bcpl format` gives. Returns `Memory` if an allocation fails.
pub fn formatting(alloc: Global, document: &Document) -> Result<Reply, Memory> {
    let sources = sources_of(alloc, document.files.as_slice())?;
    if sources.is_empty() {
        return Ok(Reply::Result(Value::Null));
    }
    let style = Style {
        width: Style::WIDTH,
    };
    match formatted(alloc, sources.as_slice(), 0, style) {
        Ok(text) => Ok(Reply::Result(edits_to(alloc, document, text.as_slice())?)),
        Err(FormatError::Memory) => Err(Memory),
        Err(_) => Ok(Reply::Error(RequestError::Failed(
            "the source has a fault, so its layout isn't changed",
        ))),
    }
}
