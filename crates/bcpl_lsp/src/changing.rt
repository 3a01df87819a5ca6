//! Changes of a document's text.

use crate::document::Document;
use crate::positions::position_in;
use bc_word::Memory;
use serde_json::Value;
use std::alloc::Global;

/// A text in which the bytes from one offset to another are replaced.
fn replaced(
    alloc: Global,
    text: &[u8],
    stretch: (usize, usize),
    new: &str,
) -> Result<Vec<u8>, Memory> {
    let (start, end) = stretch;
    let mut changed = Vec::from_slice(alloc, text.get(..start).unwrap_or(b""))?;
    changed.extend_from_slice(new.as_bytes())?;
    changed.extend_from_slice(text.get(end..).unwrap_or(b""))?;
    Ok(changed)
}

/// The stretch that a range names; the whole text without a range, `None` if it can't be read.
fn stretch_of(document: &Document, change: &Value) -> Option<(usize, usize)> {
    let Some(range) = change.get("range") else {
        return Some((0, document.text().len()));
    };
    let start = document.offset(position_in(range.get("start")?)?);
    let end = document.offset(position_in(range.get("end")?)?);
    Some((start.min(end), end.max(start)))
}

/// Applies one change; one that can't be read is passed over.
fn change_once(alloc: Global, document: &mut Document, change: &Value) -> Result<(), Memory> {
    let Some(new) = change.get("text").and_then(Value::as_str) else {
        return Ok(());
    };
    let Some(stretch) = stretch_of(document, change) else {
        return Ok(());
    };
    let text = replaced(alloc, document.text(), stretch, new)?;
    document.set_text(alloc, text)
}

/// Applies the changes of `textDocument/didChange`, in order. Returns `Memory` if an allocation fails.
pub fn change(alloc: Global, document: &mut Document, changes: &[Value]) -> Result<(), Memory> {
    for each in changes {
        change_once(alloc, document, each)?;
    }
    Ok(())
}
