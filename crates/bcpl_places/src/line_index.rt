//! The lines of several texts, found by an index, so that the lines of many places don't take a pass over the text each.

use crate::line::Line;
use bc_word::Memory;
use std::alloc::Global;

/// The lines of several texts. A text is read when a place in it is first asked for.
#[derive(Drop)]
pub struct LineIndex {
    /// For each text the offsets at which its lines begin; none if it wasn't read yet.
    starts: Vec<Vec<usize>>,
}

/// Adds the offsets at which the lines of a text begin.
fn add_starts(starts: &mut Vec<usize>, text: &[u8]) -> Result<(), Memory> {
    starts.push(0)?;
    for (at, byte) in text.iter().enumerate() {
        if *byte == b'\n' {
            starts.push(at.saturating_add(1))?;
        }
    }
    Ok(())
}

/// The end of a line that ends before this offset, without a carriage return.
fn end_before(text: &[u8], next: usize) -> usize {
    let end = next.saturating_sub(1);
    match end.checked_sub(1) {
        Some(last) if text.get(last).copied() == Some(b'\r') => last,
        _ => end,
    }
}

/// The line of an offset of a text whose lines begin there.
fn line_in(text: &[u8], starts: &[usize], at: usize) -> Line {
    let number = starts.partition_point(|start| *start <= at);
    let next = match starts.get(number) {
        Some(next) => *next,
        None => text.len().saturating_add(1),
    };
    let start = match number.checked_sub(1) {
        Some(last) => starts.get(last).copied().unwrap_or(0),
        None => 0,
    };
    Line {
        number,
        start,
        end: end_before(text, next).max(start),
    }
}

impl LineIndex {
    /// An index of no text.
    pub fn new(alloc: Global) -> LineIndex {
        LineIndex {
            starts: Vec::new(alloc),
        }
    }

    /// The line of an offset of the text with this number. Returns `Memory` if an allocation fails.
    pub fn line(
        &mut self,
        alloc: Global,
        file: usize,
        text: &[u8],
        at: usize,
    ) -> Result<Line, Memory> {
        for _ in self.starts.len()..file.saturating_add(1) {
            self.starts.push(Vec::new(alloc))?;
        }
        if let Some(starts) = self.starts.get_mut(file)
            && starts.is_empty()
        {
            add_starts(starts, text)?;
        }
        let at = at.min(text.len());
        Ok(match self.starts.get(file) {
            Some(starts) => line_in(text, starts.as_slice(), at),
            None => line_in(text, &[], at),
        })
    }
}
