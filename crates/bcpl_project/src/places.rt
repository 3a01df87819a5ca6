//! Doubtful places: where they are in the old and in the new text, with the lines.

use crate::changes::new_offset;
use crate::new_files::NewFile;
use crate::texts::as_text;
use bc_convert::{Complaint, Fault};
use bc_word::Memory;
use bcpl_places::LineCounter;
use std::alloc::Global;

/// A doubtful place.
#[derive(Drop)]
pub struct Place {
    pub fault: Fault,
    /// The number of its line in the old source and in the new file.
    pub old_line: usize,
    pub new_line: usize,
    /// These lines.
    pub before: String,
    pub after: String,
}

/// The number of the line with an offset, and its text.
fn line_of(
    alloc: Global,
    counter: &mut LineCounter,
    text: &[u8],
    at: usize,
) -> Result<(usize, String), Memory> {
    let line = counter.line_at(text, at);
    let bytes = text.get(line.start..line.end).unwrap_or(&[]);
    Ok((line.number, as_text(alloc, bytes)?))
}

/// The offset in the new text of an offset in the old one.
fn offset_after_rounds(file: &NewFile, at: usize) -> usize {
    let mut offset = new_offset(file.conversion.replacements.as_slice(), at);
    for later in &file.later {
        offset = new_offset(later.as_slice(), offset);
    }
    offset
}

/// The place of a complaint.
fn place_of(
    alloc: Global,
    file: &NewFile,
    counters: &mut [LineCounter; 2],
    complaint: Complaint,
) -> Result<Place, Memory> {
    let at = offset_after_rounds(file, complaint.start);
    let old = file.old.text.as_slice();
    let (old_line, before) = line_of(alloc, &mut counters[0], old, complaint.start)?;
    let new = file.text();
    let (new_line, after) = line_of(alloc, &mut counters[1], new, at)?;
    Ok(Place {
        fault: complaint.fault,
        old_line: old_line.saturating_add(file.old.lines_before),
        new_line,
        before,
        after,
    })
}

/// The doubtful places of a file, in the order of its text.
///
/// # Errors
///
/// `Memory` if an allocation failed.
pub fn places_of(alloc: Global, file: &NewFile) -> Result<Vec<Place>, Memory> {
    let mut places = Vec::new(alloc);
    let mut counters = [LineCounter::new(), LineCounter::new()];
    for complaint in &file.conversion.complaints {
        places.push(place_of(alloc, file, &mut counters, *complaint)?)?;
    }
    Ok(places)
}
