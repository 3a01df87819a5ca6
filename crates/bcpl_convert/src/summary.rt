//! The lines about what can't be converted.

use bc_convert::Complaint;
use bc_word::Memory;
use bcpl_places::{ColumnCounter, Excerpt, Line, LineCounter};
use std::alloc::Global;

/// Appends the lines about one complaint, which is in this line and column.
fn add_complaint(
    alloc: Global,
    lines: &mut String,
    path: &str,
    place: (&[u8], Line, usize),
    complaint: Complaint,
) -> Result<(), Memory> {
    let (text, line, column) = place;
    let number = line.number;
    let fault = complaint.fault;
    writeln!(lines, "{path}:{number}:{column}: {fault}")?;
    let excerpt = Excerpt::new(alloc, text, line, complaint.start, complaint.end)?;
    let shown = excerpt.to_string(alloc)?;
    lines.push_str(shown.as_str())?;
    let remedy = fault.remedy();
    writeln!(lines, "\n  help: {remedy}")?;
    Ok(())
}

/// Appends the lines about the complaints in a file: for each the place and what is wrong, the source line with a
/// mark, and what to do by hand.
///
/// # Errors
///
/// `Memory` if an allocation failed.
pub fn add_told(
    alloc: Global,
    lines: &mut String,
    path: &str,
    text: &[u8],
    complaints: &[Complaint],
) -> Result<(), Memory> {
    let mut counter = LineCounter::new();
    let mut columns = ColumnCounter::new();
    for complaint in complaints {
        let line = counter.line_at(text, complaint.start);
        let column = columns.column_at(text, 0, line.start, complaint.start);
        add_complaint(alloc, lines, path, (text, line, column), *complaint)?;
    }
    Ok(())
}

/// These lines as a new string.
///
/// # Errors
///
/// `Memory` if an allocation failed.
pub fn told_of(
    alloc: Global,
    path: &str,
    text: &[u8],
    complaints: &[Complaint],
) -> Result<String, Memory> {
    let mut lines = String::new(alloc);
    add_told(alloc, &mut lines, path, text, complaints)?;
    Ok(lines)
}
