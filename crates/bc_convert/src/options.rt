//! The inputs of a conversion besides the source, and lists of names of an old library.

use crate::complaint::{Complaint, Fault};
use crate::library::is_library_name;
use crate::old_names::OldNames;
use crate::program::Program;
use crate::shared_names::SharedNames;
use bc_word::Memory;
use std::alloc::Global;

/// The library's header that a source gets.
#[derive(Clone, Copy)]
pub enum Header {
    /// LIBHDR.
    Basic,
    /// EXTHDR.
    Further,
}

/// A system whose dialect can be named. What is special in it holds then, whatever a source shows.
#[derive(Clone, Copy, PartialEq, Eq)]
pub enum System {
    /// The compilers of 1967: `V*(I)` is a subscript.
    Of1967,
    /// Those of 1979: `V*(I)` is a product.
    Of1979,
    /// The Alto: `@` gives the contents of a cell, and `%` is a logical or.
    Alto,
}

/// Whether a source needs a conversion.
#[derive(Clone, Copy, PartialEq, Eq)]
pub enum Lawful {
    /// It doesn't build as it is.
    No,
    /// It builds as it is, in a program of which other sources don't: only the library's header may be exchanged.
    Header,
    /// It builds as it is: nothing may be changed.
    Whole,
    /// It may build as it is, with a header that wasn't found: nothing may be changed.
    Unseen,
}

/// The inputs of a conversion besides the source.
#[derive(Clone, Copy)]
pub struct Options<'o, 'd> {
    /// The old names that have other names here.
    pub library: &'o OldNames<'o>,
    /// The header that sources get; `None` if it depends on what they need.
    pub header: Option<Header>,
    /// The facts about the whole program; `None` if this source is the whole program.
    pub program: Option<Program>,
    /// Whether the source needs a conversion.
    pub lawful: Lawful,
    /// The system for which the source was written; `None` if the source must show its dialect.
    pub system: Option<System>,
    /// The names that all sources of the program share; `None` if this source is the whole program.
    pub shared: Option<&'o SharedNames>,
    /// The tags of conditional compilation that are set where a source begins.
    pub defines: &'d [&'d str],
}

/// The renamings of a list of names, and the faults in its lines.
#[derive(Drop)]
pub struct NameList<'o> {
    pub list: OldNames<'o>,
    pub complaints: Vec<Complaint>,
}

/// Reads a list of names. Each line has an old name and, after blanks, the new one; the rest of the line is ignored.
/// Empty lines and lines that begin with `//` or `||` are ignored. A line is reported and ignored if it has only one
/// name, if an earlier line has its old name, or if no library has its new name.
///
/// # Errors
///
/// `Memory` if an allocation failed.
pub fn renamings<'o>(alloc: Global, text: &'o [u8]) -> Result<NameList<'o>, Memory> {
    let mut names = NameList {
        list: OldNames::new(alloc),
        complaints: Vec::new(alloc),
    };
    let mut start: usize = 0;
    for line in text.split(|byte| *byte == b'\n') {
        add_line(&mut names, start, line)?;
        start = start.saturating_add(line.len()).saturating_add(1);
    }
    Ok(names)
}

/// Adds a line, which begins at byte `start` of the text.
fn add_line<'o>(names: &mut NameList<'o>, start: usize, line: &'o [u8]) -> Result<(), Memory> {
    let (old, rest) = first_word(line);
    let (new, _) = first_word(rest);
    if old.is_empty() || old.starts_with(b"//".as_slice()) || old.starts_with(b"||".as_slice()) {
        return Ok(());
    }
    match fault_of(&names.list, old, new) {
        None => names.list.add(old, new)?,
        Some(fault) => {
            let blanks = line.len().saturating_sub(line.trim_ascii_start().len());
            let start = start.saturating_add(blanks);
            names.complaints.push(Complaint {
                start,
                end: start.saturating_add(old.len()),
                fault,
            })?;
        }
    }
    Ok(())
}

/// The fault of a renaming that follows these.
fn fault_of(earlier: &OldNames<'_>, old: &[u8], new: &[u8]) -> Option<Fault> {
    if new.is_empty() {
        Some(Fault::NameAlone)
    } else if earlier.renamed(old).is_some() {
        Some(Fault::NameTwice)
    } else if !is_library_name(new) {
        Some(Fault::NoLibraryName)
    } else {
        None
    }
}

/// The first word of a line, and the rest of the line.
fn first_word(line: &[u8]) -> (&[u8], &[u8]) {
    let trimmed = line.trim_ascii_start();
    for count in 0..trimmed.len() {
        if trimmed[count].is_ascii_whitespace() {
            return trimmed.split_at(count);
        }
    }
    (trimmed, &[])
}
