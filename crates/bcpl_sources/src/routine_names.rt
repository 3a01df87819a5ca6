//! The routines of sources with their lines, for a listing of the texts that were built from them, and for the profile of a run.

use crate::compiling::refused;
use crate::explaining::{Front, add_fronts};
use crate::growing_list::Growing;
use crate::source_files::Gathered;
use crate::texts::{LinkedProgram, or_memory_failure};
use bc_build::build;
use bc_core::Place;
use bc_lex::Token;
use bc_text_items::{Item, Segment};
use bc_word::Memory;
use bcpl_cli::{Failure, Sources, load_sources};
use bcpl_show::{Files, Lines, Outline, leaves_of};
use bcpl_trace::NamedRoutine;
use std::alloc::Global;
use std::mem::forget;
use std::rt::Files as Access;

/// A note on an entry of a certificate or on a routine, and the item where it begins.
pub struct Remark {
    /// The index of the segment; 0 is the primitives.
    pub segment: usize,
    /// The index of the item in that segment.
    pub item: usize,
    /// What is said.
    pub text: String,
}

impl Drop for Remark {
    fn drop(self) {
        let Remark {
            segment: _,
            item: _,
            text: _,
        } = self;
    }
}

/// Whether two segments have the same items.
fn is_same_segment(one: &Segment, other: &Segment) -> bool {
    let (left, right) = (one.items(), other.items());
    if left.len() != right.len() {
        return false;
    }
    for (item, other) in left.iter().zip(right) {
        if item != other {
            return false;
        }
    }
    true
}

/// Whether two lists of segments are the same.
fn are_same(built: &[Segment], listed: &[Segment]) -> bool {
    if built.len() != listed.len() {
        return false;
    }
    for (one, other) in built.iter().zip(listed) {
        if !is_same_segment(one, other) {
            return false;
        }
    }
    true
}

/// The last segments of a program that are the last listed ones: as many as are listed or, if the listed library was cut,
/// those of its `files` sources. `None` if they are others.
fn listed_part<'b>(
    built: &'b [Segment],
    listed: &[Segment],
    files: usize,
) -> Option<&'b [Segment]> {
    let from = built.len().checked_sub(listed.len())?;
    let part = built.get(from..)?;
    if are_same(part, listed) {
        return Some(part);
    }
    // `build --lean` cuts the segments of the library and leaves the others as they are.
    let own = built.len().checked_sub(files)?;
    let part = built.get(own..)?;
    let last = listed.get(own..)?;
    if from == 0 && are_same(part, last) {
        Some(part)
    } else {
        None
    }
}

/// The sources of a program with their lines.
#[derive(Drop)]
struct Naming<'p, 's> {
    files: Files<'p, 's>,
    lines: Vec<Lines>,
    found: Growing<Remark>,
}

impl<'p, 's> Naming<'p, 's> {
    /// No routines yet. `Memory` if an allocation fails.
    fn new(alloc: Global, files: Files<'p, 's>) -> Result<Naming<'p, 's>, Memory> {
        let mut lines = Vec::new(alloc);
        for source in files.sources {
            lines.push(Lines::new(alloc, source.text)?)?;
        }
        Ok(Naming {
            files,
            lines,
            found: Growing::new(alloc),
        })
    }

    /// The name, file and line of the routine whose name is this token.
    fn text_of(&self, alloc: Global, token: &Token<'s>) -> Result<String, Memory> {
        let line = match self.lines.get(token.file) {
            Some(lines) => lines.number_at(token.start),
            None => 0,
        };
        let path = self.files.path(token.file);
        let mut text = String::from_str(alloc, "routine ")?;
        for byte in token.text {
            text.push(char::from(*byte))?;
        }
        write!(text, ", {path}:{line}")?;
        Ok(text)
    }

    /// Adds the routines of a main, whose segment has these items and this index in the listed texts. In the notes segment
    /// 0 is the primitives.
    fn add(
        &mut self,
        alloc: Global,
        front: &Front<'s>,
        segment: usize,
        items: &[Item],
    ) -> Result<(), Memory> {
        let outline = Outline::new(alloc, &front.section)?;
        let leaves = leaves_of(alloc, front.tokens.as_slice())?;
        for (item, label) in items.iter().enumerate() {
            let Some(leaf) = routine_leaf(front, &outline, label) else {
                continue;
            };
            if let Some(token) = leaves.get(leaf) {
                let text = self.text_of(alloc, token)?;
                self.found.add(Remark {
                    segment: segment.saturating_add(1),
                    item,
                    text,
                });
            }
        }
        Ok(())
    }
}

/// The leaf with the name of the routine that begins at an item, if one does.
fn routine_leaf(front: &Front<'_>, outline: &Outline, item: &Item) -> Option<usize> {
    let Item::Label(label) = item else {
        return None;
    };
    let index = usize::from(label.get()).checked_sub(1)?;
    match front.core.places().get(index) {
        Some(Place::Routine(_)) => outline.places.get(index).copied(),
        _ => None,
    }
}

/// The routines of these mains. The segments of the first ones, `skipped` in number, aren't listed.
fn routines_in<'s>(
    alloc: Global,
    files: Files<'_, 's>,
    fronts: &[Front<'s>],
    segments: &[Segment],
    skipped: usize,
) -> Result<Vec<Remark>, Memory> {
    let mut naming = Naming::new(alloc, files)?;
    for front in fronts {
        if let Some(index) = front.segment.checked_sub(skipped) {
            if let Some(segment) = segments.get(index) {
                naming.add(alloc, front, index, segment.items())?;
            }
        }
    }
    let Naming { found, .. } = naming;
    found.whole()
}

/// The routines of a program that was built from these sources.
fn routines_of_program(
    alloc: Global,
    gathered: &Gathered<'_, '_>,
    segments: &[Segment],
    skipped: usize,
) -> Result<Vec<Remark>, Failure> {
    let program = gathered.program();
    let files = Files {
        sources: program.named.sources,
        paths: program.named.paths,
        library: gathered.library,
    };
    let mut fronts = Vec::new(alloc);
    let found = match add_fronts(alloc, &mut fronts, files.sources, program.mains, 0) {
        Ok(()) => or_memory_failure(routines_in(
            alloc,
            files,
            fronts.as_slice(),
            segments,
            skipped,
        )),
        Err(failure) => Err(failure),
    };
    // The process is about to end, and the system frees all its memory at once.
    forget(fronts);
    found
}

/// Moves notes to the segments that come `count` later.
fn move_by(notes: &mut [Remark], count: usize) {
    for note in notes.iter_mut() {
        note.segment = note.segment.saturating_add(count);
    }
}

/// The routines of the listed segments, if these sources were built to segments that end with them. Of a library that was
/// cut there are none.
fn routines_of_listed(
    alloc: Global,
    gathered: &Gathered<'_, '_>,
    given: &Sources<'_>,
    built: &[Segment],
    listed: &[Segment],
) -> Result<Vec<Remark>, Failure> {
    match listed_part(built, listed, given.files.len()) {
        Some(part) => {
            let skipped = built.len().saturating_sub(part.len());
            let mut found = routines_of_program(alloc, gathered, part, skipped)?;
            move_by(
                found.as_mut_slice(),
                listed.len().saturating_sub(part.len()),
            );
            Ok(found)
        }
        None => {
            let path = given.files.last().copied().unwrap_or("");
            Err(Failure::file_since(alloc, path, OTHERS))
        }
    }
}

/// The routines of the listed segments by name, from the sources that they were built from. Refuses sources that give
/// other segments. If `explains`, explains a refusal of a source.
fn routine_names<F: Access>(
    rt: &F,
    alloc: Global,
    given: &Sources<'_>,
    listed: &[Segment],
    explains: bool,
) -> Result<Vec<Remark>, Failure> {
    let loaded = load_sources(rt, alloc, given)?;
    let gathered = Gathered::new(alloc, given, loaded.as_slice())?;
    let program = gathered.program();
    match build(alloc, program.named.sources, program.mains) {
        Ok(built) => {
            let segments = built.segments.as_slice();
            routines_of_listed(alloc, &gathered, given, segments, listed)
        }
        Err(fault) => Err(refused(alloc, &program, fault, explains)),
    }
}

/// The notes on the routines of a program, from the sources that its texts were built from. Without sources there are
/// none. If `explains`, explains a refusal of a source.
///
/// # Errors
///
/// The failure of a source that can't be read or built, that of sources from which `build` doesn't write these texts, or
/// one of `Memory`.
pub fn named_routines<F: Access>(
    rt: &F,
    alloc: Global,
    given: &Sources<'_>,
    program: &LinkedProgram,
    explains: bool,
) -> Result<Vec<Remark>, Failure> {
    if given.files.is_empty() {
        return Ok(Vec::new(alloc));
    }
    let own = program.segments.as_slice().get(1..).unwrap_or(&[]);
    routine_names(rt, alloc, given, own, explains)
}

/// The address of the label on which this note is, if it is on one.
fn address_of(program: &LinkedProgram, note: &Remark) -> Option<u16> {
    let segment = program.segments.as_slice().get(note.segment)?;
    let Item::Label(label) = segment.items().get(note.item)? else {
        return None;
    };
    let place = program.image.places.as_slice().get(note.segment)?;
    let address = place.labels.address(*label)?;
    Some(address.get())
}

/// The routines of a program on which these notes are, with their addresses. `Memory` if an allocation fails.
pub fn routines_at<'r>(
    alloc: Global,
    program: &LinkedProgram,
    notes: &'r [Remark],
) -> Result<Vec<NamedRoutine<'r>>, Memory> {
    let mut routines = Growing::new(alloc);
    for note in notes {
        if let Some(address) = address_of(program, note) {
            let name = note.text.as_str();
            routines.add(NamedRoutine { address, name });
        }
    }
    routines.whole()
}

/// Why sources aren't those of the listed texts.
const OTHERS: &str =
    "the texts aren't what build writes for these sources, in this order and with these --get and --library";
