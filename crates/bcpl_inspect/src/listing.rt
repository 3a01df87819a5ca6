//! The command `list`.

use crate::checking::verdict_of;
use bc_cert::{Judged, check_against};
use bc_core::Root;
use bc_text_items::Segment;
use bc_word::Memory;
use bcpl_cli::{Cause, Failure, ListOrder};
use bcpl_list::{ListedProgram, Listing, Note, TextName, image_sizes};
use bcpl_reports::Text;
use bcpl_sources::{
    Growing, LinkedProgram, Remark, linked_texts, named_routines, of_listing, or_memory_failure,
    print_all, read_texts_or_input, texts_of,
};
use std::alloc::Global;
use std::io;
use std::io::Write;
use std::rt::Files;

/// The names of the texts, after which there are so many segments: their paths, and a name for the primitives.
fn names_of<'a>(
    alloc: Global,
    texts: &[Text<'a>],
    ends: &[usize],
) -> Result<Vec<TextName<'a>>, Memory> {
    let mut names = Growing::new(alloc);
    names.add(TextName {
        name: "the primitives",
        end: 1,
    });
    for (text, end) in texts.iter().zip(ends) {
        names.add(TextName {
            name: text.path,
            end: end.saturating_add(1),
        });
    }
    names.whole()
}

/// The note on an entry of a certificate.
fn note_on(alloc: Global, entry: &Judged) -> Result<String, Memory> {
    let words = entry.words;
    let unit = if words == 1 { "word" } else { "words" };
    let what = match &entry.root {
        Root::Value { .. } => "an expression",
        Root::Test { sense: false, .. } => "a test that jumps on false",
        Root::Test { sense: true, .. } => "a test that jumps on true",
        Root::Assign { .. } => "an assignment",
    };
    Ok(format!(in alloc; "{what}, {words} {unit}, the least")?)
}

/// The note on this entry. Segment 0 is the primitives, which certificates don't count.
fn remark_on(alloc: Global, entry: &Judged) -> Result<Remark, Memory> {
    Ok(Remark {
        segment: (entry.segment as usize).saturating_add(1),
        item: entry.item as usize,
        text: note_on(alloc, entry)?,
    })
}

/// The notes on these entries.
fn remarks_on(alloc: Global, entries: &[Judged]) -> Result<Vec<Remark>, Memory> {
    let mut remarks = Vec::new(alloc);
    for entry in entries {
        remarks.push(remark_on(alloc, entry)?)?;
    }
    Ok(remarks)
}

/// Checks the certificate with this path against the segments and returns the notes on its entries.
fn certified<F: Files>(
    rt: &F,
    alloc: Global,
    path: &str,
    segments: &[Segment],
    explains: bool,
) -> Result<Vec<Remark>, Failure> {
    let verdict = verdict_of(rt, alloc, path, explains)?;
    match check_against(&verdict, segments) {
        Ok(()) => or_memory_failure(remarks_on(alloc, verdict.entries.as_slice())),
        Err(mismatch) => Err(Failure::new(Cause::Against(mismatch))),
    }
}

/// The notes on a program, if a certificate is given.
fn remarks_of<F: Files>(
    rt: &F,
    alloc: Global,
    order: &ListOrder<'_>,
    program: &LinkedProgram,
    explains: bool,
) -> Result<Vec<Remark>, Failure> {
    match order.certificate {
        Some(path) => {
            let own = program.segments.as_slice().get(1..).unwrap_or(&[]);
            certified(rt, alloc, path, own, explains)
        }
        None => Ok(Vec::new(alloc)),
    }
}

/// Adds notes, as the listing takes them.
fn add_notes<'r>(notes: &mut Growing<Note<'r>>, remarks: &'r [Remark]) {
    for remark in remarks {
        notes.add(Note {
            segment: remark.segment,
            item: remark.item,
            said: remark.text.as_str(),
        });
    }
}

/// The notes on routines and on entries, in the order of the code.
fn notes_of<'r>(
    alloc: Global,
    routines: &'r [Remark],
    entries: &'r [Remark],
) -> Result<Vec<Note<'r>>, Memory> {
    let mut notes = Growing::new(alloc);
    add_notes(&mut notes, routines);
    add_notes(&mut notes, entries);
    let mut whole = notes.whole()?;
    whole.sort_by_key(|note| (note.segment, note.item))?;
    Ok(whole)
}

/// The sizes of a program's parts, with these names for its segments.
fn sizes_of(
    alloc: Global,
    program: &LinkedProgram,
    names: &[TextName<'_>],
) -> Result<String, Memory> {
    let program = ListedProgram {
        segments: program.segments.as_slice(),
        names,
        image: &program.image,
        notes: &[],
    };
    image_sizes(alloc, program)
}

/// Prints the text of a listing since it was last printed.
fn print_part<O: Write + Drop>(listing: &mut Listing<'_>, out: &mut O) -> io::Result<()> {
    out.write_all(listing.text().as_bytes())?;
    listing.clear();
    Ok(())
}

/// Prints a listing of this many segments.
fn print_listing<O: Write + Drop>(
    listing: &mut Listing<'_>,
    count: usize,
    out: &mut O,
) -> io::Result<()> {
    for segment in 0..count {
        listing.add_segment(segment);
        if listing.is_long() {
            print_part(listing, out)?;
        }
    }
    listing.add_end();
    print_part(listing, out)?;
    out.flush()
}

/// Prints the listing of a program with these names for its segments and these notes.
fn list_program<'p, O: Write + Drop>(
    alloc: Global,
    program: &'p LinkedProgram,
    names: &'p [TextName<'p>],
    notes: &'p [Note<'p>],
    out: &mut O,
) -> Result<(), Failure> {
    let segments = program.segments.as_slice();
    let listed = ListedProgram {
        segments,
        names,
        image: &program.image,
        notes,
    };
    let mut listing = Listing::new(alloc, listed);
    of_listing(alloc, print_listing(&mut listing, segments.len(), out))?;
    Ok(listing.finish()?)
}

/// The notes on the routines of a program, and those on its entries, as they are ordered.
fn all_remarks<F: Files>(
    rt: &F,
    alloc: Global,
    order: &ListOrder<'_>,
    program: &LinkedProgram,
    explains: bool,
) -> Result<(Vec<Remark>, Vec<Remark>), Failure> {
    let entries = remarks_of(rt, alloc, order, program, explains)?;
    let routines = named_routines(rt, alloc, &order.sources, program, explains)?;
    Ok((routines, entries))
}

/// Prints the listing of a program, or the sizes of its parts if these are ordered.
fn print_program<'l, F: Files, O: Write + Drop>(
    rt: &F,
    alloc: Global,
    order: &ListOrder<'_>,
    listed: (&'l LinkedProgram, &'l [TextName<'l>], bool),
    out: &mut O,
) -> Result<(), Failure> {
    let (program, names, explains) = listed;
    if order.only_sizes {
        let text = sizes_of(alloc, program, names)?;
        return of_listing(alloc, print_all(text.as_bytes(), out));
    }
    let (routines, entries) = all_remarks(rt, alloc, order, program, explains)?;
    let notes = notes_of(alloc, routines.as_slice(), entries.as_slice())?;
    list_program(alloc, program, names, notes.as_slice(), out)
}

/// Runs `list`. If `explains`, explains a refusal.
pub fn list<F: Files, O: Write + Drop>(
    rt: &F,
    alloc: Global,
    order: &ListOrder<'_>,
    explains: bool,
    out: &mut O,
) -> Result<(), Failure> {
    let files = read_texts_or_input(rt, alloc, &order.standard, order.texts.as_slice())?;
    let texts = texts_of(alloc, files.as_slice())?;
    let mut ends = Vec::new(alloc);
    let program = linked_texts(alloc, texts.as_slice(), &mut ends, explains)?;
    let names = names_of(alloc, texts.as_slice(), ends.as_slice())?;
    print_program(
        rt,
        alloc,
        order,
        (&program, names.as_slice(), explains),
        out,
    )
}
