//! The table of an image's parts: where each begins, and how many words it takes.

use crate::listing::{ListedProgram, name_of};
use bc_text_items::Item;
use bc_word::Memory;
use bcpl_places::{addresses, library_name};
use std::alloc::Global;

/// The address of the first segment.
const SEGMENTS: usize = 520;

/// The number of the first global that the library sets; those below it belong to the primitives.
const OF_LIBRARY: u16 = 20;

/// What a segment takes.
#[derive(Clone, Copy)]
struct SegmentUse {
    /// The words of operations.
    code: usize,
    /// All words.
    words: usize,
    /// How many globals it sets.
    globals: usize,
    /// Whether it sets a global of the library.
    is_library: bool,
}

/// The number of words from the item with this index up to the next one. `end` is the address after the last item.
fn words_at(addresses: &[usize], index: usize, end: usize) -> usize {
    let next = match addresses.get(index.saturating_add(1)) {
        Some(next) => *next,
        None => end,
    };
    match addresses.get(index) {
        Some(address) => next.saturating_sub(*address),
        None => 0,
    }
}

/// What the segment with these items takes. `Memory` if an allocation fails.
fn use_of(alloc: Global, items: &[Item]) -> Result<SegmentUse, Memory> {
    let (addresses, words) = addresses(alloc, 0, items)?;
    let mut found = SegmentUse {
        code: 0,
        words,
        globals: 0,
        is_library: false,
    };
    for (index, item) in items.iter().enumerate() {
        match item {
            Item::Operation { .. } => {
                let taken = words_at(addresses.as_slice(), index, words);
                found.code = found.code.saturating_add(taken);
            }
            Item::Global { number, .. } => {
                let number = number.get();
                found.globals = found.globals.saturating_add(1);
                found.is_library |= number >= OF_LIBRARY && library_name(number).is_some();
            }
            _ => {}
        }
    }
    Ok(found)
}

/// Adds the line of a segment that begins at this address.
fn add_segment(
    text: &mut String,
    segment: usize,
    start: usize,
    taken: SegmentUse,
    name: &str,
) -> Result<(), Memory> {
    let words = taken.words;
    let code = taken.code;
    let data = words.saturating_sub(code);
    let globals = taken.globals;
    let library = if taken.is_library {
        ": the library"
    } else {
        ""
    };
    writeln!(
        text,
        "{start:>6} {words:>6} {code:>6} {data:>6} {globals:>8}  segment {segment}, {name}{library}"
    )?;
    Ok(())
}

/// The sizes of a linked program: a line for the boot code, the globals and each segment, and where the stack begins.
/// `Memory` if an allocation fails.
pub fn image_sizes(alloc: Global, program: ListedProgram<'_>) -> Result<String, Memory> {
    let mut text = String::new(alloc);
    text.push_str("/ addr  words   code   data  globals  part\n")?;
    text.push_str("     0      8      3      0           boot\n")?;
    text.push_str("     8    512      0    512           the globals\n")?;
    let mut start = SEGMENTS;
    for (segment, listed) in program.segments.iter().enumerate() {
        let taken = use_of(alloc, listed.items())?;
        let name = name_of(program.names, segment);
        add_segment(&mut text, segment, start, taken, name)?;
        start = start.saturating_add(taken.words);
    }
    writeln!(
        text,
        "{start:>6}                                the stack begins"
    )?;
    Ok(text)
}
