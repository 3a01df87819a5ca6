//! The sizes of segments, and the sentence on a program that is too large.

use crate::items::addresses;
use bc_text_items::Item;
use bc_word::Memory;
use std::alloc::Global;

/// The address of the first segment.
const FIRST_ADDRESS: usize = 520;

/// The greatest address at which the stack may begin.
const GREATEST_BASE: usize = 65_472;

/// At most this many segments are listed.
const MOST: usize = 10;

/// How many words a segment with these items takes. Returns `Memory` if an allocation fails.
pub fn segment_words(alloc: Global, items: &[Item]) -> Result<usize, Memory> {
    let (_, words) = addresses(alloc, 0, items)?;
    Ok(words)
}

/// A segment's name and size.
#[derive(Drop)]
pub struct SegmentSize {
    /// The name under which it is printed.
    pub name: String,
    /// How many words it takes.
    pub words: usize,
}

/// The index of the largest segment that isn't listed yet.
fn largest(sizes: &[SegmentSize], told: &[usize]) -> Option<usize> {
    let mut best: Option<(usize, usize)> = None;
    for (index, size) in sizes.iter().enumerate() {
        if !told.contains(&index) {
            let is_larger = match best {
                Some((_, words)) => size.words > words,
                None => true,
            };
            if is_larger {
                best = Some((index, size.words));
            }
        }
    }
    match best {
        Some((index, _)) => Some(index),
        None => None,
    }
}

/// The lines on segments that take too many words: by how much, and the largest ones, one per line. There is no line
/// break at the end. Returns `Memory` if an allocation fails.
pub fn too_large(alloc: Global, sizes: &[SegmentSize]) -> Result<String, Memory> {
    let mut base = FIRST_ADDRESS;
    for size in sizes {
        base = base.saturating_add(size.words);
    }
    let surplus = base.saturating_sub(GREATEST_BASE);
    let mut lines = String::new(alloc);
    write!(
        lines,
        "the program is too large by {surplus} words: the stack would begin at {base}, and the limit is {GREATEST_BASE}"
    )?;
    let mut told = Vec::new(alloc);
    for _ in 0..MOST {
        if let Some(index) = largest(sizes, told.as_slice()) {
            if let Some(size) = sizes.get(index) {
                let name = size.name.as_str();
                let words = size.words;
                write!(lines, "\n  {name}: {words} words")?;
            }
            told.push(index)?;
        }
    }
    let left = sizes.len().saturating_sub(told.len());
    if left > 0 {
        write!(lines, "\n  and {left} more")?;
    }
    Ok(lines)
}
