//! Which cells of the store a run wrote, as ranges in the parts of the store.

use crate::change::Change;
use crate::watch::Watch;
use bc_word::Memory;
use std::alloc::Global;

/// The number of addresses of a store.
const ADDRESSES: usize = 65_536;

/// The address of global 0.
const GLOBALS: usize = 8;

/// The address of the first segment.
const SEGMENTS: usize = 520;

/// The cells that were written.
#[derive(Drop)]
pub struct Written {
    cells: Vec<bool>,
}

/// A part of the store.
#[derive(Clone, Copy)]
struct Part {
    name: &'static str,
    start: usize,
    /// The address after its last cell.
    end: usize,
    /// Whether cells that weren't written split a range.
    has_gaps: bool,
}

impl Part {
    /// A part in which cells that weren't written split a range.
    fn new(name: &'static str, start: usize, end: usize) -> Part {
        Part {
            name,
            start,
            end,
            has_gaps: true,
        }
    }
}

/// Adds the line of a range.
fn add_range(text: &mut String, name: &str, range: (usize, usize)) -> Result<(), Memory> {
    let (first, last) = range;
    writeln!(text, "bcpl: wrote {name} {first} to {last}")?;
    Ok(())
}

impl Written {
    /// No cell was written. `Memory` if an allocation fails.
    pub fn new(alloc: Global) -> Result<Written, Memory> {
        Ok(Written {
            cells: vec![in alloc; false; ADDRESSES]?,
        })
    }

    /// Marks the cell at this address.
    fn mark(&mut self, address: u16) {
        if let Some(cell) = self.cells.as_mut_slice().get_mut(usize::from(address)) {
            *cell = true;
        }
    }

    /// Marks the cells that this change writes.
    pub fn add(&mut self, change: Change) {
        match change {
            Change::Cell(address) => self.mark(address),
            Change::Links(address) => {
                self.mark(address);
                self.mark(address.wrapping_add(1));
            }
            Change::Nothing | Change::Byte(_) => {}
        }
    }

    /// Adds a line for each range of cells in this part that were written.
    fn add_part(&self, text: &mut String, part: Part) -> Result<(), Memory> {
        let mut range: Option<(usize, usize)> = None;
        for at in part.start..part.end {
            if matches!(self.cells.get(at), Some(true)) {
                range = match range {
                    Some((first, last)) if !part.has_gaps || last.saturating_add(1) == at => {
                        Some((first, at))
                    }
                    Some(ended) => {
                        add_range(text, part.name, ended)?;
                        Some((at, at))
                    }
                    None => Some((at, at)),
                };
            }
        }
        match range {
            Some(range) => add_range(text, part.name, range),
            None => Ok(()),
        }
    }
}

/// How much of the store a run used, as lines: the highest cell that it touched and where its deepest frame began, and
/// the ranges of cells that it wrote. Those of the stack, which begins at `base`, are one range. `Memory` if an
/// allocation fails.
pub fn use_lines(alloc: Global, watch: &Watch, base: u16) -> Result<String, Memory> {
    let mut text = String::new(alloc);
    let high = watch.high();
    let cell = high.cell;
    let frame = high.frame;
    writeln!(text, "bcpl: high {cell} {frame}")?;
    let base = usize::from(base);
    let written = watch.written();
    written.add_part(&mut text, Part::new("boot", 0, GLOBALS))?;
    written.add_part(&mut text, Part::new("globals", GLOBALS, SEGMENTS))?;
    written.add_part(&mut text, Part::new("segments", SEGMENTS, base))?;
    let mut stack = Part::new("stack", base, ADDRESSES);
    stack.has_gaps = false;
    written.add_part(&mut text, stack)?;
    Ok(text)
}
