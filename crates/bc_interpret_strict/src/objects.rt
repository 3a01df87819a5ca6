//! What is known of the objects of a run: the vectors that exist, the tables and strings, and the globals; and the mistakes that are found
//! by them.

use crate::tags::DeclaredVector;
use bc_word::Memory;
use std::alloc::Global;

/// The address of the cell of global 0.
const GLOBALS: u16 = 8;

/// The number of globals.
const COUNT: usize = 512;

/// The number of addresses.
const ADDRESSES: usize = 65_536;

/// An index that is farther away than this from all cells of an object is no index: the operands may be the other way round.
const WINDOW: usize = 512;

/// An access whose index leaves the object at whose start it begins.
#[derive(Clone, Copy, Debug, PartialEq, Eq)]
pub struct Outside {
    /// The address of the object's first cell.
    pub start: u16,
    /// The number of its cells.
    pub cells: usize,
    /// The index, modulo 65,536.
    pub index: u16,
    /// Whether it is a vector, and not a table or string.
    pub is_vector: bool,
}

/// An access that is lawful and nearly always a mistake.
#[derive(Clone, Copy, Debug, PartialEq, Eq)]
pub enum Mistake {
    /// The index leaves the vector, table or string.
    Outside(Outside),
    /// The global with this number is accessed through an address, and no source names it.
    NoGlobal(u16),
    /// A word of a string, at this address, is written.
    Constant(u16),
    /// The global with this number is read, and nothing set it.
    UnsetGlobal(u16),
}

/// A vector that exists, and the least number of continuations while it does.
#[derive(Clone, Copy)]
struct LiveVector {
    least: usize,
    start: u16,
    cells: u32,
}

/// Whether an index is outside of an object with so many cells, and near it. A negative index counts only for a vector: the cell before a
/// table or a string may be another one's.
fn is_outside(cells: usize, index: u16, is_vector: bool) -> bool {
    let signed = index.cast_signed();
    if usize::from(index) < cells {
        return false;
    }
    if signed < 0 && usize::from(signed.unsigned_abs()) <= WINDOW {
        return is_vector;
    }
    usize::from(index) <= cells.saturating_add(WINDOW)
}

/// The objects of a run.
#[derive(Drop)]
pub(crate) struct Objects {
    /// The vectors that exist, the newest last.
    vectors: Vec<LiveVector>,
    /// For each address the number of the newest vector that began there, plus 1; that vector need not exist any more.
    starts: Vec<u32>,
    /// For each address how many words the table or string has that begins there; 0 if none does.
    constants: Vec<u32>,
    /// For each address whether it is that of a word of a string.
    texts: Vec<bool>,
    /// For each global whether a source names it.
    named: Vec<bool>,
    /// For each global whether something set it.
    set: Vec<bool>,
}

impl Objects {
    /// No objects; `named` says for each global whether a source names it.
    ///
    /// `Memory` if an allocation fails.
    pub fn new(alloc: Global, named: Vec<bool>) -> Result<Objects, Memory> {
        let mut starts = Vec::new(alloc);
        starts.resize(ADDRESSES, 0u32)?;
        let mut constants = Vec::new(alloc);
        constants.resize(ADDRESSES, 0u32)?;
        let mut texts = Vec::new(alloc);
        texts.resize(ADDRESSES, false)?;
        let mut set = Vec::new(alloc);
        set.resize(COUNT, false)?;
        Ok(Objects {
            vectors: Vec::new(alloc),
            starts,
            constants,
            texts,
            named,
            set,
        })
    }

    /// Adds a table with so many words.
    pub fn add_table(&mut self, start: u16, words: usize) {
        if let Some(entry) = self.constants.get_mut(usize::from(start)) {
            *entry = u32::try_from(words).unwrap_or(0);
        }
    }

    /// Adds a string with so many words.
    pub fn add_text(&mut self, start: u16, words: usize) {
        self.add_table(start, words);
        for index in 0..words {
            let address = usize::from(start).saturating_add(index);
            if let Some(entry) = self.texts.get_mut(address) {
                *entry = true;
            }
        }
    }

    /// Notes that a global was set.
    pub fn set(&mut self, number: u16) {
        if let Some(entry) = self.set.get_mut(usize::from(number)) {
            *entry = true;
        }
    }

    /// Drops the vectors that are gone, given the number of continuations.
    pub fn leave(&mut self, depth: usize) {
        for _each in 0..self.vectors.len() {
            match self.vectors.last().copied() {
                Some(vector) if vector.least > depth => {
                    let _gone = self.vectors.pop();
                }
                _ => return,
            }
        }
    }

    /// Adds a vector of a block whose cells end before the address `end`. It exists while there are `least` continuations.
    ///
    /// `Memory` if an allocation fails.
    pub fn add_vector(
        &mut self,
        declared: DeclaredVector,
        end: u32,
        least: usize,
    ) -> Result<(), Memory> {
        let Ok(start) = u16::try_from(end.saturating_sub(declared.before_end)) else {
            return Ok(());
        };
        self.vectors.push(LiveVector {
            least,
            start,
            cells: declared.cells,
        })?;
        let number = u32::try_from(self.vectors.len()).unwrap_or(0);
        if let Some(entry) = self.starts.get_mut(usize::from(start)) {
            *entry = number;
        }
        Ok(())
    }

    /// The number of cells of the vector that begins at an address, if one does now.
    fn vector_at(&self, start: u16) -> Option<usize> {
        let number = self.starts.get(usize::from(start))?;
        let index = number.checked_sub(1)?;
        let vector = self.vectors.get(index as usize)?;
        if vector.start == start {
            Some(vector.cells as usize)
        } else {
            None
        }
    }

    /// The number of words of the table or string that begins at an address, if it has more than one.
    fn constant_at(&self, start: u16) -> Option<usize> {
        let words = *self.constants.get(usize::from(start))?;
        if words > 1 {
            Some(words as usize)
        } else {
            None
        }
    }

    /// Whether the access to `base ! index` leaves the object that begins at `base`.
    pub fn outside(&self, base: u16, index: u16) -> Option<Mistake> {
        let (cells, is_vector) = match self.vector_at(base) {
            Some(cells) => (cells, true),
            None => (self.constant_at(base)?, false),
        };
        if !is_outside(cells, index, is_vector) {
            return None;
        }
        Some(Mistake::Outside(Outside {
            start: base,
            cells,
            index,
            is_vector,
        }))
    }

    /// The number of the global whose cell has this address.
    fn global_at(address: u16) -> Option<u16> {
        let number = address.checked_sub(GLOBALS)?;
        if usize::from(number) < COUNT {
            Some(number)
        } else {
            None
        }
    }

    /// Whether a source names a global.
    fn is_named(&self, number: u16) -> bool {
        self.named
            .get(usize::from(number))
            .copied()
            .unwrap_or(false)
    }

    /// The mistake of reading the cell at an address, if it is one.
    pub fn read(&self, address: u16) -> Option<Mistake> {
        let number = Objects::global_at(address)?;
        if !self.is_named(number) {
            return Some(Mistake::NoGlobal(number));
        }
        let is_set = self.set.get(usize::from(number)).copied().unwrap_or(false);
        if is_set {
            None
        } else {
            Some(Mistake::UnsetGlobal(number))
        }
    }

    /// The mistake of writing to the cell at an address, if it is one. A global is set then.
    pub fn write(&mut self, address: u16) -> Option<Mistake> {
        let Some(number) = Objects::global_at(address) else {
            let is_text = self
                .texts
                .get(usize::from(address))
                .copied()
                .unwrap_or(false);
            return if is_text {
                Some(Mistake::Constant(address))
            } else {
                None
            };
        };
        if !self.is_named(number) {
            return Some(Mistake::NoGlobal(number));
        }
        self.set(number);
        None
    }
}
