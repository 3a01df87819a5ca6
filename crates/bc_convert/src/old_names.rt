//! The names of an old library that have other names here. They are found by a hash, so that a question about a name of a source takes no
//! longer if the list is long.

use bc_word::Memory;
use indexmap::IndexMap;
use std::alloc::Global;

/// A name of an old library, and its name in this one.
#[derive(Clone, Copy)]
struct Renaming<'o> {
    old: &'o [u8],
    new: &'o [u8],
    /// Only names with the same case are this old name.
    is_exact: bool,
    /// The number of the last one before it whose old name has the same hash.
    before: Option<usize>,
}

impl Renaming<'_> {
    /// Whether a word is the old name.
    fn is_of(&self, word: &[u8]) -> bool {
        self.old == word || !self.is_exact && self.old.eq_ignore_ascii_case(word)
    }
}

/// The names of an old library, and their names in this one.
#[derive(Drop)]
pub struct OldNames<'o> {
    /// In the order in which they were added.
    list: Vec<Renaming<'o>>,
    /// For each hash of an old name, the number of the last one that has it.
    last: IndexMap<u64, usize>,
}

/// A hash of a name (FNV-1a), the same in either case.
fn hash(name: &[u8]) -> u64 {
    let mut hash: u64 = 0xCBF2_9CE4_8422_2325;
    for byte in name {
        hash = (hash ^ u64::from(byte.to_ascii_uppercase())).wrapping_mul(0x0100_0000_01B3);
    }
    hash
}

impl<'o> OldNames<'o> {
    /// No names.
    pub fn new(alloc: Global) -> OldNames<'o> {
        OldNames {
            list: Vec::new(alloc),
            last: IndexMap::new(alloc),
        }
    }

    /// Adds an old name, in either case, which isn't among them, and its new name.
    ///
    /// # Errors
    ///
    /// `Memory` if an allocation failed.
    pub fn add(&mut self, old: &'o [u8], new: &'o [u8]) -> Result<(), Memory> {
        self.add_renaming(old, new, false)
    }

    /// Adds an old name in this case alone, which isn't among them, and its new name.
    ///
    /// # Errors
    ///
    /// `Memory` if an allocation failed.
    pub fn add_exact(&mut self, old: &'o [u8], new: &'o [u8]) -> Result<(), Memory> {
        self.add_renaming(old, new, true)
    }

    /// Adds an old name and its new name.
    fn add_renaming(&mut self, old: &'o [u8], new: &'o [u8], is_exact: bool) -> Result<(), Memory> {
        let number = self.list.len();
        let before = self.last.insert(hash(old), number)?;
        self.list.push(Renaming {
            old,
            new,
            is_exact,
            before,
        })?;
        Ok(())
    }

    /// The new name of an old name, if it is listed: in either case, unless it was added in one case alone.
    pub fn renamed(&self, old: &[u8]) -> Option<&'o [u8]> {
        let mut last = self.last.get(&hash(old)).copied();
        for _ in 0..self.list.len() {
            let renaming = self.list.get(last?)?;
            if renaming.is_of(old) {
                return Some(renaming.new);
            }
            last = renaming.before;
        }
        None
    }
}
