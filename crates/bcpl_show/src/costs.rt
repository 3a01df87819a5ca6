//! How many words the code of each root takes, and where the source has the root.

use crate::code::words_of_entry;
use crate::marks::Marks;
use crate::outline::Outline;
use bc_lex_tokens::Token;
use bc_parse_tree::{Section, leaves_of};
use bc_rules_defs::Entry;
use bc_word::Memory;
use std::alloc::Global;

/// A section, with its segment's entries.
#[derive(Clone, Copy)]
pub struct CostedSection<'p, 's> {
    /// The index of the file whose roots are wanted.
    pub main: usize,
    /// The tokens of the section.
    pub tokens: &'p [Token<'s>],
    /// Its tree.
    pub section: &'p Section<'s>,
    /// The entries of its segment.
    pub entries: &'p [Entry],
    /// The number of items of its segment.
    pub items: usize,
}

/// Where a root is, and how many words its code takes.
#[derive(Clone, Copy)]
pub struct RootCost {
    /// The offset of the first name, number or word of its value.
    pub value: usize,
    /// That of its address, if it is an assignment.
    pub address: Option<usize>,
    /// The number of words, without those of the bodies of VALOFs.
    pub words: u64,
}

/// The offset of a leaf; `None` if it is in another file.
fn offset_of(leaves: &[Token<'_>], leaf: usize, main: usize) -> Option<usize> {
    match leaves.get(leaf) {
        Some(token) if token.file == main => Some(token.start),
        _ => None,
    }
}

/// The costs of the roots that a file spells, in the order of the code. `Memory` if an allocation fails.
pub fn root_costs(alloc: Global, costed: CostedSection<'_, '_>) -> Result<Vec<RootCost>, Memory> {
    let outline = Outline::new(alloc, costed.section)?;
    let marks = Marks::new(alloc, &outline, costed.items, costed.entries)?;
    let leaves = leaves_of(alloc, costed.tokens)?;
    let mut costs = Vec::new(alloc);
    for (entry, reading) in costed.entries.iter().zip(&marks.readings) {
        let value = offset_of(leaves.as_slice(), reading.value, costed.main);
        if let Some(value) = value
            && reading.is_written
        {
            let address = match reading.address {
                Some(leaf) => offset_of(leaves.as_slice(), leaf, costed.main),
                None => None,
            };
            let words = words_of_entry(alloc, entry)?;
            costs.push(RootCost {
                value,
                address,
                words,
            })?;
        }
    }
    Ok(costs)
}
