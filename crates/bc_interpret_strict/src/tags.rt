//! Tags: blocks with nothing but a label to which nothing jumps. They do nothing, and the label's number says what the observer sees there.

use bc_core::{Block, Command, ListItem};
use bc_word::Memory;
use std::alloc::Global;

/// The label of tag 0. Those of the others are below it. The labels of a section are numbered from 0 on.
const FIRST_LABEL: u16 = 65535;

/// The greatest number of tags of a program. What would need a tag after them is not seen.
const MOST_TAGS: usize = 40_000;

/// What a tag says: the vectors of a block exist.
#[derive(Clone, Copy)]
pub(crate) struct DeclaredVectors {
    /// The index of the first one among the vectors of the program.
    pub first: usize,
    /// Their number.
    pub count: usize,
}

/// A vector of a block.
#[derive(Clone, Copy)]
pub(crate) struct DeclaredVector {
    /// How many cells its first cell is before the end of the block's cells.
    pub before_end: u32,
    /// The number of its cells.
    pub cells: u32,
}

/// The tags of a program.
#[derive(Drop)]
pub(crate) struct Tags {
    alloc: Global,
    /// The tags, by number.
    pub tags: Vec<DeclaredVectors>,
    /// The vectors that the tags speak of.
    pub vectors: Vec<DeclaredVector>,
}

impl Tags {
    /// No tags.
    pub fn new(alloc: Global) -> Tags {
        Tags {
            alloc,
            tags: Vec::new(alloc),
            vectors: Vec::new(alloc),
        }
    }

    /// Appends a new tag to a list; does nothing if there are too many.
    ///
    /// `Memory` if an allocation fails.
    pub fn append(&mut self, tag: DeclaredVectors, list: &mut Vec<ListItem>) -> Result<(), Memory> {
        let number = self.tags.len();
        if number >= MOST_TAGS {
            return Ok(());
        }
        let Ok(number) = u16::try_from(number) else {
            return Ok(());
        };
        self.tags.push(tag)?;
        let mut items = Vec::new(self.alloc);
        items.push(ListItem::Label(FIRST_LABEL - number))?;
        list.push(ListItem::Command(Command::Nested(Block {
            declarations: Vec::new(self.alloc),
            list: items,
        })))?;
        Ok(())
    }

    /// What the tag says that this block is; `None` if it is none.
    pub fn of_block(&self, block: &Block) -> Option<DeclaredVectors> {
        if !block.declarations.is_empty() {
            return None;
        }
        match block.list.as_slice() {
            [ListItem::Label(label)] => {
                let number = usize::from(FIRST_LABEL - *label);
                self.tags.get(number).copied()
            }
            _ => None,
        }
    }
}
