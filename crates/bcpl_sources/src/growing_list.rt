//! A list that remembers a failed allocation, so that the callers need not check each addition.

use bc_word::Memory;
use std::alloc::Global;

/// A list that remembers a failed allocation; once one has failed, its contents are void.
#[derive(Drop)]
pub struct Growing<T: Drop> {
    items: Vec<T>,
    is_refused: bool,
}

impl<T: Drop> Growing<T> {
    /// An empty list.
    pub fn new(alloc: Global) -> Growing<T> {
        Growing {
            items: Vec::new(alloc),
            is_refused: false,
        }
    }

    /// Adds an item.
    pub fn add(&mut self, item: T) {
        if self.items.push(item).is_err() {
            self.is_refused = true;
        }
    }

    /// All items, or `Memory` if an allocation failed.
    pub fn whole(self) -> Result<Vec<T>, Memory> {
        let Growing { items, is_refused } = self;
        if is_refused { Err(Memory) } else { Ok(items) }
    }
}
