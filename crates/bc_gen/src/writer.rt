//! The writer, to which all functions of the generator append.
ghost use Rattle.std.specs.Prelude.{◌≤◌};

use crate::marked_items::MarkedItem;
use std::alloc::Global;

/// The code written up to now, and the next free label.
#[derive(Drop)]
pub(crate) struct Writer {
    /// The allocator.
    pub(crate) alloc: Global,
    /// Items, and a mark before the code of each root.
    pub(crate) parts: Vec<MarkedItem>,
    /// The next free label, at most 20,001.
    pub(crate) next: u16,
    ghost bounded: { next ≤ 20001 },
}
