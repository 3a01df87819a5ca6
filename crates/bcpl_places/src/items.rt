//! The number of words that items take, and their addresses.

use bc_text_items::{Base, Item};
use bc_word::Memory;
use std::alloc::Global;

/// How many words an item takes by itself. A byte may share its word with the byte before it.
fn words_alone(item: &Item) -> usize {
    match item {
        Item::Label(_) | Item::Global { .. } => 0,
        Item::Data(_) | Item::DataLabel(_) | Item::Byte(_) => 1,
        Item::Operation { base, number, .. } => match base {
            Base::Label => 2,
            _ if number.get() <= 511 => 1,
            _ => 2,
        },
    }
}

/// The address of each item if they begin at `start`, and the address after the last one. An item's address is that of
/// its first word; for an item that takes none, that of the next word. Returns `Memory` if an allocation fails.
pub fn addresses(
    alloc: Global,
    start: usize,
    items: &[Item],
) -> Result<(Vec<usize>, usize), Memory> {
    let mut found = Vec::new(alloc);
    let mut next = start;
    let mut is_half = false;
    for item in items {
        match item {
            Item::Byte(_) if is_half => {
                found.push(next.saturating_sub(1))?;
                is_half = false;
            }
            _ => {
                found.push(next)?;
                next = next.saturating_add(words_alone(item));
                is_half = matches!(item, Item::Byte(_));
            }
        }
    }
    Ok((found, next))
}

/// Whether an item takes two words.
pub fn is_long(item: &Item) -> bool {
    words_alone(item) > 1
}
