//! The addresses of segments and their labels.

ghost use Rattle.std.specs.Prelude.{◌≡◌, ◌+◌, ◌≤◌, IfOk};
ghost use Rattle.std.specs.Option.{SomeIff};
ghost use Rattle.bc_text_items.specs.Sizes.{size, operation_size, size_of_all};
ghost use Rattle.bc_text_items.specs.Assembled.{label_places};
ghost use Rattle.bc_link.specs.Layout.{stack_base_of};
ghost use Rattle.bc_link.specs.Steps.{words_begun, leaves_half};

use bc_text_items::{Base, Item, Segment};
use bc_word::{Memory, Word};
use std::alloc::Global;

/// The address of the first segment.
pub const FIRST_ADDRESS: u16 = 520;

/// The greatest stack base. It leaves 64 cells for the stack.
pub const GREATEST_BASE: u16 = 65_472;

/// The number of words of an operation.
fn operation_size(base: Base, number: Word) -> u16
    ensures { result ≡ operation_size base number }
{
    match base {
        Base::Label => 2,
        _ if number.get() <= 511 => 1,
        _ => 2,
    }
}

/// The number of words of a single item.
fn size(item: &Item) -> u16
    ensures of_item { result ≡ size item.now }
    ensures small { result ≤ 2 }
{
    match item {
        Item::Label(_) | Item::Global { .. } => 0,
        Item::Data(_) | Item::DataLabel(_) | Item::Byte(_) => 1,
        Item::Operation { base, number, .. } => operation_size(*base, *number),
    }
}

/// The number of words that the item begins. `half_free` says whether a byte before it left the low half of its word free.
fn words_begun(half_free: bool, item: &Item) -> u16
    ensures of_item { result ≡ words_begun half_free item.now }
    ensures small { result ≤ 2 }
{
    match item {
        Item::Byte(_) if half_free => 0,
        _ => size(item),
    }
}

/// Whether the item leaves the low half of its word free for a byte after it.
fn leaves_half(half_free: bool, item: &Item) -> bool
    ensures { result ≡ leaves_half half_free item.now }
{
    match item {
        Item::Byte(_) => !half_free,
        _ => false,
    }
}

/// The address after items whose words begin at `start`; `None` if it is above 65,472. It stops at that limit, so no sum overflows.
#[tactic(auto, using(crate::proofs::Bytes::size_of_all_step))]
fn address_after(start: u16, items: &[Item]) -> Option<u16>
    requires { start ≤ 65472 }
    ensures { SomeIff result (start + size_of_all items.now ≤ 65472) (start + size_of_all items.now) }
{
    let mut next = start;
    let mut half_free = false;
    for item in items {
        let words = words_begun(half_free, item);
        if words > GREATEST_BASE - next {
            return None;
        }
        next += words;
        half_free = leaves_half(half_free, item);
    }
    Some(next)
}

/// The address at which the stack begins, after the segments; `None` if it is above 65,472.
pub fn stack_base(segments: &[Segment]) -> Option<u16>
    ensures { SomeIff result (stack_base_of segments.now ≤ 65472) (stack_base_of segments.now) }
{
    let mut next = FIRST_ADDRESS;
    for segment in segments {
        next = address_after(next, segment.items())?;
    }
    Some(next)
}

/// Each label of the items with its address, for items whose words begin at `start`. `Memory` if an allocation fails.
#[tactic(auto, using(crate::proofs::Bytes::size_of_all_step, crate::proofs::Bytes::label_places_step))]
pub fn label_places(alloc: Global, start: u16, items: &[Item]) -> Result<Vec<(Word, Word)>, Memory>
    requires { start + size_of_all items.now ≤ 65472 }
    ensures { IfOk result (λ pairs. pairs.items ≡ label_places start items.now) }
{
    let mut pairs = Vec::new(alloc);
    let mut next = start;
    let mut half_free = false;
    for item in items {
        if let Item::Label(label) = item {
            pairs.push((*label, Word::new(next)))?;
        }
        next += words_begun(half_free, item);
        half_free = leaves_half(half_free, item);
    }
    Ok(pairs)
}
