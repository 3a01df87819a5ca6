//! The linker with allocations that fail.

use bc_link::{Base, Function, GlobalNumber, Image, Item, LinkError, Segment, link};
use bc_word::Word;
use std::alloc;

/// An operation of INTCODE.
fn operation(function: Function, indirect: bool, base: Base, number: u16) -> Item {
    Item::Operation {
        function,
        indirect,
        base,
        number: Word::new(number),
    }
}

/// A label of INTCODE.
fn label(number: u16) -> Item {
    Item::Label(Word::new(number))
}

/// `GnL1`. None if there is no such global.
fn setting(number: u16) -> Option<Item> {
    Some(Item::Global {
        number: GlobalNumber::new(number)?,
        label: Word::new(1),
    })
}

/// Links a segment that sets a global and the segment `1 LL1`. None if there was no memory for the items themselves.
fn grown(alloc: alloc::Global) -> Option<Result<Image, LinkError>> {
    let load = [label(1), operation(Function::Load, false, Base::Label, 1)];
    let sets = [label(1), setting(14)?];
    let mut segments = Vec::new(alloc);
    for items in [sets.as_slice(), load.as_slice()] {
        let items = Vec::from_slice(alloc, items).ok()?;
        segments.push(Segment::new(items)).ok()?;
    }
    Some(link(alloc, segments.as_slice()))
}

#[test]
fn growth_is_given(rt: HostRuntime) {
    assert!(rt; matches!(&grown(rt.alloc()), Some(Ok(_))));
}

/// Under `tests/stress/failed-allocations` each allocation fails in turn. The result must be right, or a failed allocation.
#[test]
fn refused_growth_is_memory(rt: HostRuntime) {
    assert!(rt;
        matches!(
            &grown(rt.alloc()),
            None | Some(Ok(_)) | Some(Err(LinkError::Memory))
        )
    );
}
