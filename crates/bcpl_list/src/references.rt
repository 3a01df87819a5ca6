//! The references to the labels of a segment.

use bc_text_items::{Base, Function, Item};
use bc_word::Memory;
use std::alloc::Global;

/// How an item refers to a label.
#[derive(Clone, Copy, PartialEq, Eq, PartialOrd, Ord)]
pub enum Manner {
    /// A global has the label's address.
    Global,
    /// An operation uses it. This is the letter of its function.
    Operation(char),
    /// A word of data has its address.
    Data,
}

/// A reference to a label.
#[derive(Clone, Copy, PartialEq, Eq, PartialOrd, Ord)]
pub struct Reference {
    /// The label.
    pub label: u16,
    /// How the item refers to it.
    pub manner: Manner,
    /// The address of the item, or the number of the global.
    pub at: usize,
}

/// The letter of a function.
fn letter(function: Function) -> char {
    match function {
        Function::Load => 'L',
        Function::Store => 'S',
        Function::Add => 'A',
        Function::Jump => 'J',
        Function::JumpIfTrue => 'T',
        Function::JumpIfFalse => 'F',
        Function::Call => 'K',
        Function::Execute => 'X',
    }
}

/// The reference of an item at this address, if it has one.
fn reference_of(item: &Item, address: usize) -> Option<Reference> {
    match item {
        Item::Global { number, label } => Some(Reference {
            label: label.get(),
            manner: Manner::Global,
            at: usize::from(number.get()),
        }),
        Item::DataLabel(label) => Some(Reference {
            label: label.get(),
            manner: Manner::Data,
            at: address,
        }),
        Item::Operation {
            function,
            base: Base::Label,
            number,
            ..
        } => Some(Reference {
            label: number.get(),
            manner: Manner::Operation(letter(*function)),
            at: address,
        }),
        _ => None,
    }
}

/// The references of these items, which have these addresses, sorted by label. `Memory` if an allocation fails.
pub fn references(
    alloc: Global,
    items: &[Item],
    addresses: &[usize],
) -> Result<Vec<Reference>, Memory> {
    let mut found = Vec::new(alloc);
    for (item, address) in items.iter().zip(addresses) {
        if let Some(reference) = reference_of(item, *address) {
            found.push(reference)?;
        }
    }
    found.sort_unstable();
    Ok(found)
}

/// The references to this label, in sorted references.
pub fn of_label(references: &[Reference], label: u16) -> &[Reference] {
    let from = references.partition_point(|reference| reference.label < label);
    let to = references.partition_point(|reference| reference.label <= label);
    references.get(from..to).unwrap_or(&[])
}
