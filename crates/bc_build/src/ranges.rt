//! Loops that do nothing at run time: they tell the prover that all numbers in a list are in the ranges of their types.
//!
//! The range of a single value is known from its type, but not that of all elements of a list. LLVM removes these loops.
ghost use Rattle.std.specs.Prelude.{◌<◌, ◌^◌, ℕ, All, slice_index};
ghost use Rattle.bc_core.specs.View.{exp as exp_view, args as args_view, root as root_view};
ghost use Rattle.bc_rules_defs.specs.View.{entry as entry_view};
ghost use Rattle.bc_text.specs.Printed.{IsItem};
ghost use Rattle.bc_build.specs.Ranges.{AreSmall, AllAreSmall, RootIsSmall, EntryIsSmall, IsSmallEntry};

use bc_core::{CoreExp, Root};
use bc_machine_defs::Words;
use bc_rules_defs::Entry;
use bc_text_items::{Item, Segment};

/// All words of a store are below 65,536.
pub fn words_are_words(words: &Words)
    ensures { (i : ℕ) → slice_index words.now i < 65536 }
{
    let all = words.as_slice();
    for word in all {
        let _number = word.get();
    }
}

/// The numbers of an item are in their ranges.
fn is_item(item: &Item)
    ensures { IsItem item.now }
{
    match item {
        Item::Label(number) | Item::Data(number) | Item::DataLabel(number) => {
            let _number = number.get();
        }
        Item::Byte(byte) => {
            let _byte = *byte;
        }
        Item::Operation { number, .. } => {
            let _number = number.get();
        }
        Item::Global { number, label } => {
            let _number = number.get();
            let _label = label.get();
        }
    }
}

/// The numbers of all items of a segment are in their ranges.
fn are_items(items: &[Item])
    ensures { All IsItem items.now }
{
    for item in items {
        is_item(item);
    }
}

/// The numbers of all items of all segments are in their ranges.
pub fn segments_are_items(segments: &[Segment])
    ensures { All (All IsItem) segments.now }
{
    for segment in segments {
        are_items(segment.items());
    }
}

/// The numbers in an expression are at most 65,535.
#[cycle(smallness)]
fn expression_is_small(e: &CoreExp)
    ensures { AreSmall (exp_view e.now) }
{
    match e {
        CoreExp::Num(number) => {
            let _number = number.get();
        }
        CoreExp::Frame(number)
        | CoreExp::Glob(number)
        | CoreExp::Place(number)
        | CoreExp::Valof(number) => {
            let _number = *number;
        }
        CoreExp::Load(part) | CoreExp::Neg(part) | CoreExp::Not(part) => expression_is_small(part),
        CoreExp::Bin(_, left, right) => {
            expression_is_small(left);
            expression_is_small(right);
        }
        CoreExp::Cond(condition, this, that) => {
            expression_is_small(condition);
            expression_is_small(this);
            expression_is_small(that);
        }
        CoreExp::Call(arguments, routine) => {
            arguments_are_small(arguments);
            expression_is_small(routine);
        }
    }
}

/// The numbers in all arguments are at most 65,535.
#[cycle(smallness)]
fn arguments_are_small(arguments: &[CoreExp])
    ensures { AllAreSmall (args_view arguments.now) }
{
    for argument in arguments {
        expression_is_small(argument);
    }
}

/// The numbers in a root's expressions are at most 65,535.
fn root_is_small(root: &Root)
    ensures { RootIsSmall (root_view root.now) }
{
    match root {
        Root::Value { expression, .. } | Root::Test { expression, .. } => expression_is_small(
            expression,
        ),
        Root::Assign { value, address, .. } => {
            expression_is_small(value);
            expression_is_small(address);
        }
    }
}

/// All numbers of a list are below 2^64.
fn numbers_are_numbers(numbers: &[u64])
    ensures { All (λ n. n < 2 ^ 64) numbers.now }
{
    for number in numbers {
        let _number = *number;
    }
}

/// The numbers of an entry are in the ranges of their types.
fn entry_is_small(entry: &Entry)
    ensures { EntryIsSmall (entry_view entry.now) }
{
    let _segment = entry.segment;
    let _item = entry.item;
    let _target = entry.target;
    let _first = entry.first;
    numbers_are_numbers(entry.bodies.as_slice());
    root_is_small(&entry.root);
}

/// The numbers of all entries are in the ranges of their types.
pub fn entries_are_small(entries: &[Entry])
    ensures { All IsSmallEntry entries.now }
{
    for entry in entries {
        entry_is_small(entry);
    }
}
