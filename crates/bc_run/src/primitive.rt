//! The segment of the primitives: the library routines on streams, which can't be written in BCPL.

ghost use Rattle.std.specs.Prelude.{◌≡◌, ◌<◌, ◌++◌, IfOk, OnOk};
ghost use Rattle.bc_text_items.specs.declared.item.Item.TheVariants.{Label, Global};
ghost use Rattle.bc_run.specs.Primitives.{argument, nought, execute, primitive_items};

use bc_text_items::{Base, Function, GlobalNumber, Item, Segment};
use bc_word::{Memory, Word};
use std::alloc;

/// `n`: sets the label n.
fn label(number: u16) -> Item
    ensures { result ≡ Label number }
{
    Item::Label(Word::new(number))
}

/// `Xn`: executes operation n.
fn execute(number: u16) -> Item
    ensures { result ≡ execute number }
{
    Item::Operation {
        function: Function::Execute,
        indirect: false,
        base: Base::Number,
        number: Word::new(number),
    }
}

/// `LIP2`: loads the first argument.
fn argument() -> Item
    ensures { result ≡ argument }
{
    Item::Operation {
        function: Function::Load,
        indirect: true,
        base: Base::P,
        number: Word::new(2),
    }
}

/// `L0`: loads 0, the value of a routine that returns nothing.
fn nought() -> Item
    ensures { result ≡ nought }
{
    Item::Operation {
        function: Function::Load,
        indirect: false,
        base: Base::Number,
        number: Word::new(0),
    }
}

/// `GnLm`: sets the global n to the address of the label m.
fn setting(number: u16, label: u16) -> Item
    requires { number < 512 }
    ensures { result ≡ Global number label }
{
    Item::Global {
        number: GlobalNumber::new(number).unwrap(),
        label: Word::new(label),
    }
}

/// The segment of the primitives, 26 words: the routines SELECTINPUT, SELECTOUTPUT, RDCH, WRCH, FINDINPUT, FINDOUTPUT, ENDREAD and
/// ENDWRITE, in the globals 11 to 18. Each has a frame of 3 cells.
///
/// `Memory` if an allocation fails.
pub fn primitives(alloc: alloc::Global) -> Result<Segment, Memory>
    ensures { IfOk result (λ segment. segment ≡ primitive_items) }
{
    let mut items = Vec::with_capacity(alloc, 44)?;
    items.extend_from_slice(&[label(1), argument(), execute(24), nought(), execute(4)])?;
    items.extend_from_slice(&[label(2), argument(), execute(25), nought(), execute(4)])?;
    items.extend_from_slice(&[label(3), execute(26), execute(4)])?;
    items.extend_from_slice(&[label(4), argument(), execute(27), nought(), execute(4)])?;
    items.extend_from_slice(&[label(5), argument(), execute(28), execute(4)])?;
    items.extend_from_slice(&[label(6), argument(), execute(29), execute(4)])?;
    items.extend_from_slice(&[label(7), execute(33), nought(), execute(4)])?;
    items.extend_from_slice(&[label(8), execute(34), nought(), execute(4)])?;
    items.extend_from_slice(&[
        setting(11, 1),
        setting(12, 2),
        setting(13, 3),
        setting(14, 4),
    ])?;
    items.extend_from_slice(&[
        setting(15, 5),
        setting(16, 6),
        setting(17, 7),
        setting(18, 8),
    ])?;
    Ok(Segment::new(items))
}
