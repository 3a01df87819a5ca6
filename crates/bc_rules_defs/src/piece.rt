//! Pieces of code.

use bc_text_items::Item;

/// A piece of a root's code: an item, or the whole body of a VALOF.
#[derive(Clone, Copy, Debug, PartialEq, Eq)]
pub enum Piece {
    /// An item of INTCODE.
    Item(Item),
    /// The body of a VALOF. In the code of a derivation the number is the VALOF's; in a verdict it is how many items the body has.
    Body(u64),
}
