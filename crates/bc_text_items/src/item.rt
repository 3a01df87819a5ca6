//! One item of INTCODE, and its parts.

use crate::global_number::GlobalNumber;
use bc_word::Word;

/// What the machine does with an operation's address, in the order of the function's three bits in a word.
#[derive(Clone, Copy, Debug, PartialEq, Eq, Hash, PartialOrd, Ord)]
pub enum Function {
    /// `L`: copies A to B, and loads the address into A.
    Load,
    /// `S`: stores A in the cell at the address.
    Store,
    /// `A`: adds the address to A.
    Add,
    /// `J`: jumps to the address.
    Jump,
    /// `T`: jumps if A isn't 0.
    JumpIfTrue,
    /// `F`: jumps if A is 0.
    JumpIfFalse,
    /// `K`: calls A, with a new frame.
    Call,
    /// `X`: executes the operation that has the address as its number.
    Execute,
}

/// What an operation's address is relative to.
#[derive(Clone, Copy, Debug, PartialEq, Eq, Hash, PartialOrd, Ord)]
pub enum Base {
    /// Nothing: the number is the address.
    Number,
    /// The frame: the address is the sum of P and the number.
    P,
    /// The global vector: the address is the sum of G and the number.
    G,
    /// A label: the number is a label, and the address is where it was set.
    Label,
}

/// One item of INTCODE.
#[derive(Clone, Copy, Debug, PartialEq, Eq, Hash)]
pub enum Item {
    /// `n`: sets the label n here. It takes no word.
    Label(Word),
    /// `Dn`: a word of data.
    Data(Word),
    /// `DLm`: a word that holds the address of the label m.
    DataLabel(Word),
    /// `Cn`: a byte. Two consecutive bytes share a word.
    Byte(u8),
    /// `F[I][P|G]n` or `F[I]Lm`: an operation.
    Operation {
        /// What it does with the address.
        function: Function,
        /// Whether the address is first replaced by the content of the cell there.
        indirect: bool,
        /// What the address is relative to.
        base: Base,
        /// The number, or the label.
        number: Word,
    },
    /// `GnLm`: sets the global n to the address of the label m before the run. It takes no word.
    Global {
        /// The global.
        number: GlobalNumber,
        /// The label whose address it holds.
        label: Word,
    },
}
