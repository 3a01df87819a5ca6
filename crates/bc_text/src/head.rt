//! The state of the reader between two bytes, and its parts. A head is all of an item before its last number.

use bc_text_items::{Base, Function, GlobalNumber, Item};

/// All of an item before its last number. With the number, it determines the item.
#[derive(Clone, Copy, Debug, PartialEq, Eq)]
pub enum Head {
    /// Nothing: the number is a label that is set here.
    Label,
    /// `D`.
    Data,
    /// `DL`.
    DataLabel,
    /// `C`.
    Byte,
    /// A function's letter, then optionally `I`, then optionally `P`, `G` or `L`.
    Operation {
        /// The function that the letter means.
        function: Function,
        /// Whether there was an `I`.
        indirect: bool,
        /// What `P`, `G` or `L` means; `Number` if there was none.
        base: Base,
    },
    /// `G`, before the global's number.
    Global,
    /// `G`, the global's number and `L`.
    GlobalLabel(GlobalNumber),
}

/// What a number completes when it ends.
#[derive(Clone, Copy, Debug, PartialEq, Eq)]
pub enum Ended {
    /// An item.
    Item(Item),
    /// The number of a global, after which an `L` must come.
    Global(GlobalNumber),
}

/// The state of a reader between two bytes. Positions are counted in bytes from the start of the stream.
#[derive(Clone, Copy, Debug, PartialEq, Eq)]
pub enum Position {
    /// Between items.
    Between,
    /// In a comment.
    Comment,
    /// After a head: a digit must come, or another byte that the head allows.
    Head(Head),
    /// After the `-` of a number: a digit must come.
    Minus {
        /// The head before the number.
        head: Head,
        /// The position of the `-`.
        from: u64,
    },
    /// In the digits of a number.
    Digits {
        /// The head before the number.
        head: Head,
        /// The position of the number's first byte, its `-` if it has one.
        from: u64,
        /// Whether the number began with `-`.
        negative: bool,
        /// The value of the digits read up to here.
        value: u16,
    },
}
