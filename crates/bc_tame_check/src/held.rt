//! What the check knows of the cells of a frame.

/// Numbers from the least to the greatest.
#[derive(Clone, Copy)]
pub(crate) struct Bounds {
    /// The least.
    pub least: usize,
    /// The greatest.
    pub greatest: usize,
}

/// What a cell of the frame holds.
#[derive(Clone, Copy)]
pub(crate) enum Held {
    /// Nothing is known of it.
    Nothing,
    /// It is a cell of a vector, and may be unset.
    Cell,
    /// A word, and any word may be assigned to it.
    Word,
    /// The address of the string constant with this label.
    StringAt(usize),
    /// The address of the next cell, which is the first of a vector with the cells 0 to this number.
    VectorOf(usize),
    /// The address of the table with this label.
    TableAt(usize),
    /// A number within these bounds, to which nothing may be assigned.
    Between(Bounds),
}

/// What is known in addition to what was known before.
#[derive(Clone, Copy)]
pub(crate) enum Entry {
    /// The cell at this offset holds this.
    One(usize, Held),
    /// From this offset on, so many cells are those of a vector.
    Cells(usize, usize),
    /// The cell at this offset holds this, if it is one of a vector that may be unset.
    Only(usize, Held),
    /// The cells of vectors from one offset to another are set.
    Filled(usize, usize),
}

/// A test of what a cell holds.
#[derive(Clone, Copy)]
pub(crate) enum Test {
    /// It is set.
    Set,
    /// Any word may be assigned to it.
    Writable,
    /// It holds a string.
    String,
}

/// A number is too large for the check.
#[derive(Clone, Copy)]
pub(crate) struct TooLarge;
