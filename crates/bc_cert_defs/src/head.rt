//! What the first line of an entry says.

/// What the `E` line of an entry says.
#[derive(Clone, Copy)]
pub struct Head {
    /// The segment of the code, counted from 0.
    pub segment: u64,
    /// The index of the code's first item among the items of the segment.
    pub item: u64,
    /// The label that a test jumps to. It has no meaning for other roots.
    pub target: u16,
    /// The first of the derivation's own labels.
    pub first: u16,
    /// The words of the code, without the bodies of VALOFs.
    pub words: u64,
}
