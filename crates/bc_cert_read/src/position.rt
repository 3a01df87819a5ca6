//! The place of a check in the certificate, for its faults.

/// The place of the line that is judged.
#[derive(Clone, Copy)]
pub struct Position {
    /// The number of the line, counted from 1.
    pub line: u64,
    /// The number of its entry, counted from 0.
    pub entry: u64,
    /// The number of nodes of the entry before this line, which is the number of the node on a node line.
    pub node: u64,
}
