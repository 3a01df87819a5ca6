//! One cell of the store.

/// The state of a cell.
#[derive(Clone, Copy, Debug, PartialEq, Eq)]
pub enum Cell {
    /// The cell belongs to no variable, vector or datum at present.
    Dead,
    /// The cell is live, but was never written.
    Unset,
    /// The cell is live and holds this word.
    Set(u16),
}
