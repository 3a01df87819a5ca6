//! The direction of a stream.

/// The direction of a stream.
#[derive(Clone, Copy, Debug, PartialEq, Eq)]
pub enum Side {
    /// Streams that are read.
    Input,
    /// Streams that are written.
    Output,
}
