//! The type `Replacement`.

/// A span of a text, from the byte `start` up to but excluding the byte `end`, and the bytes that replace it. If
/// `start` equals `end`, bytes are inserted and none is removed.
#[derive(Drop)]
pub struct Replacement {
    /// The first byte of the span.
    pub start: usize,
    /// The byte after the span.
    pub end: usize,
    /// The bytes that replace the span.
    pub text: Vec<u8>,
}
