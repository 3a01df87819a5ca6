//! Places in the sources in human terms: file, line and column, the line itself with a mark below it, and the GETs that
//! led to the file. The parts of a section's tree in text order. Also facts on segments: sizes of items and segments,
//! words decoded as instructions, and the library's names of globals.
#![tactic(auto)]

mod decoded;
mod excerpt;
mod gets;
mod items;
mod line;
mod line_index;
mod signs;
mod sizes;
mod visits;

pub use bc_library::library_name;
pub use decoded::{FUNCTIONS, instruction};
pub use excerpt::Excerpt;
pub use gets::{Get, gets_of, way_to};
pub use items::{addresses, is_long};
pub use line::{Line, LineCounter, line_at};
pub use line_index::LineIndex;
pub use signs::{ColumnCounter, column_at};
pub use sizes::{SegmentSize, segment_words, too_large};
pub use visits::{PartRole, PartVisit, TreePart, visits_of};

/// A stretch of a source: the bytes from `start` up to `end`, excluding `end`.
#[derive(Clone, Copy, PartialEq, Eq)]
pub struct Span {
    /// The index of the source.
    pub file: usize,
    /// The offset of its first byte.
    pub start: usize,
    /// The offset after its last byte.
    pub end: usize,
}
