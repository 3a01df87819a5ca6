//! Lays out BCPL sources: `formatted` returns a source's text with other blanks between its tokens.
#![tactic(auto)]

mod atom;
mod atoms;
mod comments;
mod context;
mod error;
mod formatting;
mod frame;
pub mod laws;
mod layout;
mod line;
mod same;
mod spacing;
mod style;

pub use error::FormatError;
pub use formatting::formatted;
pub use style::Style;
