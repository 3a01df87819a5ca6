//! How the tokens of a section are parsed, as definitions: first into a closed list, where section brackets have no
//! tags and line breaks that count as semicolons are explicit; then from left to right into a tree, or to the first
//! fault.
//!
//! The code has only the small parts: `close`, and the tables of symbols in `words`. The parser itself is `bc_parse`.
//! The laws say that a closed list is what its tokens imply, and that a tree that is read is spelled by the parts it
//! was read from.
#![tactic(auto)]

mod closing;
pub mod closing_laws;
mod fault;
pub mod laws;
pub mod words;

pub use closing::{ClosedList, close, is_symbol_beginning, is_symbol_end};
pub use fault::CloseFault;
