//! The lines that follow the first line of a refusal of sources: the place, a sentence on what is wrong, related
//! places, and a help.
#![tactic(auto)]

mod brackets;
mod constants;
mod declared;
mod draft;
mod expected;
mod hidden;
mod indents;
mod lexical;
mod likeness;
mod linking;
mod message;
mod neighbours;
mod read;
mod report;
mod scopes;
mod sides;
mod syntax;
mod trial_parse;
mod words;

pub use brackets::open_before;
pub use draft::{Draft, Fill, add_sentence};
pub use likeness::{library_like, library_names};
pub use message::{Message, Note, message_of, message_on_tokens};
pub use report::{Named, message_lines, message_lines_by};
pub use syntax::span_of;
pub use words::{is_at, shown, symbol_at};
