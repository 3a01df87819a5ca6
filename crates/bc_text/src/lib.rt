//! INTCODE text: a reader that takes it in pieces, and a printer.
#![tactic(auto)]

mod head;
pub mod laws;
mod place;
mod printing;
mod progress;
mod reader;
mod text_error;

pub use bc_text_items::{Base, Function, GlobalNumber, Item, Segment};
pub use printing::print;
pub use reader::{Reader, read_all};
pub use text_error::TextError;
