//! The generator: writes the items of a section, in which each expression has the code of a derivation with the fewest words.
#![tactic(auto)]

mod choice;
mod commands;
mod context;
mod gen_error;
mod generation;
mod items;
mod list_labels;
mod marked_items;
mod root_mark;
mod roots;
mod writer;

pub use gen_error::GenError;
pub use generation::{Generated, generate};
