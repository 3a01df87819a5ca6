//! The listing of a linked program: each word of its image with its address, its item, and what refers to it; and the
//! sizes of its parts.
#![tactic(auto)]

mod label_index;
mod listing;
mod page;
mod references;
mod sizes;
mod strings;

pub use listing::{ListedProgram, Listing, Note, TextName};
pub use sizes::image_sizes;
