//! The linker: assembles INTCODE segments one after another into the image from which the machine starts.
#![tactic(auto)]

mod draft;
mod label_table;
pub mod laws;
mod layout;
mod link_error;
mod linker;
mod repeats;
mod store;

pub use bc_machine_defs::{Image, Labels, Places, SegmentPlace, Words};
pub use bc_text_items::{Base, Function, GlobalNumber, Item, Segment};
pub use link_error::LinkError;
pub use linker::link;
