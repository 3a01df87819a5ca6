//! The items of INTCODE, of which assembler texts are made, and the machine words that they become.
#![tactic(auto)]

mod global_number;
mod item;
pub mod laws;
mod segment;

pub use global_number::GlobalNumber;
pub use item::{Base, Function, Item};
pub use segment::Segment;
