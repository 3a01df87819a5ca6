//! Derivations with the fewest words: their definition, and the law that every root has one.
#![tactic(auto)]

mod choice;
pub mod laws;
mod zero;

pub use choice::{Asked, Candidate, Choice, Choices};
pub use zero::is_zero_number;
