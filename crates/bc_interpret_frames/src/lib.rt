//! Computes how many cells the frame of a routine takes, without native recursion on its tree.
#![tactic(auto)]

mod expand;
mod part;
mod size;

pub use size::frame_size;
