//! Tame programs: every run of the image has the output and the ending that the sources mean.
#![tactic(auto)]

pub mod laws;
mod program;

pub use bc_tame_check::{BodyOf, Cause, NotTame, RoutineAt, Spot};
pub use program::tame_room;
