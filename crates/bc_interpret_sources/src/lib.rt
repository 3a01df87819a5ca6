//! Runs sources by their defined meaning instead of their code. The output and the ending are the same, and a wild access is reported.
#![tactic(auto)]

mod sources;

pub use bc_build::{Image, Source};
pub use bc_interpret::{Cause, Ending, Interpreted, Observer, Outcome, Standing, Trail};
pub use sources::{BuiltProgram, interpret, interpret_observed};
