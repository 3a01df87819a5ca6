//! Runs a program by its meaning, and stops at an access that is lawful and nearly always a mistake.
#![tactic(auto)]

mod copying;
mod objects;
mod running;
mod tags;
mod watcher;

pub use objects::{Mistake, Outside};
pub use running::{StrictProgram, StrictRun, strict_run};
