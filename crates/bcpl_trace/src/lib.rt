//! Runs of an image, and recorded runs: the trace of what each instruction did, the profile of how often each was executed, and how much of
//! the store the run used.
#![tactic(auto)]

mod change;
mod counts;
mod high;
mod image_run;
mod names;
mod nowhere;
mod profiling;
mod running;
mod watch;
mod written;

pub use change::Change;
pub use image_run::run_image;
pub use names::NamedRoutine;
pub use nowhere::Nowhere;
pub use profiling::{ProfiledProgram, profile};
pub use running::run_watched;
pub use watch::{Watch, Window};
pub use written::use_lines;
