//! The commands that run a program, `run`, `go`, `interpret` and `debug`, and `asm`, which makes one to run.
#![tactic(auto)]

mod assembling;
mod debugging;
mod going;
mod image_formats;
mod interpret_line;
mod interpreting;
mod lost_output;
mod running;
mod strict;
mod watched_run;

pub use assembling::assemble;
pub use debugging::debug;
pub use going::go;
pub use interpreting::interpret_files;
pub use lost_output::print_lost;
pub use running::{Ran, run, run_input};
