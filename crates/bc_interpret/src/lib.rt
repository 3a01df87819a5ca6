//! An interpreter of resolved programs, proved to compute their meaning: the loop around `bc_interpret_steps`, the first store, and the
//! primitives. It uses only bounded native stack, however deep calls and trees are.
#![tactic(auto)]

mod observer;
mod places;
mod run;
mod running;
mod serve;
mod start;
mod table;

pub use bc_interpret_pure::Cause;
pub use bc_interpret_steps::{Ending, Section, Stacks, State};
pub use bc_interpret_trace::{Standing, Trail};
pub use observer::{Observer, Unobserved};
pub use places::{after_first, all_addresses};
pub use run::{Interpreted, Outcome};
pub use running::{interpret, interpret_observed, observe};
