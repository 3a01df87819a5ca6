//! Where a run of a resolved program is: the calls that are open, and how much of each body follows the run's position.
#![tactic(auto)]

mod position;
mod roots;
mod trail;

pub use bc_interpret_steps::{OpenCall, Rest, Stacks};
pub use bc_word::Memory;
pub use trail::{Standing, Trail, trail_in};
