//! The message for a program that is not known to be tame: where the first thing is that the check can't accept, and what it would need.
#![tactic(auto)]

mod message;
mod place;
mod sentence;

pub use message::tame_message;
pub use sentence::number_of;
