//! For each node of a root, all rules with which a derivation of it can begin, each with the least words of such derivations.
//!
//! The command `explain` uses this to show why no code is shorter.
#![tactic(auto)]

mod binary_candidates;
mod candidate;
pub mod laws;
mod lists;
mod nodes;
mod root;
mod sums;

pub use bc_rules_defs::{Aim, Mode, Rule};
pub use candidate::{Beginning, Candidates};
pub use root::candidates;
