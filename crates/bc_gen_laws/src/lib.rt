//! Laws of the code of a section, for every choice of derivations: its labels, its roots and its words.
#![tactic(auto)]

pub mod labels;
pub mod roots;
pub mod sizes;
