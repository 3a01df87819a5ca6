//! The code of a section, given a choice of code for each of its roots. The crate has definitions and laws only; `bc_gen` is the
//! generator.
#![tactic(auto)]

pub mod laws;
