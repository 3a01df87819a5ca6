//! The proof that compiled code does on the machine what its source means, in five layers. The crate has no code: each law is the
//! contract of a function with an empty body.
#![tactic(auto)]

pub mod commands;
pub mod programs;
pub mod rules;
pub mod sections;
pub mod steps;
