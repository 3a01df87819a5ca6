//! Decides whether a tree of rule names is a derivation of a root, and writes the code of a derivation.
//!
//! The rules themselves are defined in `bc_rules_defs`.
#![tactic(auto)]

mod applying;
mod check;
mod code;
mod code_fault;
mod counting;
mod derivation;
mod emission;
mod exchange;
mod levels;
mod parts;
mod sizes;
mod writer;
mod writing;

pub use bc_core::{Base, Operand, constant, operand};
pub use bc_rules_defs::{Aim, Derivation, Entry, Mode, Piece, Rule, Table};
pub use code::{Coded, code_of, code_with_labels, next_label};
pub use code_fault::CodeFault;
pub use derivation::{is_derivation, is_derivation_by};
pub use exchange::free;
pub use levels::offsets_are_words;
pub use sizes::words;
