//! The rule table: which code an expression, a test or an assignment may have.
//!
//! A derivation is a tree of rules of the table that gives one such code. This crate has the types of rules and derivations, the
//! definitions of their code and its words, and laws about all derivations. It has no code that looks for derivations:
//! `bc_rules` checks them, `bc_select` finds the shortest.
#![tactic(auto)]

mod derivation;
mod entry;
mod facts;
pub mod laws;
pub mod layer_laws;
mod names;
mod piece;
mod rule;
mod takes;

pub use derivation::Derivation;
pub use entry::Entry;
pub use facts::{is_direct, is_plain_operator, is_zero, jumps, number_words, operand_words};
pub use names::RULES;
pub use piece::Piece;
pub use rule::{Aim, Mode, Rule, Table};
pub use takes::Takes;
