//! The selector: finds the derivation of a root with the fewest words, and the least words of each of its nodes.
#![tactic(auto)]

mod binary_choices;
mod candidates;
mod derivations;
mod layout;
mod node;
mod node_count;
mod node_of_parts;
mod pending;
mod pending_parts;
mod row;
mod selection;
mod subtrees;
mod table;
mod tree;
mod unary_choices;

pub use bc_rules_defs::{Derivation, Rule};
pub use binary_choices::{Pair, free, given, only};
pub use candidates::{alone, any_words, better, number_cost};
pub use node_count::is_selectable;
pub use row::Row;
pub use selection::{Selected, rows, select};
