//! Finds where in a section's tokens a fault is, and where its expressions, variables, globals and labels are.
//!
//! Trees have no positions. So a walk over the trees in text order counts their leaves (`bc_parse_tree::token_at` finds the token of
//! a leaf), and checks the section again as `bc_scope_faults` does, with the same checks of single parts.
#![tactic(auto)]

mod brackets;
mod commands;
mod declarations;
mod expressions;
mod leaves;
mod lists;
mod place;
mod record;
mod span;
mod walk;

pub use bc_lex_tokens::Token;
pub use bc_parse_tree::{Section, token_at};
pub use bc_scope_names::ScopeError;
pub use bc_word::Memory;
pub use place::{Also, FaultPlace, fault_place, sites_of};
pub use record::{BodyOf, GlobalSite, RootSite, Sites, VariableSite};
pub use span::Span;
