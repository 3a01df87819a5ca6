//! Resolves a section: checks its names, and translates it to a `Core`, where names are offsets, global numbers and labels.
#![tactic(auto)]

mod resolving;

pub use bc_core::Core;
pub use bc_parse_tree::Section;
pub use bc_scope_names::ScopeError;
pub use resolving::resolve;
