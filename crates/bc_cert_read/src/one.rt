//! One tree of the stack.

use crate::Facts;
use crate::mark::TreeFacts;
use bc_core::CoreExp;
use bc_rules_defs::Derivation;

/// A tree that was taken off the stack.
#[derive(Drop)]
pub struct One {
    /// What the lines above it need to know of it.
    pub mark: TreeFacts,
    /// What the rules need to know of it.
    pub facts: Facts,
    /// Its expression.
    pub expression: CoreExp,
    /// The derivation that its rules make. It has no meaning if the tree shows no rules.
    pub derivation: Derivation,
}
