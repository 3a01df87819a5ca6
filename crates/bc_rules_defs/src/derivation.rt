//! Derivations as trees of rule names.

use crate::rule::Rule;

/// A tree of rule names. Whether it is a derivation of a given root is decided by `bc_rules::is_derivation`.
#[derive(Debug, Drop, PartialEq, Eq)]
pub struct Derivation {
    /// The rule of this node.
    pub rule: Rule,
    /// The derivations of the rule's parts, in the order of its code.
    pub parts: Vec<Derivation>,
}
