//! The rules that a node line names.

use bc_rules_defs::Rule;

/// The rules at a node, the outermost first. There are at most three, as in `J6.V0.V1`.
#[derive(Clone, Copy)]
pub enum Chain {
    /// No rules: the line has `-`.
    Nothing,
    /// One rule.
    One(Rule),
    /// Two rules.
    Two(Rule, Rule),
    /// Three rules.
    Three(Rule, Rule, Rule),
}
