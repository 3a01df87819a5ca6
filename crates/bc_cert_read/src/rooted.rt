//! The root of an entry.

use bc_core::Root;
use bc_rules_defs::Derivation;

/// The root of an entry, as its lines describe it.
#[derive(Drop)]
pub struct Rooted {
    /// The expression, test or assignment.
    pub root: Root,
    /// The derivation that the rules of its nodes make.
    pub derivation: Derivation,
    /// The fewest words that any derivation of it has.
    pub words: u128,
}
