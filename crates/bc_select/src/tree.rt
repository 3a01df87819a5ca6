//! Makes a derivation from its parts.

ghost use Rattle.std.specs.Prelude.{◌≡◌};
ghost use Rattle.bc_rules_defs.specs.View.{derivation, derivations};
ghost use Rattle.bc_rules_defs.specs.Rules.{by};

use bc_rules_defs::{Derivation, Rule};

/// The derivation with this rule over these parts.
#[tactic(auto, using(crate::proofs::Trees::tree_view))]
pub fn tree(rule: Rule, parts: Vec<Derivation>) -> Derivation
    ensures { derivation result ≡ by rule (derivations parts.items) }
{
    Derivation { rule, parts }
}
