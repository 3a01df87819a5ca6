//! Finds in a derivation which rules apply at each node of the expression.
//!
//! A derivation is a tree of rules and doesn't name the nodes. `V0` and `J6` apply at the same node as the rule below them, and the
//! parts of a rule come in the order of the code.

ghost use Rattle.std.specs.Prelude.{◌≡◌, drop};
ghost use Rattle.bc_rules_defs.specs.Rules.{by};
ghost use Rattle.bc_rules_defs.specs.View.{derivations};
ghost use Rattle.bc_cert_write.specs.Walked.{tree_of, first, parts as parts_of, top_of, is_v0 as is_v0_of, is_j6 as is_j6_of, following, own as own_of, at_slot as slot_of, chain_of, chain_of_value, after_value, after_test, placed, first_place, second_place, third_place};

use crate::chain::Chain;
use crate::slot::{Slot, first_slot, second_slot, third_slot};
use bc_rules_defs::{Aim, Derivation, Mode, Rule};

/// Which parts a rule derives, and in which order, is the same for each aim.
const ANY: Aim = Aim::Gets(Mode::Any);

/// The tree at this index.
#[tactic(auto, using(crate::proofs::Seen::tree_at))]
pub fn at(trees: &[Derivation], index: usize) -> Option<&Derivation>
    ensures { tree_of result ≡ first (derivations (drop index trees.now)) }
{
    trees.get(index)
}

/// The parts of a tree; none without a tree.
#[tactic(auto, using(crate::proofs::Seen::parts_seen))]
pub fn parts(tree: Option<&Derivation>) -> &[Derivation]
    ensures { derivations result.now ≡ parts_of (tree_of tree.entry) }
{
    match tree {
        Some(tree) => &tree.parts,
        None => &[],
    }
}

/// The outermost rule of a tree.
#[tactic(auto, using(crate::proofs::Seen::top_seen))]
pub fn top(tree: Option<&Derivation>) -> Option<Rule>
    ensures { result ≡ top_of (tree_of tree.entry) }
{
    match tree {
        Some(tree) => Some(tree.rule),
        None => None,
    }
}

/// Whether the rule is `V0`.
fn is_v0(rule: Rule) -> bool
    ensures { result ≡ is_v0_of rule }
{
    match rule {
        Rule::V0 => true,
        _ => false,
    }
}

/// Whether the rule is `J6`.
fn is_j6(rule: Rule) -> bool
    ensures { result ≡ is_j6_of rule }
{
    match rule {
        Rule::J6 => true,
        _ => false,
    }
}

/// The tree below a `V0`; any other tree is returned as it is.
#[tactic(auto, using(crate::proofs::Seen::after_seen))]
fn after_v0(tree: Option<&Derivation>) -> Option<&Derivation>
    ensures { tree_of result ≡ following is_v0_of (tree_of tree.entry) }
{
    let own = tree?;
    if is_v0(own.rule) {
        at(&own.parts, 0)
    } else {
        Some(own)
    }
}

/// The tree below a `J6`; any other tree is returned as it is.
#[tactic(auto, using(crate::proofs::Seen::after_seen))]
fn after_j6(tree: Option<&Derivation>) -> Option<&Derivation>
    ensures { tree_of result ≡ following is_j6_of (tree_of tree.entry) }
{
    let own = tree?;
    if is_j6(own.rule) {
        at(&own.parts, 0)
    } else {
        Some(own)
    }
}

/// The tree without its outer rules `J6` and `V0`, which apply at the same node as the rule below them.
pub fn own(tree: Option<&Derivation>) -> Option<&Derivation>
    ensures { tree_of result ≡ own_of (tree_of tree.entry) }
{
    after_v0(after_j6(tree))
}

/// The tree of this part of a rule.
#[tactic(auto, using(crate::proofs::Seen::rest_seen))]
pub fn at_slot(trees: &[Derivation], slot: Slot) -> Option<&Derivation>
    ensures { tree_of result ≡ slot_of slot (derivations trees.now) }
{
    match slot {
        Slot::Nowhere => None,
        Slot::First => at(trees, 0),
        Slot::Second => at(trees, 1),
        Slot::Third => at(trees, 2),
    }
}

/// The rules at the node of a value whose outermost rule is this one, with these parts.
fn value_rules(rule: Rule, trees: &[Derivation]) -> Chain
    ensures { result ≡ chain_of_value (Some (by rule (derivations trees.now))) }
{
    if !is_v0(rule) {
        return Chain::One(rule);
    }
    match top(at(trees, 0)) {
        Some(pushed) => Chain::Two(Rule::V0, pushed),
        None => Chain::One(Rule::V0),
    }
}

/// `J6`, followed by the rules of the value that is tested.
fn test_rules(value: Chain) -> Chain
    ensures { result ≡ after_test value }
{
    match value {
        Chain::Nothing => Chain::One(Rule::J6),
        Chain::One(rule) => Chain::Two(Rule::J6, rule),
        Chain::Two(rule, pushed) => Chain::Three(Rule::J6, rule, pushed),
        Chain::Three(_, _, _) => value,
    }
}

/// The rules at the node of a value's tree.
#[tactic(auto, using(crate::proofs::Seen::value_seen))]
fn value_chain(tree: Option<&Derivation>) -> Chain
    ensures { result ≡ chain_of_value (tree_of tree.entry) }
{
    match tree {
        Some(tree) => value_rules(tree.rule, &tree.parts),
        None => Chain::Nothing,
    }
}

/// The rules at the node of a tree, the outermost first.
#[tactic(auto, using(crate::proofs::Seen::chain_seen))]
pub fn rules_at(tree: Option<&Derivation>) -> Chain
    ensures { result ≡ chain_of (tree_of tree.entry) }
{
    match tree {
        Some(tree) => rules_over(tree.rule, &tree.parts),
        None => Chain::Nothing,
    }
}

/// The rules at a node whose outermost rule is this one, with these parts.
fn rules_over(rule: Rule, trees: &[Derivation]) -> Chain
    ensures { result ≡ chain_of (Some (by rule (derivations trees.now))) }
{
    if is_j6(rule) {
        test_rules(value_chain(at(trees, 0)))
    } else {
        value_rules(rule, trees)
    }
}

/// The tree that derives a node's first part. `zero` says whether the second part is the number 0.
#[tactic(auto, using(crate::proofs::Seen::placed_seen))]
pub fn first_part(tree: Option<&Derivation>, zero: bool) -> Option<&Derivation>
    ensures { tree_of result ≡ placed (first_place zero) (tree_of tree.entry) }
{
    match tree {
        Some(own) => at_slot(&own.parts, first_slot(own.rule.takes(ANY, zero))),
        None => None,
    }
}

/// The tree that derives a node's second part. `zero` says whether that part is the number 0.
#[tactic(auto, using(crate::proofs::Seen::placed_seen))]
pub fn second_part(tree: Option<&Derivation>, zero: bool) -> Option<&Derivation>
    ensures { tree_of result ≡ placed (second_place zero) (tree_of tree.entry) }
{
    match tree {
        Some(own) => at_slot(&own.parts, second_slot(own.rule.takes(ANY, zero))),
        None => None,
    }
}

/// The tree that derives a node's third part.
#[tactic(auto, using(crate::proofs::Seen::placed_seen))]
pub fn third_part(tree: Option<&Derivation>) -> Option<&Derivation>
    ensures { tree_of result ≡ placed third_place (tree_of tree.entry) }
{
    match tree {
        Some(own) => at_slot(&own.parts, third_slot(own.rule.takes(ANY, false))),
        None => None,
    }
}
