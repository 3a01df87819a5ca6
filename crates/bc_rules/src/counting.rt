//! The number of labels of a derivation. Counts stop at 65,537, so sums can't overflow, however large the root is.

ghost use Rattle.std.specs.Prelude.{◌≡◌, ◌≤◌, ◌+◌, min};
ghost use Rattle.bc_core.specs.Tree.{Assign};
ghost use Rattle.bc_core.specs.View.{exp, args, root as root_of};
ghost use Rattle.bc_rules_defs.specs.View.{derivation, derivations};
ghost use Rattle.bc_rules_defs.specs.Parts.{single as single_part, pair as two_parts, triple as three_parts, called};
ghost use Rattle.bc_rules_defs.specs.ByShape.{own_labels as own_labels_of, labels_by, labels_of_parts, root_labels_by};
ghost use Rattle.bc_rules.specs.View.{parts};

use crate::applying::{assignment_parts, parts_of};
use crate::parts::{Part, Parts};
use bc_core::{CoreExp, Root};
use bc_rules_defs::{Aim, Derivation, Mode, Rule};

/// A sum of labels, capped at 65,537.
fn sum(a: u32, b: u32) -> u32
    requires first { a ≤ 65537 }
    requires second { b ≤ 65537 }
    ensures { result ≡ min (a + b) 65537 }
{
    (a + b).min(65_537)
}

/// The number of a rule's own labels, for rules with two or three parts.
pub fn own_labels(rule: Rule) -> u32
    ensures { result ≡ own_labels_of rule }
{
    match rule {
        Rule::V20 | Rule::V21 => 2,
        Rule::J3 | Rule::J5 => 1,
        _ => 0,
    }
}

/// The number of labels that a derivation's code takes, capped at 65,537.
#[cycle(counting)]
#[tactic(auto, using(crate::proofs::Counts::labels_seen))]
fn labels(d: &Derivation, aim: Aim, e: &CoreExp) -> u32
    ensures { result ≡ min (labels_by (derivation d.now) aim (exp e.now)) 65537 }
{
    labels_of(d.rule, &d.parts, parts_of(d.rule, aim, e))
}

/// The number of labels of a rule with these parts: its own and those of the parts, capped at 65,537.
#[cycle(counting)]
#[tactic(auto, using(crate::proofs::Counts::one_labels, crate::proofs::Counts::no_one_labels, crate::proofs::Counts::two_labels, crate::proofs::Counts::no_two_labels, crate::proofs::Counts::three_labels, crate::proofs::Counts::no_three_labels, crate::proofs::Counts::no_leaf_labels))]
fn labels_of(rule: Rule, trees: &[Derivation], of: Parts) -> u32
    ensures { result ≡ min (labels_of_parts rule (parts of.entry) (derivations trees.now)) 65537 }
{
    match of {
        Parts::NoRule => 0,
        Parts::Leaf(valof) => { if trees.is_empty() && valof { 1 } else { 0 } }
        Parts::Single(a) => {
            if trees.len() == 1 {
                part(&trees[0], a)
            } else {
                0
            }
        }
        Parts::Pair(a, b) => {
            if trees.len() == 2 {
                let own = sum(own_labels(rule), part(&trees[0], a));
                sum(own, part(&trees[1], b))
            } else {
                0
            }
        }
        Parts::Triple(a, b, c) => {
            if trees.len() == 3 {
                let own = sum(2, part(&trees[0], a));
                sum(sum(own, part(&trees[1], b)), part(&trees[2], c))
            } else {
                0
            }
        }
        Parts::Call(arguments, routine) => call(rule, trees, arguments, routine),
    }
}

/// The number of labels of one part, capped at 65,537.
#[cycle(counting)]
fn part(d: &Derivation, a: Part) -> u32
    ensures { result ≡ min (labels_by (derivation d.now) a.entry.aim (exp a.entry.of.now)) 65537 }
{
    labels(d, a.aim, a.of)
}

/// The number of labels of a call's arguments and routine, capped at 65,537.
#[cycle(counting)]
#[tactic(auto, using(crate::proofs::Counts::call_labels_next, crate::proofs::Counts::call_labels_short))]
fn call(rule: Rule, trees: &[Derivation], arguments: &[CoreExp], routine: &CoreExp) -> u32
    ensures { result ≡ min (labels_of_parts rule (called 0 (args arguments.now) (exp routine.now)) (derivations trees.now)) 65537 }
{
    let any = Aim::Gets(Mode::Any);
    let mut total = 0;
    for (i, argument) in arguments.iter().enumerate() {
        if i >= trees.len() {
            return total;
        }
        total = sum(total, labels(&trees[i], any, argument));
    }
    let n = arguments.len();
    if trees.len() <= n || trees.len() - n != 1 {
        return total;
    }
    sum(total, labels(&trees[n], any, routine))
}

/// The number of labels of a root's derivation, capped at 65,537.
pub fn root_labels(root: &Root, d: &Derivation) -> u32
    ensures { result ≡ min (root_labels_by (root_of root.now) (derivation d.now)) 65537 }
{
    match root {
        Root::Value { expression, .. } => labels(d, Aim::Gets(Mode::Any), expression),
        Root::Test {
            sense,
            expression,
            ..
        } => labels(d, Aim::Jumps(*sense), expression),
        Root::Assign { value, address, .. } => sides(d, value, address),
    }
}

/// The number of labels of an assignment's derivation.
#[tactic(auto, using(crate::proofs::Counts::sides_labels))]
fn sides(d: &Derivation, value: &CoreExp, address: &CoreExp) -> u32
    ensures { result ≡ min (root_labels_by (Assign 0 (exp value.now) (exp address.now)) (derivation d.now)) 65537 }
{
    labels_of(d.rule, &d.parts, assignment_parts(d.rule, value, address))
}
