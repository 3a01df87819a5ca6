//! Builds the derivation that the rules of a node line make from those of the node's parts.

ghost use Rattle.std.specs.Prelude.{◌≡◌, map, take, IfOk};
ghost use Rattle.bc_rules_defs.specs.View.{derivation as tree, derivations};
ghost use Rattle.bc_rules_defs.specs.Rules.{by, one as one_tree};
ghost use Rattle.bc_cert_read.specs.Derived.{two_turned, last_turned as last_two_turned, taken as taken_of, trees, chained as chained_of, derived as derived_of};

use crate::{Chain, Rules};
use bc_rules_defs::{Aim, Derivation, Mode, Rule, Takes};
use bc_word::Memory;
use std::alloc::Global;

/// Which parts a rule derives is the same for each aim.
const ANY: Aim = Aim::Gets(Mode::Any);

/// Two parts in reverse order; any other number as they are.
#[tactic(auto, using(crate::proofs::Derived::two_seen, crate::proofs::Derived::not_two_seen))]
fn turned(mut parts: Vec<Derivation>) -> Vec<Derivation>
    ensures { map tree result.items ≡ two_turned (map tree parts.items) }
{
    if parts.len() == 2 {
        parts.swap(0, 1);
    }
    parts
}

/// Three parts with the last two swapped; any other number as they are.
#[tactic(auto, using(crate::proofs::Derived::three_seen, crate::proofs::Derived::not_three_seen))]
fn last_turned(mut parts: Vec<Derivation>) -> Vec<Derivation>
    ensures { map tree result.items ≡ last_two_turned (map tree parts.items) }
{
    if parts.len() == 3 {
        parts.swap(1, 2);
    }
    parts
}

/// Only the first part.
#[tactic(auto, using(crate::proofs::Derived::take_seen))]
fn first(mut parts: Vec<Derivation>) -> Vec<Derivation>
    ensures { map tree result.items ≡ take 1 (map tree parts.items) }
{
    parts.truncate(1);
    parts
}

/// The parts that a rule derives, in the order of the code.
pub fn taken(takes: Takes, mut parts: Vec<Derivation>) -> Vec<Derivation>
    ensures { map tree result.items ≡ taken_of takes (map tree parts.items) }
{
    match takes {
        Takes::Nothing => {
            parts.truncate(0);
            parts
        }
        Takes::First(_) => first(parts),
        Takes::Second(_) => first(turned(parts)),
        Takes::InOrder(_, _) | Takes::Choice(false) | Takes::Call => parts,
        Takes::Turned(_, _) => turned(parts),
        Takes::Choice(true) => last_turned(parts),
    }
}

/// A rule over its parts.
fn rule_over(rule: Rule, parts: Vec<Derivation>) -> Derivation
    ensures { tree result ≡ by rule (derivations parts.items) }
{
    Derivation { rule, parts }
}

/// A rule over its parts.
pub fn by_rule(rule: Rule, parts: Vec<Derivation>) -> Derivation
    ensures { tree result ≡ by rule (trees (map tree parts.items)) }
{
    rule_over(rule, parts)
}

/// A rule with one part. Returns `Memory` if an allocation fails.
fn over(alloc: Global, rule: Rule, part: Derivation) -> Result<Derivation, Memory>
    ensures { IfOk result (λ d. tree d ≡ by rule (one_tree (tree part))) }
{
    let mut parts = Vec::new(alloc);
    parts.push(part)?;
    Ok(by_rule(rule, parts))
}

/// The derivation by the rules of a chain, over these parts.
fn chained(alloc: Global, chain: Chain, parts: Vec<Derivation>) -> Result<Derivation, Memory>
    ensures { IfOk result (λ d. tree d ≡ chained_of chain (map tree parts.items)) }
{
    let rule = by_rule(chain.rule, parts);
    let freed = if chain.is_freed {
        over(alloc, Rule::V0, rule)?
    } else {
        rule
    };
    if chain.is_tested {
        over(alloc, Rule::J6, freed)
    } else {
        Ok(freed)
    }
}

/// The derivation of a node by the rules of its line, from those of its parts. It has no meaning if the line shows no rules.
/// Returns `Memory` if an allocation fails.
pub fn derived(
    alloc: Global,
    rules: Rules,
    second_is_zero: bool,
    parts: Vec<Derivation>,
) -> Result<Derivation, Memory>
    ensures { IfOk result (λ d. tree d ≡ derived_of rules second_is_zero (map tree parts.items)) }
{
    match rules {
        Rules::Named(chain) => {
            chained(
                alloc,
                chain,
                taken(chain.rule.takes(ANY, second_is_zero), parts),
            )
        }
        Rules::Taken | Rules::Wrong => Ok(by_rule(Rule::V1, Vec::new(alloc))),
    }
}
