//! For which aims the rules that a node line names make a derivation with the stated words.

ghost use Rattle.std.specs.Prelude.{◌≡◌};
ghost use Rattle.bc_cert_read.specs.Node.{node as node_of};
ghost use Rattle.bc_cert_read.specs.Showing.{makes as makes_of, agree as agree_of, has_words as has_words_of, is_test as is_test_of, shown_by as shown_by_of, tested as tested_of, tests as tests_of, is_value as is_value_of, shown_for as shown_for_of, judged as judged_of};

use crate::mark::{Shown, TreeFacts};
use crate::position::Position;
use crate::{Chain, Node, NodeLine, Rules};
use bc_cert_defs::{CheckFault, Costs};
use bc_rules_defs::{Aim, Mode, Rule, Takes};

/// A value, where register B may be lost.
const ANY: Aim = Aim::Gets(Mode::Any);

/// A value, where B must end up with the former A.
const PUSH: Aim = Aim::Gets(Mode::Push);

/// Whether both are the same number. False if either is None.
fn has_words(words: Option<u128>, stated: Option<u64>) -> bool
    ensures { result ≡ has_words_of words stated }
{
    match (words, stated) {
        (Some(words), Some(stated)) => words == u128::from(stated),
        (Some(_), None) | (None, _) => false,
    }
}

/// Whether each part that the rule derives shows rules for its aim, and the other parts show none.
fn agree(takes: Takes, parts: &[TreeFacts]) -> bool
    ensures { result ≡ agree_of takes 0 parts.now }
{
    for at in 0..parts.len() {
        let fits = match takes.aim_of(at) {
            Some(aim) => parts[at].shown.has(aim),
            None => parts[at].is_bare,
        };
        if !fits {
            return false;
        }
    }
    true
}

/// Whether the rule applies for this aim, its parts show what it needs, and it has exactly the stated words.
fn makes(node: &Node, parts: &[TreeFacts], rule: Rule, aim: Aim, words: Option<u64>) -> bool
    ensures { result ≡ makes_of (node_of node.now) parts.now rule aim words }
{
    match node.recipe(rule, aim) {
        Some(recipe) => has_words(node.words_of(recipe), words) && agree(recipe.takes, parts),
        None => false,
    }
}

/// Whether this is a rule of tests.
fn is_test(rule: Rule) -> bool
    ensures { result ≡ is_test_of rule }
{
    match rule {
        Rule::J1
        | Rule::J2
        | Rule::J3
        | Rule::J4
        | Rule::J5
        | Rule::J6
        | Rule::J7
        | Rule::J8
        | Rule::J9 => true,
        _ => false,
    }
}

/// Whether a test that is made of a value with `any` words has the stated words: the jump adds two.
fn tested(any: u64, stated: u64) -> bool
    ensures { result ≡ tested_of any stated }
{
    u128::from(any) + 2 == u128::from(stated)
}

/// The aims for which a rule of tests, other than `J6`, makes a derivation with the stated words.
fn tests(node: &Node, parts: &[TreeFacts], costs: &Costs, rule: Rule) -> Shown
    ensures { result ≡ tests_of (node_of node.now) parts.now costs.now rule }
{
    Shown {
        any: false,
        push: false,
        on_false: makes(node, parts, rule, Aim::Jumps(false), Some(costs.on_false)),
        on_true: makes(node, parts, rule, Aim::Jumps(true), Some(costs.on_true)),
    }
}

/// Whether a pushed value is stated to have as many words as a value, so that `V0` gives the value's words.
fn is_value(costs: &Costs) -> bool
    ensures { result ≡ is_value_of costs.now }
{
    match costs.push {
        Some(push) => push == costs.any,
        None => false,
    }
}

/// The aims for which the rules of a chain make a derivation over what the parts show. Each of the rules must have the words that
/// are stated for its aim.
pub fn shown_by(node: &Node, parts: &[TreeFacts], costs: &Costs, chain: Chain) -> Shown
    ensures { result ≡ shown_by_of (node_of node.now) parts.now costs.now chain }
{
    let rule = chain.rule;
    if is_test(rule) {
        return tests(node, parts, costs, rule);
    }
    let push = makes(node, parts, rule, PUSH, costs.push);
    let any = if chain.is_freed {
        push && is_value(costs)
    } else {
        makes(node, parts, rule, ANY, Some(costs.any))
    };
    if chain.is_tested {
        let goes = any && node.form.is_plain();
        Shown {
            any: false,
            push: false,
            on_false: goes && tested(costs.any, costs.on_false),
            on_true: goes && tested(costs.any, costs.on_true),
        }
    } else {
        Shown {
            any,
            push: push && !chain.is_freed,
            on_false: false,
            on_true: false,
        }
    }
}

/// The aims for which a node line shows rules; none if its field is `-`. Returns `WrongRule` if its rules make no derivation.
fn shown_for(
    node: &Node,
    parts: &[TreeFacts],
    line: &NodeLine,
    place: Position,
) -> Result<Shown, CheckFault>
    ensures { result ≡ shown_for_of (node_of node.now) parts.now line.now place }
{
    match line.rules {
        Rules::Taken => Ok(Shown {
            any: false,
            push: false,
            on_false: false,
            on_true: false,
        }),
        Rules::Named(chain) => {
            let shown = shown_by(node, parts, &line.costs, chain);
            if shown.is_some() {
                Ok(shown)
            } else {
                Err(CheckFault::WrongRule(place.entry, place.node))
            }
        }
        Rules::Wrong => Err(CheckFault::WrongRule(place.entry, place.node)),
    }
}

/// The aims for which a node line shows rules; none if its field is `-`.
///
/// Returns `WrongCost` if one of the line's numbers isn't the least, else `WrongRule` if its rules make no derivation.
pub fn judged(
    node: &Node,
    parts: &[TreeFacts],
    line: &NodeLine,
    place: Position,
) -> Result<Shown, CheckFault>
    ensures { result ≡ judged_of (node_of node.now) parts.now line.now place }
{
    if node.least_words().are(&line.costs) {
        shown_for(node, parts, line, place)
    } else {
        Err(CheckFault::WrongCost(place.entry, place.node))
    }
}
