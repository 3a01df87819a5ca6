//! Computes a node from those of its parts, which are the last ones in the table.

ghost use Rattle.std.specs.Prelude.{◌≡◌, ◌<◌, ◌≤◌, ◌+◌, ◌*◌, ◌^◌, ◌||◌, true, false};
ghost use Rattle.bc_core.specs.Tree as tree;
ghost use Rattle.bc_core.specs.View.{exp, args};
ghost use Rattle.bc_core.specs.Operand.{operand_of, constant_of};
ghost use Rattle.bc_core.specs.WellFormed.{nodes as nodes_in, nodes_of_args};
ghost use Rattle.bc_rules_defs.specs.declared.rule.Table.TheVariants.{Two};
ghost use Rattle.bc_select_defs.specs.Choices.{pair_choices as choices_of_pair, unary_choices as unary_of, not_choices as not_of, cond_choices as cond_of, call_choices as call_of};
ghost use Rattle.bc_select_defs.specs.Options.{words_of};
ghost use Rattle.bc_select.specs.Laid.{EndsInParts, EndsInArguments, AreFew, words_before};
ghost use Rattle.bc_select.specs.Vector.{node as node_of, part_of_pair};
ghost use Rattle.bc_select.specs.Small.{Small, AreSmall};

use crate::binary_choices::{Pair, pair_choices};
use crate::candidates::{plus, sum, words};
use crate::node::{PartNode, cell_operand, own_operand};
use crate::subtrees::{cut, last};
use crate::table::Nodes;
use crate::unary_choices::{
    call_choices, cond_choices, leaf_choices, not_choices, number_choices, unary_choices,
    valof_choices,
};
use bc_core::{CoreExp, Operand, constant};
use bc_rules_defs::{Rule, number_words};
use bc_select_defs::{Asked, Choices};
use bc_word::Op;

/// The totals of some arguments of a call.
#[derive(Clone, Copy)]
pub struct Arguments {
    /// The words to evaluate each and to store it in its cell.
    pub words: Option<u64>,
    /// The number of their nodes.
    pub nodes: usize,
}

/// A binary operator, the operand that the whole expression is, and its level.
#[derive(Clone, Copy)]
struct Operator {
    op: Op,
    operand: Option<Operand>,
    level: u64,
}

/// The node of an expression without parts.
fn leaf(choices: Choices) -> PartNode
    ensures { result ≡ record { choices = choices; calls = false; nodes = 1 } }
{
    PartNode {
        choices,
        calls: false,
        nodes: 1,
    }
}

/// The node of a form with one part, given the form's rule.
#[inline(always)]
fn unary_part(rule: Rule, operand: Option<Operand>, part: &PartNode) -> PartNode
    requires part { AreSmall part.now.choices }
    requires value { Small (words_of (unary_of rule operand part.now.choices).any) }
    requires fits { part.now.nodes < 2 ^ 40 }
    ensures { result ≡ record { choices = unary_of rule operand part.now.choices; calls = part.now.calls; nodes = 1 + part.now.nodes } }
{
    PartNode {
        choices: unary_choices(rule, operand, &part.choices),
        calls: part.calls,
        nodes: 1 + part.nodes,
    }
}

/// The node of NOT.
fn not_part(part: &PartNode) -> PartNode
    requires part { AreSmall part.now.choices }
    requires fits { part.now.nodes < 2 ^ 40 }
    ensures { result ≡ record { choices = not_of part.now.choices; calls = part.now.calls; nodes = 1 + part.now.nodes } }
{
    PartNode {
        choices: not_choices(&part.choices),
        calls: part.calls,
        nodes: 1 + part.nodes,
    }
}

/// The facts about an operand that the rules need, from the expression and its node.
#[inline(always)]
pub fn operand_node(e: &CoreExp, part: &PartNode) -> Asked
    ensures { result ≡ record { choices = part.now.choices; operand = operand_of (exp e.now); number = constant_of (exp e.now); calls = part.now.calls; nodes = part.now.nodes } }
{
    Asked {
        choices: part.choices,
        operand: own_operand(e),
        number: constant(e),
        calls: part.calls,
        nodes: part.nodes,
    }
}

/// The node of a binary operator with these operands. `operand` is the operand that the whole expression is, if any.
#[inline(always)]
fn pair_part(pair: &Pair, operand: Option<Operand>) -> PartNode
    requires first { AreSmall pair.now.left.choices }
    requires second { AreSmall pair.now.right.choices }
    requires value { Small (words_of (choices_of_pair Two pair.now.op operand pair.now.left pair.now.right pair.now.level).any) }
    requires level { pair.now.level ≤ 2 ^ 40 }
    requires fits { pair.now.left.nodes + pair.now.right.nodes < 2 ^ 40 }
    ensures { result ≡ part_of_pair pair.now operand }
{
    PartNode {
        choices: pair_choices(pair, operand),
        calls: pair.left.calls || pair.right.calls,
        nodes: 1 + pair.left.nodes + pair.right.nodes,
    }
}

/// The node of a binary operator, whose operands' nodes are the last in `below`.
fn pair_node(operator: &Operator, left: &CoreExp, right: &CoreExp, below: &Nodes) -> PartNode
    requires operand { operator.now.operand ≡ operand_of (tree.Bin operator.now.op (exp left.now) (exp right.now)) }
    requires fits { operator.now.level + 2 * nodes_in (tree.Bin operator.now.op (exp left.now) (exp right.now)) ≤ 2 ^ 40 }
    requires laid { EndsInParts below.now (tree.Bin operator.now.op (exp left.now) (exp right.now)) operator.now.level }
    ensures { result ≡ node_of (tree.Bin operator.now.op (exp left.now) (exp right.now)) operator.now.level }
{
    let (front, _) = cut(below);
    let pair = Pair {
        op: operator.op,
        left: operand_node(left, &last(&front)),
        right: operand_node(right, &last(below)),
        level: operator.level,
    };
    pair_part(&pair, operator.operand)
}

/// The node of `condition -> this, that`.
fn cond_part(condition: &PartNode, this: &PartNode, that: &PartNode) -> PartNode
    requires condition { AreSmall condition.now.choices }
    requires this { AreSmall this.now.choices }
    requires that { AreSmall that.now.choices }
    requires value { Small (words_of (cond_of condition.now.choices this.now.choices that.now.choices).any) }
    requires fits { condition.now.nodes + this.now.nodes + that.now.nodes < 2 ^ 40 }
    ensures { result ≡ record { choices = cond_of condition.now.choices this.now.choices that.now.choices; calls = condition.now.calls || this.now.calls || that.now.calls; nodes = 1 + condition.now.nodes + this.now.nodes + that.now.nodes } }
{
    PartNode {
        choices: cond_choices(&condition.choices, &this.choices, &that.choices),
        calls: condition.calls || this.calls || that.calls,
        nodes: 1 + condition.nodes + this.nodes + that.nodes,
    }
}

/// The totals of these arguments and of those that follow them. The nodes of these arguments are the last in `below`.
fn with_arguments(
    arguments: &[CoreExp],
    level: u64,
    below: &Nodes,
    following: Arguments,
) -> Arguments
    requires fits { level + 2 * (nodes_of_args (args arguments.now) + following.nodes) ≤ 2 ^ 40 }
    requires laid { EndsInArguments below.now (args arguments.now) level }
    requires few { AreFew following }
    ensures words { result.words ≡ words_before (args arguments.now) level following.words }
    ensures nodes { result.nodes ≡ nodes_of_args (args arguments.now) + following.nodes }
{
    let Some((argument, others)) = arguments.split_last() else {
        return following;
    };
    let part = last(below);
    let (front, _) = cut(below);
    let stored = plus(
        words(part.choices.any),
        number_words(level + others.len() as u64),
    );
    let following = Arguments {
        words: sum(stored, following.words),
        nodes: part.nodes + following.nodes,
    };
    with_arguments(others, level, &front, following)
}

/// The node of a call, from the totals of its arguments and the node of its routine.
fn call_part(arguments: &Arguments, routine: &PartNode, level: u64) -> PartNode
    requires arguments { Small arguments.now.words }
    requires routine { AreSmall routine.now.choices }
    requires value { Small (words_of (call_of arguments.now.words routine.now.choices level).any) }
    requires fits { arguments.now.nodes + routine.now.nodes < 2 ^ 40 }
    ensures { result ≡ record { choices = call_of arguments.now.words routine.now.choices level; calls = true; nodes = 1 + arguments.now.nodes + routine.now.nodes } }
{
    PartNode {
        choices: call_choices(arguments.words, &routine.choices, level),
        calls: true,
        nodes: 1 + arguments.nodes + routine.nodes,
    }
}

/// The node of an expression, whose parts' nodes are the last in `below`.
#[tactic(auto, using(bc_core::proofs::Rows::call_view))]
pub fn node(e: &CoreExp, level: u64, below: &Nodes) -> PartNode
    requires fits { level + 2 * nodes_in (exp e.now) ≤ 2 ^ 40 }
    requires laid { EndsInParts below.now (exp e.now) level }
    ensures { result ≡ node_of (exp e.now) level }
{
    match e {
        CoreExp::Num(number) => leaf(number_choices(own_operand(e), *number)),
        CoreExp::Frame(_) | CoreExp::Glob(_) | CoreExp::Place(_) => {
            leaf(leaf_choices(own_operand(e)))
        }
        CoreExp::Load(address) => unary_part(Rule::V2, cell_operand(address), &last(below)),
        CoreExp::Neg(_) => unary_part(Rule::V3, None, &last(below)),
        CoreExp::Not(_) => not_part(&last(below)),
        CoreExp::Bin(op, left, right) => {
            let operator = Operator {
                op: *op,
                operand: own_operand(e),
                level,
            };
            pair_node(&operator, left, right, below)
        }
        CoreExp::Cond(_, _, _) => {
            let (front, _) = cut(below);
            let (test, _) = cut(&front);
            cond_part(&last(&test), &last(&front), &last(below))
        }
        CoreExp::Call(arguments, _) => {
            let (front, _) = cut(below);
            let none = Arguments {
                words: Some(0),
                nodes: 0,
            };
            let arguments = with_arguments(arguments, level + 2, &front, none);
            call_part(&arguments, &last(below), level)
        }
        CoreExp::Valof(_) => PartNode {
            choices: valof_choices(),
            calls: true,
            nodes: 1,
        },
    }
}
