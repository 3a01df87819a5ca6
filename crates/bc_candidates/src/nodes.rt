//! Walks an expression and collects the candidates of its nodes, parts before wholes.
//!
//! The walk passes up `NodeParts`, which has no operand: the prover failed where such a struct of another crate was moved through a cycle
//! of calls. Operands are computed again where they are needed.

ghost use Rattle.std.specs.Prelude.{◌≡◌, ◌+◌, ◌∷◌, [], ◌++◌, None, IfOk, OnOk};
ghost use Rattle.bc_core.specs.Tree as tree;
ghost use Rattle.bc_core.specs.View.{exp, args};
ghost use Rattle.bc_core.specs.Operand.{operand_of, constant_of};
ghost use Rattle.bc_core.specs.Value.{has_call};
ghost use Rattle.bc_core.specs.WellFormed.{nodes as nodes_in};
ghost use Rattle.bc_rules_defs.specs.declared.rule.Rule.TheVariants.{V4, V22};
ghost use Rattle.bc_rules_defs.specs.declared.rule.Table.TheVariants.{Two};
ghost use Rattle.bc_select_defs.specs.Options.{plus as plus_of, words_of, candidate as candidate_of};
ghost use Rattle.bc_select_defs.specs.Choices.{choices, by_value, not_tests};
ghost use Rattle.bc_select_defs.specs.Nodes.{in_order, all_in_order};
ghost use Rattle.bc_select.specs.Order.{parts_in_order};
ghost use Rattle.bc_candidates.specs.Lists.{pushes, values, line, unary as unary_of, pair as lists_of_pair, conditional, applying_lists};
ghost use Rattle.bc_candidates.specs.Below.{IsBelow, IsPart, AreArguments, Adds};

use crate::binary_candidates::{mixed, worked};
use crate::candidate::Candidates;
use crate::lists::{Lists, Values};
use crate::sums::{add, candidate, plus, sum};
use bc_core::{CoreExp, Operand, constant, operand};
use bc_rules_defs::{Rule, number_words};
use bc_select::{Pair, any_words};
use bc_select_defs::{Asked, Choices};
use bc_word::{Memory, Op};
use std::alloc::Global;

/// The operand that an expression is, if any, and its level.
#[derive(Clone, Copy)]
struct Whole {
    operand: Option<Operand>,
    level: u64,
}

/// The result for an expression, after its parts were walked.
#[derive(Drop)]
pub struct Below {
    lists: Lists,
    /// Whether it contains a call or a VALOF.
    calls: bool,
    /// The number of its nodes.
    nodes: usize,
}

/// The facts about an expression that the enclosing one needs: its choices, whether it has a call or a VALOF, the number of its nodes.
#[derive(Clone, Copy)]
pub struct NodeParts {
    choices: Choices,
    calls: bool,
    nodes: usize,
}

/// The totals of a call's arguments: the words to evaluate and store each, and the number of their nodes.
#[derive(Clone, Copy)]
pub struct Arguments {
    words: Option<u64>,
    nodes: usize,
}

/// The sum of two numbers of nodes; `Memory` if it overflows.
fn count(x: usize, y: usize) -> Result<usize, Memory>
    ensures { IfOk result (λ n. n ≡ x + y) }
{
    match x.checked_add(y) {
        Some(sum) => Ok(sum),
        None => Err(Memory),
    }
}

/// The result for an expression without parts.
fn leaf(lists: Lists, calls: bool) -> Below
    ensures lists { result.lists ≡ lists }
    ensures calls { result.calls ≡ calls }
    ensures nodes { result.nodes ≡ 1 }
{
    Below {
        lists,
        calls,
        nodes: 1,
    }
}

/// The facts about an operand of a binary operator that the rules need.
fn operand_node(e: &CoreExp, part: &NodeParts) -> Asked
    ensures { result ≡ record {
      choices = part.now.choices;
      operand = operand_of (exp e.now);
      number = constant_of (exp e.now);
      calls = part.now.calls;
      nodes = part.now.nodes;
    } }
{
    Asked {
        choices: part.choices,
        operand: operand(e),
        number: constant(e),
        calls: part.calls,
        nodes: part.nodes,
    }
}

/// The rules for the value of a form with one part, given the form's rule.
fn unary_values(
    alloc: Global,
    rule: Rule,
    operand: Option<Operand>,
    part: &Choices,
) -> Result<Values, Memory>
    ensures push { IfOk result (λ v. v.push.items ≡ pushes operand (candidate_of rule (plus_of (words_of part.now.push) 1) ∷ [])) }
    ensures any { IfOk result (λ v. v.any.items ≡ values (pushes operand (candidate_of rule (plus_of (words_of part.now.push) 1)
        ∷ [])) (candidate_of rule (plus_of (words_of part.now.any) 1) ∷ [])) }
{
    let push = [candidate(rule, plus(any_words(part.push), 1)?)];
    let any = [candidate(rule, plus(any_words(part.any), 1)?)];
    Values::new(alloc, operand, &push, &any)
}

/// The lists of a binary operator. `operand` is the operand that the whole expression is, if any.
fn pair_lists(alloc: Global, pair: &Pair, operand: Option<Operand>) -> Result<Lists, Memory>
    ensures { IfOk result (λ l. l ≡ lists_of_pair Two pair.now.op operand pair.now.left pair.now.right pair.now.level) }
{
    let left = &pair.left.choices;
    let right = &pair.right.choices;
    let pushes = mixed(pair, any_words(left.push), any_words(right.push))?;
    let mut own = Vec::from_slice(
        alloc,
        &mixed(pair, any_words(left.any), any_words(right.any))?,
    )?;
    own.extend_from_slice(&worked(pair)?)?;
    let values = Values::new(alloc, operand, &pushes, own.as_slice())?;
    values.tested_as_pair(alloc, pair)
}

/// The lists of `condition -> this, that`.
fn conditional_lists(
    alloc: Global,
    condition: &Choices,
    this: &Choices,
    that: &Choices,
) -> Result<Lists, Memory>
    ensures { IfOk result (λ l. l ≡ conditional condition.now this.now that.now) }
{
    let first = sum(any_words(condition.on_false), any_words(this.any))?;
    let second = sum(any_words(condition.on_true), any_words(that.any))?;
    let own = [
        candidate(Rule::V20, plus(sum(first, any_words(that.any))?, 2)?),
        candidate(Rule::V21, plus(sum(second, any_words(this.any))?, 2)?),
    ];
    Values::new(alloc, None, &[], &own)?.tested_by_value(alloc)
}

/// The lists of a call or a VALOF that takes so many words.
fn called_lists(alloc: Global, words: Option<u64>) -> Result<Lists, Memory>
    ensures { IfOk result (λ l. l ≡ line None [] (candidate_of V22 words ∷ []) by_value) }
{
    let own = [candidate(Rule::V22, words)];
    Values::new(alloc, None, &[], &own)?.tested_by_value(alloc)
}

/// The candidates found up to now.
#[derive(Drop)]
pub struct Gathered {
    /// The allocator.
    pub alloc: Global,
    /// The candidates of the nodes, parts before wholes.
    pub found: Vec<Candidates>,
}

impl Gathered {
    /// Appends the applicable rules of these lists, as the candidates of one node.
    fn close(&mut self, lists: &Lists) -> Result<(), Memory>
        ensures { OnOk result (self.new.found.items ≡ self.old.found.items ++ (applying_lists lists.now ∷ [])) }
    {
        let candidates = lists.applying(self.alloc)?;
        self.found.push(candidates)?;
        Ok(())
    }

    /// Appends the candidates of the nodes of an expression at this level. Returns `Memory` if an allocation failed or a sum overflows.
    /// Recurses over the expression.
    #[tactic(auto, using(crate::proofs::Below::whole_added))]
    pub fn gather(&mut self, e: &CoreExp, level: u64) -> Result<(), Memory>
        ensures { OnOk result (Adds self.old.found.items self.new.found.items (in_order (exp e.now) level)) }
    {
        let below = self.below(e, level)?;
        self.close(&below.lists)?;
        Ok(())
    }

    /// Appends the candidates of an expression's nodes, and returns what the enclosing expression needs.
    #[cycle(gathering)]
    fn part(&mut self, e: &CoreExp, level: u64) -> Result<NodeParts, Memory>
        ensures part { IfOk result (λ p. IsPart p (exp e.now) level) }
        ensures found { OnOk result (Adds self.old.found.items self.new.found.items (in_order (exp e.now) level)) }
    {
        let below = self.below(e, level)?;
        self.close(&below.lists)?;
        Ok(NodeParts {
            choices: below.lists.choices(),
            calls: below.calls,
            nodes: below.nodes,
        })
    }

    /// Appends the candidates of the nodes of an expression's parts, and returns the lists of the expression itself.
    #[cycle(gathering)]
    #[tactic(auto, using(bc_core::proofs::Rows::call_view))]
    fn below(&mut self, e: &CoreExp, level: u64) -> Result<Below, Memory>
        ensures below { IfOk result (λ b. IsBelow b (exp e.now) level) }
        ensures found { OnOk result (Adds self.old.found.items self.new.found.items (parts_in_order (exp e.now) level)) }
    {
        let alloc = self.alloc;
        let whole = Whole {
            operand: operand(e),
            level,
        };
        match e {
            CoreExp::Num(number) => {
                let values = Values::new(alloc, whole.operand, &[], &[])?;
                Ok(leaf(values.tested_as_number(alloc, *number)?, false))
            }
            CoreExp::Frame(_) | CoreExp::Glob(_) | CoreExp::Place(_) => {
                let values = Values::new(alloc, whole.operand, &[], &[])?;
                Ok(leaf(values.tested_by_value(alloc)?, false))
            }
            CoreExp::Load(part) => self.unary(Rule::V2, part, whole),
            CoreExp::Neg(part) => self.unary(Rule::V3, part, whole),
            CoreExp::Not(part) => self.not(part, whole),
            CoreExp::Bin(op, left, right) => self.pair(*op, left, right, whole),
            CoreExp::Cond(condition, this, that) => self.conditional(condition, this, that, level),
            CoreExp::Call(arguments, routine) => self.call(arguments, routine, level),
            CoreExp::Valof(_) => Ok(leaf(called_lists(alloc, Some(0))?, true)),
        }
    }

    /// `below` for a form with one part whose only tests are by J6.
    #[cycle(gathering)]
    fn unary(&mut self, rule: Rule, part: &CoreExp, whole: Whole) -> Result<Below, Memory>
        ensures lists { IfOk result (λ b. b.lists ≡ unary_of rule whole.operand (choices Two (exp part.now) whole.level) by_value) }
        ensures calls { IfOk result (λ b. b.calls ≡ has_call (exp part.now)) }
        ensures nodes { IfOk result (λ b. b.nodes ≡ 1 + nodes_in (exp part.now)) }
        ensures found { OnOk result (Adds self.old.found.items self.new.found.items (in_order (exp part.now) whole.level)) }
    {
        let node = self.part(part, whole.level)?;
        let values = unary_values(self.alloc, rule, whole.operand, &node.choices)?;
        Ok(Below {
            lists: values.tested_by_value(self.alloc)?,
            calls: node.calls,
            nodes: count(1, node.nodes)?,
        })
    }

    /// `below` for NOT.
    #[cycle(gathering)]
    fn not(&mut self, part: &CoreExp, whole: Whole) -> Result<Below, Memory>
        ensures lists { IfOk result (λ b. b.lists ≡ unary_of V4 whole.operand
            (choices Two (exp part.now) whole.level) (not_tests (choices Two (exp part.now) whole.level))) }
        ensures calls { IfOk result (λ b. b.calls ≡ has_call (exp part.now)) }
        ensures nodes { IfOk result (λ b. b.nodes ≡ 1 + nodes_in (exp part.now)) }
        ensures found { OnOk result (Adds self.old.found.items self.new.found.items (in_order (exp part.now) whole.level)) }
    {
        let node = self.part(part, whole.level)?;
        let values = unary_values(self.alloc, Rule::V4, whole.operand, &node.choices)?;
        Ok(Below {
            lists: values.tested_as_not(self.alloc, &node.choices)?,
            calls: node.calls,
            nodes: count(1, node.nodes)?,
        })
    }

    /// `below` for a binary operator.
    #[cycle(gathering)]
    fn pair(
        &mut self,
        op: Op,
        left: &CoreExp,
        right: &CoreExp,
        whole: Whole,
    ) -> Result<Below, Memory>
        requires { whole.operand ≡ operand_of (tree.Bin op (exp left.now) (exp right.now)) }
        ensures below { IfOk result (λ b. IsBelow b (tree.Bin op (exp left.now) (exp right.now)) whole.level) }
        ensures found { OnOk result (Adds self.old.found.items self.new.found.items (parts_in_order (tree.Bin op (exp left.now) (exp right.now)) whole.level)) }
    {
        let level = whole.level;
        let inside = add(level, 1)?;
        let first = self.part(left, inside)?;
        let second = self.part(right, inside)?;
        let pair = Pair {
            op,
            left: operand_node(left, &first),
            right: operand_node(right, &second),
            level,
        };
        Ok(Below {
            lists: pair_lists(self.alloc, &pair, whole.operand)?,
            calls: first.calls || second.calls,
            nodes: count(count(1, first.nodes)?, second.nodes)?,
        })
    }

    /// `below` for `condition -> this, that`.
    #[cycle(gathering)]
    fn conditional(
        &mut self,
        condition: &CoreExp,
        this: &CoreExp,
        that: &CoreExp,
        level: u64,
    ) -> Result<Below, Memory>
        ensures below { IfOk result (λ b. IsBelow b (tree.Cond (exp condition.now) (exp this.now) (exp that.now)) level) }
        ensures found { OnOk result (Adds self.old.found.items self.new.found.items
            (parts_in_order (tree.Cond (exp condition.now) (exp this.now) (exp that.now)) level)) }
    {
        let condition = self.part(condition, level)?;
        let this = self.part(this, level)?;
        let that = self.part(that, level)?;
        let both = count(count(1, condition.nodes)?, this.nodes)?;
        Ok(Below {
            lists: conditional_lists(self.alloc, &condition.choices, &this.choices, &that.choices)?,
            calls: condition.calls || this.calls || that.calls,
            nodes: count(both, that.nodes)?,
        })
    }

    /// `below` for a call.
    #[cycle(gathering)]
    fn call(
        &mut self,
        arguments: &[CoreExp],
        routine: &CoreExp,
        level: u64,
    ) -> Result<Below, Memory>
        ensures below { IfOk result (λ b. IsBelow b (tree.Call (args arguments.now) (exp routine.now)) level) }
        ensures found { OnOk result (Adds self.old.found.items self.new.found.items (parts_in_order (tree.Call (args arguments.now) (exp routine.now)) level)) }
    {
        let inside = add(level, 2)?;
        let stored = self.arguments(arguments, inside)?;
        let following = add(inside, arguments.len() as u64)?;
        let node = self.part(routine, following)?;
        let both = sum(stored.words, any_words(node.choices.any))?;
        let words = plus(both, number_words(level))?;
        Ok(Below {
            lists: called_lists(self.alloc, words)?,
            calls: true,
            nodes: count(count(1, stored.nodes)?, node.nodes)?,
        })
    }

    /// The arguments of a call; the first one is at this level.
    #[cycle(gathering)]
    fn arguments(&mut self, arguments: &[CoreExp], level: u64) -> Result<Arguments, Memory>
        ensures arguments { IfOk result (λ a. AreArguments a (args arguments.now) level) }
        ensures found { OnOk result (Adds self.old.found.items self.new.found.items (all_in_order (args arguments.now) level)) }
    {
        let mut all = Arguments {
            words: Some(0),
            nodes: 0,
        };
        let mut level = level;
        for argument in arguments {
            let node = self.part(argument, level)?;
            let stored = plus(any_words(node.choices.any), number_words(level))?;
            all = Arguments {
                words: sum(all.words, stored)?,
                nodes: count(all.nodes, node.nodes)?,
            };
            level = add(level, 1)?;
        }
        Ok(all)
    }
}
