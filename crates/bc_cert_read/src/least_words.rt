//! The least words of a node.
//!
//! The most frequent forms (a dyadic operator, the content of a cell, a number) list their rules one after another. Each call then has a
//! constant rule, so that the compiler keeps only the conditions of that rule. The other forms loop over a list of rules.
#![tactic(auto, unfolding(bc_select_defs::specs::Options::plus, bc_select_defs::specs::Options::sum, bc_select_defs::specs::Options::given))]

ghost use Rattle.std.specs.Prelude.{◌≡◌, ◌<◌, ◌+◌, ◌^◌, List, [], ◌∷◌, None, IfSome};
ghost use Rattle.bc_rules_defs.specs.declared.rule.Mode.TheVariants as modes;
ghost use Rattle.bc_rules_defs.specs.declared.rule.Aim.TheVariants as aims;
ghost use Rattle.bc_cert_read.specs.declared.form.Form.TheVariants as forms;
ghost use Rattle.bc_cert_read.specs.Pair.{both, pair_node, value_words, test_words};
ghost use Rattle.bc_cert_read.specs.Node.{node, node_of, words_where, least as least_of, by_value as by_value_of, gathered, least_words_of, pushes_of, values_of, tests_of};

use crate::costs::LeastWords;
use crate::facts::Facts;
use crate::form::Form;
use crate::node::{Node, lesser, pushes, sum, test_of_two, tests, value_of_two, values};
use crate::recipe::{Recipe, makes, with_operand};
use bc_rules_defs::{Aim, Mode, Rule, jumps};
use bc_word::{Op, Word};

/// A value, where register B must end up with the former A.
const PUSH: Aim = Aim::Gets(Mode::Push);

/// A dyadic operator and its operands.
#[derive(Clone, Copy)]
pub struct Pair<'p> {
    /// The operator.
    pub op: Op,
    /// The facts of its left operand.
    pub left: &'p Facts,
    /// The facts of its right operand.
    pub right: &'p Facts,
}

/// The words of a test that is made of the value (rule `J6`), given the value's words.
#[inline(always)]
fn by_value(form: Form, any: Option<u128>) -> Option<u128>
    requires { IfSome any (λ n. n < 2 ^ 127 + 2 ^ 70) }
    ensures { result ≡ by_value_of form any }
{
    match any {
        Some(words) => {
            if form.is_plain() {
                Some(words + 2)
            } else {
                None
            }
        }
        None => None,
    }
}

/// The least words for each aim, from those by each kind of rule: of a pushed value, of a value without `V0`, and of tests on false and
/// on true without `J6`.
#[inline(always)]
fn gather(
    form: Form,
    push: Option<u128>,
    values: Option<u128>,
    on_false: Option<u128>,
    on_true: Option<u128>,
) -> LeastWords
    requires push { IfSome push (λ n. n < 2 ^ 127 + 2 ^ 70) }
    requires values { IfSome values (λ n. n < 2 ^ 127 + 2 ^ 70) }
    ensures { result ≡ gathered form push values on_false on_true }
{
    let any = lesser(push, values);
    let value = by_value(form, any);
    LeastWords {
        any,
        push,
        on_false: lesser(value, on_false),
        on_true: lesser(value, on_true),
    }
}

impl<'p> Node<'p> {
    /// The words of a rule at a node without parts. None if the rule doesn't apply.
    #[inline(always)]
    fn words_alone(&self, recipe: Option<Recipe>) -> Option<u128>
        ensures exact { result ≡ words_where self.now.level [] recipe }
        ensures few { IfSome result (λ n. n < 2 ^ 127 + 2 ^ 70) }
    {
        match recipe {
            Some(recipe) => Some(u128::from(recipe.words)),
            None => None,
        }
    }

    /// The words of a rule at a node with one part. None if the rule doesn't apply.
    #[inline(always)]
    fn words_over(&self, recipe: Option<Recipe>, part: &Facts) -> Option<u128>
        ensures exact { result ≡ words_where self.now.level (part.now ∷ []) recipe }
        ensures few { IfSome result (λ n. n < 2 ^ 127 + 2 ^ 70) }
    {
        match recipe {
            Some(recipe) => sum(
                Some(u128::from(recipe.words)),
                self.wanted(recipe.takes, 0, part, true),
            ),
            None => None,
        }
    }

    /// The words of a rule at a node with two parts. None if the rule doesn't apply.
    #[inline(always)]
    fn words_over_both(&self, recipe: Option<Recipe>, pair: Pair<'_>) -> Option<u128>
        ensures exact { result ≡ words_where self.now.level (both pair.entry) recipe }
        ensures few { IfSome result (λ n. n < 2 ^ 127 + 2 ^ 70) }
    {
        match recipe {
            Some(recipe) => {
                let left = self.wanted(recipe.takes, 0, pair.left, false);
                let right = self.wanted(recipe.takes, 1, pair.right, true);
                sum(sum(Some(u128::from(recipe.words)), left), right)
            }
            None => None,
        }
    }

    /// The words of a rule of values at a dyadic operator. None if it doesn't apply.
    #[inline(always)]
    fn value_by(&self, rule: Rule, mode: Mode, pair: Pair<'_>) -> Option<u128>
        ensures exact { result ≡ value_words self.now pair.entry rule mode }
        ensures few { IfSome result (λ n. n < 2 ^ 127 + 2 ^ 70) }
    {
        let recipe = value_of_two(rule, mode, self.level, pair);
        self.words_over_both(recipe, pair)
    }

    /// The words of a rule of tests at a dyadic operator. None if it doesn't apply.
    #[inline(always)]
    fn test_by(&self, rule: Rule, sense: bool, pair: Pair<'_>) -> Option<u128>
        ensures exact { result ≡ test_words self.now pair.entry rule sense }
        ensures few { IfSome result (λ n. n < 2 ^ 127 + 2 ^ 70) }
    {
        let recipe = test_of_two(rule, self.table, sense, pair);
        self.words_over_both(recipe, pair)
    }

    /// The least words of a dyadic operator's pushed value.
    fn pushed_pair(&self, pair: Pair<'_>) -> Option<u128>
        ensures exact { result ≡ least_of (pair_node self.now pair.entry) (aims.Gets modes.Push) None (pushes_of (forms.Bin pair.entry.op)) }
        ensures few { IfSome result (λ n. n < 2 ^ 127 + 2 ^ 70) }
    {
        let words = self.words_over_both(
            with_operand(Rule::V1.takes(PUSH, false), self.operand, 0),
            pair,
        );
        let words = lesser(words, self.value_by(Rule::V6, Mode::Push, pair));
        let words = lesser(words, self.value_by(Rule::V7, Mode::Push, pair));
        let words = lesser(words, self.value_by(Rule::V8, Mode::Push, pair));
        let words = lesser(words, self.value_by(Rule::V9, Mode::Push, pair));
        let words = lesser(words, self.value_by(Rule::V10, Mode::Push, pair));
        lesser(words, self.value_by(Rule::V11, Mode::Push, pair))
    }

    /// The least words of a dyadic operator's value by rules other than `V0`.
    fn value_of_pair(&self, pair: Pair<'_>) -> Option<u128>
        ensures exact { result ≡ least_of (pair_node self.now pair.entry) (aims.Gets modes.Any) None (values_of (forms.Bin pair.entry.op)) }
        ensures few { IfSome result (λ n. n < 2 ^ 127 + 2 ^ 70) }
    {
        let words = self.value_by(Rule::V6, Mode::Any, pair);
        let words = lesser(words, self.value_by(Rule::V7, Mode::Any, pair));
        let words = lesser(words, self.value_by(Rule::V8, Mode::Any, pair));
        let words = lesser(words, self.value_by(Rule::V9, Mode::Any, pair));
        let words = lesser(words, self.value_by(Rule::V10, Mode::Any, pair));
        let words = lesser(words, self.value_by(Rule::V11, Mode::Any, pair));
        let words = lesser(words, self.value_by(Rule::V12, Mode::Any, pair));
        let words = lesser(words, self.value_by(Rule::V13, Mode::Any, pair));
        let words = lesser(words, self.value_by(Rule::V14, Mode::Any, pair));
        let words = lesser(words, self.value_by(Rule::V15, Mode::Any, pair));
        let words = lesser(words, self.value_by(Rule::V16, Mode::Any, pair));
        let words = lesser(words, self.value_by(Rule::V17, Mode::Any, pair));
        let words = lesser(words, self.value_by(Rule::V18, Mode::Any, pair));
        lesser(words, self.value_by(Rule::V19, Mode::Any, pair))
    }

    /// The least words of a dyadic operator's test by rules other than `J6`.
    fn test_of_pair(&self, sense: bool, pair: Pair<'_>) -> Option<u128>
        ensures { result ≡ least_of (pair_node self.now pair.entry) (aims.Jumps sense) None (tests_of (forms.Bin pair.entry.op)) }
    {
        let words = self.test_by(Rule::J2, sense, pair);
        let words = lesser(words, self.test_by(Rule::J3, sense, pair));
        let words = lesser(words, self.test_by(Rule::J4, sense, pair));
        let words = lesser(words, self.test_by(Rule::J5, sense, pair));
        let words = lesser(words, self.test_by(Rule::J8, sense, pair));
        lesser(words, self.test_by(Rule::J9, sense, pair))
    }

    /// The least words of a dyadic operator for each aim.
    #[inline(always)]
    fn of_pair(&self, pair: Pair<'_>) -> LeastWords
        ensures { result ≡ least_words_of (pair_node self.now pair.entry) }
    {
        gather(
            Form::Bin(pair.op),
            self.pushed_pair(pair),
            self.value_of_pair(pair),
            self.test_of_pair(false, pair),
            self.test_of_pair(true, pair),
        )
    }

    /// The least words of the content of a cell for each aim.
    #[inline(always)]
    fn of_content(&self, part: &Facts) -> LeastWords
        ensures { result ≡ least_words_of (node_of self.now forms.Load (part.now ∷ [])) }
    {
        let own = self.words_over(
            with_operand(Rule::V1.takes(PUSH, false), self.operand, 0),
            part,
        );
        let pushed = makes(Rule::V2.takes(PUSH, false), 1);
        let value = makes(Rule::V2.takes(Aim::Gets(Mode::Any), false), 1);
        gather(
            Form::Load,
            lesser(own, self.words_over(pushed, part)),
            self.words_over(value, part),
            None,
            None,
        )
    }

    /// The least words of a number for each aim.
    #[inline(always)]
    fn of_number(&self, number: Word) -> LeastWords
        ensures { result ≡ least_words_of (node_of self.now (forms.Num number) []) }
    {
        let on_false = if jumps(false, number) { 2 } else { 0 };
        let on_true = if jumps(true, number) { 2 } else { 0 };
        gather(
            Form::Num(number),
            self.words_alone(with_operand(Rule::V1.takes(PUSH, false), self.operand, 0)),
            None,
            self.words_alone(makes(Rule::J7.takes(Aim::Jumps(false), false), on_false)),
            self.words_alone(makes(Rule::J7.takes(Aim::Jumps(true), false), on_true)),
        )
    }

    /// The least words for each aim, by the lists of rules.
    fn by_rules(&self) -> LeastWords
        ensures { result ≡ least_words_of (node self.now) }
    {
        let tests = tests(self.form);
        gather(
            self.form,
            self.least(pushes(self.form), Aim::Gets(Mode::Push)),
            self.least(values(self.form), Aim::Gets(Mode::Any)),
            self.least(tests, Aim::Jumps(false)),
            self.least(tests, Aim::Jumps(true)),
        )
    }

    /// The least words of the node's derivations for each aim, from the stated words of its parts.
    #[inline(always)]
    pub fn least_words(&self) -> LeastWords
        ensures { result ≡ least_words_of (node self.now) }
    {
        match self.form {
            Form::Bin(op) => match self.parts {
                [left, right] => self.of_pair(Pair { op, left, right }),
                _ => self.by_rules(),
            },
            Form::Load => match self.parts {
                [part] => self.of_content(part),
                _ => self.by_rules(),
            },
            Form::Num(number) => match self.parts {
                [] => self.of_number(number),
                _ => self.by_rules(),
            },
            _ => self.by_rules(),
        }
    }
}
