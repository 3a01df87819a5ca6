//! A node with what is known of its parts: which rules apply, with how many words.
//!
//! Sums are kept in 128 bits because a line may state any number up to 2^64 - 1.
#![tactic(auto, unfolding(bc_select_defs::specs::Options::plus, bc_select_defs::specs::Options::sum, bc_select_defs::specs::Options::given))]

ghost use Rattle.std.specs.Prelude.{◌≡◌, ◌<◌, ◌≤◌, ◌+◌, ◌^◌, None, IfSome};
ghost use Rattle.bc_select_defs.specs.Options.{sum as sum_of};
ghost use Rattle.bc_cert_read.specs.Recipe.{of_form, value_of_two as value_by, both_parts as both_by, test_of_two as test_by, zero_test, beside_zero as beside_by, without_zero as without_by, less_number as less_by, in_any as in_any_of, where_so};
ghost use Rattle.bc_cert_read.specs.Node.{node, recipe_by, words_of as words_of_recipe, wanted, held, words_by, least, pushes_of, values_of, tests_of, lesser as lesser_of};

use crate::costs::words_for;
use crate::facts::{Facts, are_free};
use crate::form::Form;
use crate::least_words::Pair;
use crate::recipe::{Recipe, makes, only, with_operand};
use bc_rules_defs::{Aim, Mode, Rule, Table, Takes, jumps, number_words};
use bc_word::{Op, Word, mirror};

/// A node of a certificate, with what the rules need to know of its parts.
#[derive(Clone, Copy)]
pub struct Node<'p> {
    /// The rule table by which it is judged.
    pub table: Table,
    /// Its level.
    pub level: u16,
    /// What it is, without its parts.
    pub form: Form,
    /// The words of an instruction that has the node itself as its operand. None if it can't be an operand.
    pub operand: Option<u8>,
    /// The facts of its parts, in the order of the tree.
    pub parts: &'p [Facts],
}

/// A value, where register B may be lost.
const ANY: Aim = Aim::Gets(Mode::Any);

impl<'p> Node<'p> {
    /// What a rule takes and adds for this aim at this node. None if the rule doesn't apply, and for `V0` and `J6`, which apply at the
    /// same node as the rule below them.
    pub fn recipe(&self, rule: Rule, aim: Aim) -> Option<Recipe>
        ensures { result ≡ recipe_by (node self.now) rule aim }
    {
        match rule {
            Rule::V1 => match aim {
                Aim::Gets(Mode::Push) => with_operand(rule.takes(aim, false), self.operand, 0),
                Aim::Gets(Mode::Any) | Aim::Jumps(_) => None,
            },
            _ => self.by_form(rule, aim),
        }
    }

    /// The same for rules other than `V1`.
    fn by_form(&self, rule: Rule, aim: Aim) -> Option<Recipe>
        ensures { result ≡ of_form rule aim self.now.table self.now.level self.now.form self.now.parts.now }
    {
        let takes = rule.takes(aim, false);
        match self.form {
            Form::Num(n) => match (rule, aim) {
                (Rule::J7, Aim::Jumps(sense)) => makes(takes, if jumps(sense, n) { 2 } else { 0 }),
                _ => None,
            },
            Form::Frame(_) | Form::Glob(_) | Form::Place(_) => None,
            Form::Load => match (rule, aim) {
                (Rule::V2, Aim::Gets(_)) => makes(takes, 1),
                _ => None,
            },
            Form::Neg => match (rule, aim) {
                (Rule::V3, Aim::Gets(_)) => makes(takes, 1),
                _ => None,
            },
            Form::Not => match (rule, aim) {
                (Rule::V4, Aim::Gets(_)) => makes(takes, 1),
                (Rule::J1, Aim::Jumps(_)) => makes(takes, 0),
                _ => None,
            },
            Form::Bin(op) => match self.parts {
                [left, right] => match aim {
                    Aim::Gets(mode) => {
                        value_of_two(rule, mode, self.level, Pair { op, left, right })
                    }
                    Aim::Jumps(sense) => {
                        test_of_two(rule, self.table, sense, Pair { op, left, right })
                    }
                },
                _ => None,
            },
            Form::Cond => match (rule, aim) {
                (Rule::V20, Aim::Gets(Mode::Any)) => makes(takes, 2),
                (Rule::V21, Aim::Gets(Mode::Any)) => makes(takes, 2),
                _ => None,
            },
            Form::Call(_) => match (rule, aim) {
                (Rule::V22, Aim::Gets(Mode::Any)) => {
                    makes(takes, number_words(u64::from(self.level)))
                }
                _ => None,
            },
            Form::Valof(_) => match (rule, aim) {
                (Rule::V22, Aim::Gets(Mode::Any)) => makes(takes, 0),
                _ => None,
            },
        }
    }

    /// The words of a rule at this node, with the stated words of each part. None if a part has no derivation for its aim.
    pub fn words_of(&self, recipe: Recipe) -> Option<u128>
        ensures exact { result ≡ words_of_recipe self.now.level self.now.parts.now recipe }
        ensures few { IfSome result (λ n. n < 2 ^ 127 + 2 ^ 70) }
    {
        let mut words = Some(u128::from(recipe.words));
        for at in 0..self.parts.len() {
            let is_last = at + 1 == self.parts.len();
            words = sum(
                words,
                self.wanted(recipe.takes, at, &self.parts[at], is_last),
            );
        }
        words
    }

    /// The words that a part adds: those stated for the aim that the rule requires, and those that store an argument of a call in its cell.
    /// A part that the rule doesn't derive adds 0. None if the part has no derivation for that aim.
    #[inline(always)]
    pub fn wanted(&self, takes: Takes, at: usize, part: &Facts, is_last: bool) -> Option<u128>
        requires { at < 2 ^ 63 }
        ensures exact { result ≡ wanted takes self.now.level at part.now is_last }
        ensures few { IfSome result (λ n. n ≤ 2 ^ 64 + 1) }
    {
        match takes.aim_of(at) {
            Some(aim) => match words_for(&part.costs, aim) {
                Some(least) => Some(u128::from(least) + u128::from(self.held(takes, at, is_last))),
                None => None,
            },
            None => Some(0),
        }
    }

    /// The words that store an argument of a call in its cell: 0 for the routine, and for a node that isn't a call.
    #[inline(always)]
    fn held(&self, takes: Takes, at: usize, is_last: bool) -> u64
        requires { at < 2 ^ 63 }
        ensures exact { result ≡ held takes self.now.level at is_last }
        ensures few { result ≤ 2 }
    {
        match takes {
            Takes::Call => {
                if is_last {
                    0
                } else {
                    number_words(u64::from(self.level) + 2 + at as u64)
                }
            }
            Takes::Nothing
            | Takes::First(_)
            | Takes::Second(_)
            | Takes::InOrder(_, _)
            | Takes::Turned(_, _)
            | Takes::Choice(_) => 0,
        }
    }

    /// The fewest words of derivations by this rule for this aim. None if it doesn't apply, or a part has no derivation.
    pub fn words_by(&self, rule: Rule, aim: Aim) -> Option<u128>
        ensures exact { result ≡ words_by (node self.now) rule aim }
        ensures few { IfSome result (λ n. n < 2 ^ 127 + 2 ^ 70) }
    {
        match self.recipe(rule, aim) {
            Some(recipe) => self.words_of(recipe),
            None => None,
        }
    }

    /// The fewest words by any of these rules. None if none of them applies.
    pub fn least(&self, rules: &[Rule], aim: Aim) -> Option<u128>
        ensures exact { result ≡ least (node self.now) aim None rules.now }
        ensures few { IfSome result (λ n. n < 2 ^ 127 + 2 ^ 70) }
    {
        let mut words = None;
        for rule in rules {
            words = lesser(words, self.words_by(*rule, aim));
        }
        words
    }
}

/// The sum of two numbers of words. None if either is None.
#[inline(always)]
pub fn sum(x: Option<u128>, y: Option<u128>) -> Option<u128>
    requires first { IfSome x (λ n. n < 2 ^ 127 + 2 ^ 70) }
    requires second { IfSome y (λ n. n ≤ 2 ^ 64 + 1) }
    ensures { result ≡ sum_of x y }
{
    match (x, y) {
        (Some(x), Some(y)) => Some(x + y),
        (Some(_), None) | (None, _) => None,
    }
}

/// The lesser of two numbers of words. None counts as more than any number.
#[inline(always)]
pub fn lesser(x: Option<u128>, y: Option<u128>) -> Option<u128>
    ensures { result ≡ lesser_of x y }
{
    match (x, y) {
        (Some(x), Some(y)) => Some(x.min(y)),
        (Some(x), None) => Some(x),
        (None, y) => y,
    }
}

/// The rules that a pushed value of this form can have.
pub fn pushes(form: Form) -> &'static [Rule]
    ensures { result.now ≡ pushes_of form }
{
    match form {
        Form::Load => &[Rule::V1, Rule::V2],
        Form::Neg => &[Rule::V1, Rule::V3],
        Form::Not => &[Rule::V1, Rule::V4],
        Form::Bin(_) => &[
            Rule::V1,
            Rule::V6,
            Rule::V7,
            Rule::V8,
            Rule::V9,
            Rule::V10,
            Rule::V11,
        ],
        Form::Num(_)
        | Form::Frame(_)
        | Form::Glob(_)
        | Form::Place(_)
        | Form::Valof(_)
        | Form::Cond
        | Form::Call(_) => &[Rule::V1],
    }
}

/// The rules other than `V0` that a value of this form can have.
pub fn values(form: Form) -> &'static [Rule]
    ensures { result.now ≡ values_of form }
{
    match form {
        Form::Num(_) | Form::Frame(_) | Form::Glob(_) | Form::Place(_) => &[],
        Form::Load => &[Rule::V2],
        Form::Neg => &[Rule::V3],
        Form::Not => &[Rule::V4],
        Form::Bin(_) => &[
            Rule::V6,
            Rule::V7,
            Rule::V8,
            Rule::V9,
            Rule::V10,
            Rule::V11,
            Rule::V12,
            Rule::V13,
            Rule::V14,
            Rule::V15,
            Rule::V16,
            Rule::V17,
            Rule::V18,
            Rule::V19,
        ],
        Form::Cond => &[Rule::V20, Rule::V21],
        Form::Valof(_) | Form::Call(_) => &[Rule::V22],
    }
}

/// The rules other than `J6` that a test of this form can have.
pub fn tests(form: Form) -> &'static [Rule]
    ensures { result.now ≡ tests_of form }
{
    match form {
        Form::Num(_) => &[Rule::J7],
        Form::Not => &[Rule::J1],
        Form::Bin(_) => &[Rule::J2, Rule::J3, Rule::J4, Rule::J5, Rule::J8, Rule::J9],
        Form::Frame(_)
        | Form::Glob(_)
        | Form::Place(_)
        | Form::Load
        | Form::Neg
        | Form::Valof(_)
        | Form::Cond
        | Form::Call(_) => &[],
    }
}

/// The recipe if the condition holds.
#[inline(always)]
fn given(holds: bool, recipe: Option<Recipe>) -> Option<Recipe>
    ensures { result ≡ where_so holds recipe }
{
    if holds { recipe } else { None }
}

/// The recipe if the mode is Any.
#[inline(always)]
fn in_any(mode: Mode, recipe: Option<Recipe>) -> Option<Recipe>
    ensures { result ≡ in_any_of mode recipe }
{
    match mode {
        Mode::Any => recipe,
        Mode::Push => None,
    }
}

/// A rule that drops an operand 0 and takes the other one. If both are 0 the right one is dropped. None if neither is 0.
#[inline(always)]
fn beside_zero(rule: Rule, a: &Facts, b: &Facts, aim: Aim, words: u64) -> Option<Recipe>
    ensures { result ≡ beside_by rule a.now b.now aim words }
{
    if b.is_zero() {
        makes(rule.takes(aim, true), words)
    } else if a.is_zero() {
        makes(rule.takes(aim, false), words)
    } else {
        None
    }
}

/// The rule `V8`, which drops a 0: either operand of a sum, or the right one of a difference.
#[inline(always)]
fn without_zero(op: Op, a: &Facts, b: &Facts, aim: Aim) -> Option<Recipe>
    ensures { result ≡ without_by op a.now b.now aim }
{
    match op {
        Op::Add => beside_zero(Rule::V8, a, b, aim, 0),
        Op::Subtract => given(b.is_zero(), makes(Rule::V8.takes(aim, true), 0)),
        _ => None,
    }
}

/// The rule `V9`, which adds the negative of a number instead of subtracting it.
#[inline(always)]
fn less_number(number: Option<u16>, aim: Aim) -> Option<Recipe>
    ensures { result ≡ less_by number aim }
{
    match number {
        Some(n) => makes(
            Rule::V9.takes(aim, false),
            number_words(u64::from(Word::new(n).negated().get())),
        ),
        None => None,
    }
}

/// What a rule of values takes and adds at a dyadic operator. None if it doesn't apply.
#[inline(always)]
pub fn value_of_two(rule: Rule, mode: Mode, level: u16, pair: Pair<'_>) -> Option<Recipe>
    ensures { result ≡ value_by rule mode pair.entry.op level pair.entry.left.now pair.entry.right.now }
{
    let Pair {
        op,
        left: a,
        right: b,
    } = pair;
    let aim = Aim::Gets(mode);
    let free = are_free(a, b);
    match rule {
        Rule::V6 => only(
            Op::Add,
            op,
            with_operand(rule.takes(aim, false), b.operand, 0),
        ),
        Rule::V7 => only(
            Op::Add,
            op,
            given(free, with_operand(rule.takes(aim, false), a.operand, 0)),
        ),
        Rule::V8 => without_zero(op, a, b, aim),
        Rule::V9 => only(Op::Subtract, op, less_number(b.constant, aim)),
        Rule::V10 => only(
            Op::Subtract,
            op,
            with_operand(rule.takes(aim, false), b.operand, 2),
        ),
        Rule::V11 => only(
            Op::Subtract,
            op,
            given(free, with_operand(rule.takes(aim, false), a.operand, 1)),
        ),
        _ => in_any(mode, both_parts(rule, op, level, free)),
    }
}

/// The same for the rules that derive both operands. `free` says whether these may be evaluated in either order.
#[inline(always)]
fn both_parts(rule: Rule, op: Op, level: u16, free: bool) -> Option<Recipe>
    ensures { result ≡ both_by rule op level free }
{
    let takes = rule.takes(ANY, false);
    let held = 2 * number_words(u64::from(level));
    let held_too = 2 * number_words(u64::from(level) + 1);
    let mirrored = mirror(op).is_some();
    match rule {
        Rule::V12 => makes(takes, 1),
        Rule::V13 => given(mirrored, given(free, makes(takes, 1))),
        Rule::V14 => only(Op::Subtract, op, given(free, makes(takes, 2))),
        Rule::V15 => given(mirrored, makes(takes, 1 + held)),
        Rule::V16 => given(free, makes(takes, 1 + held)),
        Rule::V17 => makes(takes, 1 + held + held_too),
        Rule::V18 => only(Op::Add, op, makes(takes, held)),
        Rule::V19 => only(Op::Subtract, op, makes(takes, 1 + held)),
        _ => None,
    }
}

/// What a rule of tests other than `J6` takes and adds at a dyadic operator. None if it doesn't apply.
#[inline(always)]
pub fn test_of_two(rule: Rule, table: Table, sense: bool, pair: Pair<'_>) -> Option<Recipe>
    ensures { result ≡ test_by rule table sense pair.entry.op pair.entry.left.now pair.entry.right.now }
{
    let Pair {
        op,
        left: a,
        right: b,
    } = pair;
    let takes = rule.takes(Aim::Jumps(sense), false);
    match rule {
        Rule::J2 => only(Op::And, op, given(!sense, makes(takes, 0))),
        Rule::J3 => only(Op::And, op, given(sense, makes(takes, 0))),
        Rule::J4 => only(Op::Or, op, given(sense, makes(takes, 0))),
        Rule::J5 => only(Op::Or, op, given(!sense, makes(takes, 0))),
        Rule::J8 => only(Op::Equal, op, of_zero(Rule::J8, table, a, b)),
        Rule::J9 => only(Op::NotEqual, op, of_zero(Rule::J9, table, a, b)),
        _ => None,
    }
}

/// The rules of tests against 0, which only table 2 has.
#[inline(always)]
fn of_zero(rule: Rule, table: Table, a: &Facts, b: &Facts) -> Option<Recipe>
    ensures { result ≡ zero_test rule table a.now b.now }
{
    match table {
        Table::One => None,
        Table::Two => beside_zero(rule, a, b, ANY, 2),
    }
}
