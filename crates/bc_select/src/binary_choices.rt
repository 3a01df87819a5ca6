//! The choices of a binary operator and of an assignment, from those of their operands.
//!
//! Each function computes exactly the list of candidates that `bc_select_defs` defines, but tries only the operator's rules.
#![tactic(auto, unfolding(bc_select_defs::specs::Options::given, bc_select_defs::specs::Options::better, bc_select_defs::specs::Options::least_from))]

ghost use Rattle.std.specs.Prelude.{◌≡◌, ◌<◌, ◌≤◌, ◌+◌, ◌^◌, ◌∷◌, ◌++◌, None, true, false};
ghost use Rattle.bc_rules_defs.specs.declared.rule.Table.TheVariants.{Two};
ghost use Rattle.bc_rules_defs.specs.declared.rule.Rule.TheVariants.{V0, J6};
ghost use Rattle.bc_word.specs.declared.operator.Op.TheVariants.{Add, Subtract};
ghost use Rattle.bc_select_defs.specs.Options.{least_from as least_of, better as better_of, plus as plus_of, words_of, given as given_of, only as only_of, candidate};
ghost use Rattle.bc_select_defs.specs.Choices.{beside as beside_of, free as are_free, mixed as mixed_of, worked as worked_of, pair_tests as tests_of, pair_choices as choices_of};
ghost use Rattle.bc_select_defs.specs.Chosen.{assign_choice as assignment_of};
ghost use Rattle.bc_select.specs.Small.{Small, AreSmall};

use crate::candidates::{
    alone, any_words, better, both, is, number_cost, plus, sum, with_operand, with_operand_and,
    words,
};
use bc_core::Operand;
use bc_rules_defs::{Rule, is_direct, number_words, operand_words};
use bc_select_defs::{Asked, Choice, Choices, is_zero_number};
use bc_word::{Op, mirror};

/// A binary operator at a level, with its operands.
#[derive(Clone, Copy)]
pub struct Pair {
    /// The operator.
    pub op: Op,
    /// The left operand.
    pub left: Asked,
    /// The right operand.
    pub right: Asked,
    /// The level of the whole; the operands are one level higher.
    pub level: u64,
}

/// Whether two expressions may be evaluated in either order.
pub fn free(a: &Asked, b: &Asked) -> bool
    ensures { result ≡ are_free a.now b.now }
{
    !(a.calls || b.calls) || is_direct(a.operand) || is_direct(b.operand)
}

/// The words if the condition holds, else None.
pub fn given(holds: bool, x: Option<u64>) -> Option<u64>
    ensures { result ≡ given_of holds x }
{
    if holds { x } else { None }
}

/// The words if the operator `op` is `wanted`, else None.
pub fn only(wanted: Op, op: Op, x: Option<u64>) -> Option<u64>
    ensures { result ≡ only_of wanted op x }
{
    given(is(op, wanted), x)
}

/// The words of the operand beside a 0, where x and y are the words of the two operands. Of two zeros the right one is dropped.
fn beside(pair: &Pair, x: Option<u64>, y: Option<u64>) -> Option<u64>
    requires first { Small x }
    requires second { Small y }
    ensures value { result ≡ beside_of pair.now.left pair.now.right x y }
    ensures small { Small result }
{
    if is_zero_number(pair.right.number) {
        x
    } else if is_zero_number(pair.left.number) {
        y
    } else {
        None
    }
}

/// Tries the rules for a sum that need the value of only one operand. x and y are the words of the operands in the current mode.
fn mixed_sum(best: Option<Choice>, pair: &Pair, x: Option<u64>, y: Option<u64>) -> Option<Choice>
    requires sum { pair.now.op ≡ Add }
    requires first { Small x }
    requires second { Small y }
    ensures { result ≡ least_of best (mixed_of pair.now.op pair.now.left pair.now.right x y) }
{
    let free = free(&pair.left, &pair.right);
    let add_second = with_operand(x, pair.right.operand);
    let add_first = given(free, with_operand(y, pair.left.operand));
    let best = better(best, Rule::V6, add_second);
    let best = better(best, Rule::V7, add_first);
    better(best, Rule::V8, beside(pair, x, y))
}

/// Tries the rules for a difference that need the value of only one operand.
fn mixed_difference(
    best: Option<Choice>,
    pair: &Pair,
    x: Option<u64>,
    y: Option<u64>,
) -> Option<Choice>
    requires difference { pair.now.op ≡ Subtract }
    requires first { Small x }
    requires second { Small y }
    ensures { result ≡ least_of best (mixed_of pair.now.op pair.now.left pair.now.right x y) }
{
    let free = free(&pair.left, &pair.right);
    let less_number = sum(x, number_cost(pair.right.number));
    let less_second = with_operand_and(x, pair.right.operand, 2);
    let from_first = given(free, with_operand_and(y, pair.left.operand, 1));
    let best = better(best, Rule::V8, given(is_zero_number(pair.right.number), x));
    let best = better(best, Rule::V9, less_number);
    let best = better(best, Rule::V10, less_second);
    better(best, Rule::V11, from_first)
}

/// Tries the rules that need the value of only one operand. Only sums and differences have any. x and y are the words of the operands
/// in the current mode.
fn mixed(best: Option<Choice>, pair: &Pair, x: Option<u64>, y: Option<u64>) -> Option<Choice>
    requires first { Small x }
    requires second { Small y }
    ensures { result ≡ least_of best (mixed_of pair.now.op pair.now.left pair.now.right x y) }
{
    match pair.op {
        Op::Add => mixed_sum(best, pair, x, y),
        Op::Subtract => mixed_difference(best, pair, x, y),
        Op::Multiply
        | Op::Divide
        | Op::Remainder
        | Op::Equal
        | Op::NotEqual
        | Op::Less
        | Op::GreaterEqual
        | Op::Greater
        | Op::LessEqual
        | Op::ShiftLeft
        | Op::ShiftRight
        | Op::And
        | Op::Or
        | Op::NotEquivalent
        | Op::Equivalent => best,
    }
}

/// Tries the rules that evaluate both operands, V12 to V19.
fn worked(best: Option<Choice>, pair: &Pair) -> Option<Choice>
    requires first { AreSmall pair.now.left.choices }
    requires second { AreSmall pair.now.right.choices }
    requires level { pair.now.level < 2 ^ 60 }
    ensures { result ≡ least_of best (worked_of pair.now.op pair.now.left pair.now.right pair.now.level) }
{
    let op = pair.op;
    let x = words(pair.left.choices.any);
    let y = words(pair.right.choices.any);
    let pushed_first = words(pair.left.choices.push);
    let pushed_second = words(pair.right.choices.push);
    let mirrored = mirror(op).is_some();
    let free = free(&pair.left, &pair.right);
    let held = 2 * number_words(pair.level);
    let held_too = 2 * number_words(pair.level + 1);
    let exchanged = both(y, pushed_first, 1);
    let from_pushed = given(free, both(y, pushed_first, 2));
    let difference = both(x, y, 1 + held);
    let best = better(best, Rule::V12, both(x, pushed_second, 1));
    let best = better(best, Rule::V13, given(mirrored, given(free, exchanged)));
    let best = better(best, Rule::V14, only(Op::Subtract, op, from_pushed));
    let best = better(best, Rule::V15, given(mirrored, difference));
    let best = better(best, Rule::V16, given(free, both(y, x, 1 + held)));
    let best = better(best, Rule::V17, both(x, y, 1 + held + held_too));
    let best = better(best, Rule::V18, only(Op::Add, op, both(x, y, held)));
    better(best, Rule::V19, only(Op::Subtract, op, difference))
}

/// The choice of a jump by rule J6, for a value of so many words.
fn value_test(any: Option<u64>) -> Option<Choice>
    requires { Small any }
    ensures { result ≡ better_of None J6 (plus_of any 2) }
{
    better(None, Rule::J6, plus(any, 2))
}

/// The words of a jump by J8 or J9: one operand is the number 0, and the other one is tested.
fn zero_test(pair: &Pair) -> Option<u64>
    requires first { AreSmall pair.now.left.choices }
    requires second { AreSmall pair.now.right.choices }
    ensures { result ≡ plus_of (beside_of pair.now.left pair.now.right (words_of pair.now.left.choices.any) (words_of pair.now.right.choices.any)) 2 }
{
    let x = words(pair.left.choices.any);
    let y = words(pair.right.choices.any);
    plus(beside(pair, x, y), 2)
}

/// The choice of a jump on false; `any` has the words of the value in mode Any. The operators without rules of their own have four
/// arms, because a single arm for all of them was not proved.
fn tests_on_false(pair: &Pair, any: Option<u64>) -> Option<Choice>
    requires first { AreSmall pair.now.left.choices }
    requires second { AreSmall pair.now.right.choices }
    requires value { Small any }
    ensures { result ≡ least_of None (tests_of Two pair.now.op pair.now.left pair.now.right any false) }
{
    let left = &pair.left.choices;
    let right = &pair.right.choices;
    match pair.op {
        Op::And => {
            let conjunction = sum(words(left.on_false), words(right.on_false));
            better(None, Rule::J2, conjunction)
        }
        Op::Or => {
            let disjunction = sum(words(left.on_true), words(right.on_false));
            better(None, Rule::J5, disjunction)
        }
        Op::Equal => better(value_test(any), Rule::J8, zero_test(pair)),
        Op::NotEqual => better(value_test(any), Rule::J9, zero_test(pair)),
        Op::Multiply | Op::Divide | Op::Remainder | Op::Add | Op::Subtract => value_test(any),
        Op::Less | Op::GreaterEqual | Op::Greater | Op::LessEqual => value_test(any),
        Op::ShiftLeft | Op::ShiftRight => value_test(any),
        Op::NotEquivalent | Op::Equivalent => value_test(any),
    }
}

/// The choice of a jump on true; `any` has the words of the value in mode Any. Its arms are like those of `tests_on_false`.
fn tests_on_true(pair: &Pair, any: Option<u64>) -> Option<Choice>
    requires first { AreSmall pair.now.left.choices }
    requires second { AreSmall pair.now.right.choices }
    requires value { Small any }
    ensures { result ≡ least_of None (tests_of Two pair.now.op pair.now.left pair.now.right any true) }
{
    let left = &pair.left.choices;
    let right = &pair.right.choices;
    match pair.op {
        Op::And => {
            let conjunction = sum(words(left.on_false), words(right.on_true));
            better(None, Rule::J3, conjunction)
        }
        Op::Or => {
            let disjunction = sum(words(left.on_true), words(right.on_true));
            better(None, Rule::J4, disjunction)
        }
        Op::Equal => better(value_test(any), Rule::J8, zero_test(pair)),
        Op::NotEqual => better(value_test(any), Rule::J9, zero_test(pair)),
        Op::Multiply | Op::Divide | Op::Remainder | Op::Add | Op::Subtract => value_test(any),
        Op::Less | Op::GreaterEqual | Op::Greater | Op::LessEqual => value_test(any),
        Op::ShiftLeft | Op::ShiftRight => value_test(any),
        Op::NotEquivalent | Op::Equivalent => value_test(any),
    }
}

/// The choice of a value in mode Push. `operand` is the operand that the whole expression is, if any.
fn pushed(pair: &Pair, operand: Option<Operand>) -> Option<Choice>
    requires first { AreSmall pair.now.left.choices }
    requires second { AreSmall pair.now.right.choices }
    ensures { result ≡ (choices_of Two pair.now.op operand pair.now.left pair.now.right pair.now.level).push }
{
    let own = better(None, Rule::V1, alone(operand));
    mixed(
        own,
        pair,
        words(pair.left.choices.push),
        words(pair.right.choices.push),
    )
}

/// The choice of a value in mode Any, given the choice in mode Push.
fn any(pair: &Pair, push: Option<Choice>) -> Option<Choice>
    requires first { AreSmall pair.now.left.choices }
    requires second { AreSmall pair.now.right.choices }
    requires level { pair.now.level < 2 ^ 60 }
    ensures { result ≡ least_of None (candidate V0 (words_of push) ∷ (mixed_of pair.now.op pair.now.left pair.now.right (words_of pair.now.left.choices.any) (words_of pair.now.right.choices.any) ++ worked_of pair.now.op pair.now.left pair.now.right pair.now.level)) }
{
    let own = better(None, Rule::V0, any_words(push));
    let mixed = mixed(
        own,
        pair,
        words(pair.left.choices.any),
        words(pair.right.choices.any),
    );
    worked(mixed, pair)
}

/// The choices of a binary operator. `operand` is the operand that the whole expression is, if any.
pub fn pair_choices(pair: &Pair, operand: Option<Operand>) -> Choices
    requires first { AreSmall pair.now.left.choices }
    requires second { AreSmall pair.now.right.choices }
    requires level { pair.now.level < 2 ^ 60 }
    requires value { Small (words_of (choices_of Two pair.now.op operand pair.now.left pair.now.right pair.now.level).any) }
    ensures { result ≡ choices_of Two pair.now.op operand pair.now.left pair.now.right pair.now.level }
{
    let push = pushed(pair, operand);
    let any = any(pair, push);
    let value = words(any);
    Choices {
        any,
        push,
        on_false: tests_on_false(pair, value),
        on_true: tests_on_true(pair, value),
    }
}

/// The choice of an assignment at a level. `operand` is the operand that the address is, if any.
pub fn assign_choice(
    operand: Option<Operand>,
    value: &Asked,
    address: &Asked,
    level: u64,
) -> Option<Choice>
    requires value { AreSmall value.now.choices }
    requires address { AreSmall address.now.choices }
    requires level { level < 2 ^ 60 }
    ensures { result ≡ assignment_of operand value.now address.now level }
{
    let v = words(value.choices.any);
    let a = words(address.choices.any);
    match operand {
        Some(operand) => {
            let stored = plus(v, operand_words(operand));
            better(None, Rule::A1, stored)
        }
        None => {
            let held = 2 * number_words(level);
            let held_too = 2 * number_words(level + 1);
            let address_first = given(free(value, address), both(a, v, held));
            let choice = better(None, Rule::A2, address_first);
            better(choice, Rule::A3, both(v, a, held + held_too))
        }
    }
}
