//! The candidate rules of a binary operator with their words, from the choices of its operands.
#![tactic(auto, unfolding(bc_select_defs::specs::Options::given))]

ghost use Rattle.std.specs.Prelude.{◌≡◌, IfOk, true, false};
ghost use Rattle.bc_select_defs.specs.Options.{plus as plus_of, words_of};
ghost use Rattle.bc_rules_defs.specs.declared.rule.Table.TheVariants.{Two};
ghost use Rattle.bc_select_defs.specs.Choices.{beside as beside_of, without as without_of, mixed as mixed_of, worked as worked_of, pair_tests as tests_of};

use crate::sums::{add, both, candidate, more, plus, sum};
use bc_rules_defs::{Rule, is_plain_operator, number_words};
use bc_select::{Pair, alone, any_words, free, given, number_cost, only};
use bc_select_defs::{Candidate, is_zero_number};
use bc_word::{Memory, Op, mirror};

/// The words of the operand beside a 0, where x and y are the words of the two operands. Of two zeros the right one is dropped.
fn beside(pair: &Pair, x: Option<u64>, y: Option<u64>) -> Option<u64>
    ensures { result ≡ beside_of pair.now.left pair.now.right x y }
{
    if is_zero_number(pair.right.number) {
        x
    } else if is_zero_number(pair.left.number) {
        y
    } else {
        None
    }
}

/// The words of a sum or difference whose 0 is dropped (rule V8).
fn without(pair: &Pair, x: Option<u64>, y: Option<u64>) -> Option<u64>
    ensures { result ≡ without_of pair.now.op pair.now.left pair.now.right x y }
{
    match pair.op {
        Op::Add => beside(pair, x, y),
        Op::Subtract => {
            if is_zero_number(pair.right.number) {
                x
            } else {
                None
            }
        }
        Op::Multiply | Op::Divide | Op::Remainder | Op::Equal | Op::NotEqual | Op::Less => None,
        Op::GreaterEqual | Op::Greater | Op::LessEqual | Op::ShiftLeft | Op::ShiftRight => None,
        Op::And | Op::Or | Op::NotEquivalent | Op::Equivalent => None,
    }
}

/// The rules that need the value of only one operand, V6 to V11. x and y are the words of the operands in the current mode.
pub fn mixed(pair: &Pair, x: Option<u64>, y: Option<u64>) -> Result<[Candidate; 6], Memory>
    ensures { IfOk result (λ cs. cs ≡ mixed_of pair.now.op pair.now.left pair.now.right x y) }
{
    let op = pair.op;
    let free = free(&pair.left, &pair.right);
    let first = alone(pair.left.operand);
    let second = alone(pair.right.operand);
    let add_second = sum(x, second)?;
    let add_first = sum(y, first)?;
    let less_number = sum(x, number_cost(pair.right.number))?;
    let less_second = sum(x, more(2, second)?)?;
    let from_first = sum(y, more(1, first)?)?;
    Ok([
        candidate(Rule::V6, only(Op::Add, op, add_second)),
        candidate(Rule::V7, only(Op::Add, op, given(free, add_first))),
        candidate(Rule::V8, without(pair, x, y)),
        candidate(Rule::V9, only(Op::Subtract, op, less_number)),
        candidate(Rule::V10, only(Op::Subtract, op, less_second)),
        candidate(Rule::V11, only(Op::Subtract, op, given(free, from_first))),
    ])
}

/// The rules that evaluate both operands, V12 to V19.
pub fn worked(pair: &Pair) -> Result<[Candidate; 8], Memory>
    ensures { IfOk result (λ cs. cs ≡ worked_of pair.now.op pair.now.left pair.now.right pair.now.level) }
{
    let op = pair.op;
    let x = any_words(pair.left.choices.any);
    let y = any_words(pair.right.choices.any);
    let pushed_first = any_words(pair.left.choices.push);
    let pushed_second = any_words(pair.right.choices.push);
    let mirrored = mirror(op).is_some();
    let free = free(&pair.left, &pair.right);
    let held = 2 * number_words(pair.level);
    let held_too = 2 * number_words(add(pair.level, 1)?);
    let exchanged = both(y, pushed_first, 1)?;
    let negated = both(y, pushed_first, 2)?;
    let in_order = both(x, y, 1 + held)?;
    let turned = both(y, x, 1 + held)?;
    let pushed = both(x, pushed_second, 1)?;
    let all_held = both(x, y, 1 + held + held_too)?;
    let added = both(x, y, held)?;
    Ok([
        candidate(Rule::V12, pushed),
        candidate(Rule::V13, given(mirrored, given(free, exchanged))),
        candidate(Rule::V14, only(Op::Subtract, op, given(free, negated))),
        candidate(Rule::V15, given(mirrored, in_order)),
        candidate(Rule::V16, given(free, turned)),
        candidate(Rule::V17, all_held),
        candidate(Rule::V18, only(Op::Add, op, added)),
        candidate(Rule::V19, only(Op::Subtract, op, in_order)),
    ])
}

/// The words of a jump by J8 or J9: one operand is the number 0, and the other one is tested.
fn zero_test(pair: &Pair) -> Result<Option<u64>, Memory>
    ensures { IfOk result (λ x. x ≡ plus_of (beside_of pair.now.left pair.now.right (words_of pair.now.left.choices.any)
        (words_of pair.now.right.choices.any)) 2) }
{
    let x = any_words(pair.left.choices.any);
    let y = any_words(pair.right.choices.any);
    plus(beside(pair, x, y), 2)
}

/// The rules of a jump on false; `any` has the words of the value in mode Any.
pub fn tests_on_false(pair: &Pair, any: Option<u64>) -> Result<[Candidate; 5], Memory>
    ensures { IfOk result (λ cs. cs ≡ tests_of Two pair.now.op pair.now.left pair.now.right any false) }
{
    let op = pair.op;
    let left = &pair.left.choices;
    let right = &pair.right.choices;
    let conjunction = sum(any_words(left.on_false), any_words(right.on_false))?;
    let disjunction = sum(any_words(left.on_true), any_words(right.on_false))?;
    let zero = zero_test(pair)?;
    let of_value = plus(any, 2)?;
    Ok([
        candidate(Rule::J2, only(Op::And, op, conjunction)),
        candidate(Rule::J5, only(Op::Or, op, disjunction)),
        candidate(Rule::J6, given(is_plain_operator(op), of_value)),
        candidate(Rule::J8, only(Op::Equal, op, zero)),
        candidate(Rule::J9, only(Op::NotEqual, op, zero)),
    ])
}

/// The rules of a jump on true; `any` has the words of the value in mode Any.
pub fn tests_on_true(pair: &Pair, any: Option<u64>) -> Result<[Candidate; 5], Memory>
    ensures { IfOk result (λ cs. cs ≡ tests_of Two pair.now.op pair.now.left pair.now.right any true) }
{
    let op = pair.op;
    let left = &pair.left.choices;
    let right = &pair.right.choices;
    let conjunction = sum(any_words(left.on_false), any_words(right.on_true))?;
    let disjunction = sum(any_words(left.on_true), any_words(right.on_true))?;
    let zero = zero_test(pair)?;
    let of_value = plus(any, 2)?;
    Ok([
        candidate(Rule::J3, only(Op::And, op, conjunction)),
        candidate(Rule::J4, only(Op::Or, op, disjunction)),
        candidate(Rule::J6, given(is_plain_operator(op), of_value)),
        candidate(Rule::J8, only(Op::Equal, op, zero)),
        candidate(Rule::J9, only(Op::NotEqual, op, zero)),
    ])
}
