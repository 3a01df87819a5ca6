//! Arithmetic on the words of candidates, which are None if a rule doesn't apply, and the choice of the better one.
//!
//! `Small` bounds keep every sum far from the limits of `u64`.
#![tactic(auto, unfolding(bc_select_defs::specs::Options::plus, bc_select_defs::specs::Options::more, bc_select_defs::specs::Options::sum, bc_select_defs::specs::Options::operand_cost, bc_select_defs::specs::Options::better, bc_select_defs::specs::Choices::number_cost))]

ghost use Rattle.std.specs.Prelude.{◌≡◌, ◌<◌, ◌≤◌, ◌+◌, ◌==◌, ◌^◌};
ghost use Rattle.bc_word.specs.Words.{number_of};
ghost use Rattle.bc_select_defs.specs.Options.{plus as plus_of, more, sum as sum_of, operand_cost, words_of, better as better_of};
ghost use Rattle.bc_select_defs.specs.Choices.{number_cost as cost_of_number};
ghost use Rattle.bc_select.specs.Small.{Small};

use bc_core::Operand;
use bc_rules_defs::{Rule, number_words, operand_words};
use bc_select_defs::Choice;
use bc_word::{Op, Word};

/// The words of an instruction that adds the negation of this number.
pub fn number_cost(number: Option<Word>) -> Option<u64>
    ensures words { result ≡ cost_of_number number }
    ensures small { Small result }
{
    let number = number?;
    Some(number_words(u64::from(number.negated().get())))
}

/// The words of a choice.
#[inline(always)]
pub fn words(choice: Option<Choice>) -> Option<u64>
    requires { Small (words_of choice) }
    ensures words { result ≡ words_of choice }
    ensures small { Small result }
{
    let choice = choice?;
    Some(choice.words)
}

/// The words of a choice, without a bound on them.
#[inline(always)]
pub fn any_words(choice: Option<Choice>) -> Option<u64>
    ensures { result ≡ words_of choice }
{
    let choice = choice?;
    Some(choice.words)
}

/// k words more.
#[inline(always)]
pub fn plus(x: Option<u64>, k: u64) -> Option<u64>
    requires small { Small x }
    requires few { k ≤ 16 }
    ensures { result ≡ plus_of x k }
{
    let x = x?;
    Some(x + k)
}

/// The sum of both words; None if either is None.
#[inline(always)]
pub fn sum(x: Option<u64>, y: Option<u64>) -> Option<u64>
    requires first { Small x }
    requires second { Small y }
    ensures { result ≡ sum_of x y }
{
    let x = x?;
    let y = y?;
    Some(x + y)
}

/// The sum of both words and k; None if either is None.
#[inline(always)]
pub fn both(x: Option<u64>, y: Option<u64>, k: u64) -> Option<u64>
    requires first { Small x }
    requires second { Small y }
    requires few { k ≤ 16 }
    ensures { result ≡ plus_of (sum_of x y) k }
{
    let x = x?;
    let y = y?;
    Some(x + y + k)
}

/// The sum of all three words and k; None if any is None.
pub fn three(x: Option<u64>, y: Option<u64>, z: Option<u64>, k: u64) -> Option<u64>
    requires first { Small x }
    requires second { Small y }
    requires third { Small z }
    requires few { k ≤ 16 }
    ensures { result ≡ plus_of (sum_of (sum_of x y) z) k }
{
    let x = x?;
    let y = y?;
    let z = z?;
    Some(x + y + z + k)
}

/// The words of an instruction with this operand; None if there is no operand.
pub fn alone(operand: Option<Operand>) -> Option<u64>
    ensures { result ≡ operand_cost operand }
{
    let operand = operand?;
    Some(operand_words(operand))
}

/// The words of an expression followed by an instruction with this operand.
pub fn with_operand(x: Option<u64>, operand: Option<Operand>) -> Option<u64>
    requires { Small x }
    ensures { result ≡ sum_of x (operand_cost operand) }
{
    let x = x?;
    let operand = operand?;
    Some(x + operand_words(operand))
}

/// The words of an expression followed by an instruction with this operand, and k more.
pub fn with_operand_and(x: Option<u64>, operand: Option<Operand>, k: u64) -> Option<u64>
    requires small { Small x }
    requires few { k ≤ 16 }
    ensures { result ≡ sum_of x (more k (operand_cost operand)) }
{
    let x = x?;
    let operand = operand?;
    Some(x + (k + operand_words(operand)))
}

/// Whether two operators are the same.
pub fn is(op: Op, wanted: Op) -> bool
    ensures { result ≡ (number_of op == number_of wanted) }
{
    Word::from(op).get() == Word::from(wanted).get()
}

/// The better of a choice and a rule with its words. The choice is kept if the rule has as many words, so rules must be tried in the
/// order of their numbers.
#[inline(always)]
pub fn better(best: Option<Choice>, rule: Rule, words: Option<u64>) -> Option<Choice>
    ensures { result ≡ better_of best rule words }
{
    match (best, words) {
        (_, None) => best,
        (None, Some(words)) => Some(Choice { words, rule }),
        (Some(b), Some(words)) => {
            if words < b.words {
                Some(Choice { words, rule })
            } else {
                Some(b)
            }
        }
    }
}
