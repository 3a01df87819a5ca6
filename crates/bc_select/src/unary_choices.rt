//! The choices of all forms of expression but binary operators, from those of their parts.
#![tactic(auto, unfolding(bc_select_defs::specs::Options::better, bc_select_defs::specs::Options::least_from, bc_select_defs::specs::Options::operand_cost))]

ghost use Rattle.std.specs.Prelude.{◌≡◌, ◌<◌, ◌≤◌, ◌+◌, ◌^◌, None, true, false};
ghost use Rattle.bc_select_defs.specs.Options.{words_of, least_from as least_of};
ghost use Rattle.bc_select_defs.specs.Choices.{number_tests, leaf_choices as leaf_of, number_choices as number_of, unary_choices as unary_of, not_choices as not_of, cond_choices as cond_of, call_choices as call_of, valof_choices as valof_of, by_value as by_value_of};
ghost use Rattle.bc_select.specs.Small.{Small, AreSmall};

use crate::candidates::{alone, any_words, better, both, plus, three, words};
use bc_core::Operand;
use bc_rules_defs::{Rule, jumps, number_words};
use bc_select_defs::{Choice, Choices};
use bc_word::Word;

/// The choice of a test by J6, given the choice of the value in mode Any.
fn value_test(any: Option<Choice>) -> Option<Choice>
    requires { Small (words_of any) }
    ensures { result ≡ least_of None (by_value_of (words_of any) false) }
{
    better(None, Rule::J6, plus(words(any), 2))
}

/// The choices of an expression whose only test is by J6, given those of its value.
fn tested_by_value(push: Option<Choice>, any: Option<Choice>) -> Choices
    requires { Small (words_of any) }
    ensures { result ≡ record { any = any; push = push; on_false = least_of None (by_value_of (words_of any) false); on_true = least_of None (by_value_of (words_of any) true) } }
{
    let test = value_test(any);
    Choices {
        any,
        push,
        on_false: test,
        on_true: test,
    }
}

/// The choices of an address: of a cell of the frame, a global or a place.
pub fn leaf_choices(operand: Option<Operand>) -> Choices
    requires { Small (words_of (leaf_of operand).any) }
    ensures { result ≡ leaf_of operand }
{
    let push = better(None, Rule::V1, alone(operand));
    let any = better(None, Rule::V0, any_words(push));
    tested_by_value(push, any)
}

/// The choice of a test of a number that jumps on `sense`: by J6 or by J7.
fn number_test(number: Word, any: Option<Choice>, sense: bool) -> Option<Choice>
    requires { Small (words_of any) }
    ensures { result ≡ least_of None (number_tests number (words_of any) sense) }
{
    let jump = if jumps(sense, number) { 2 } else { 0 };
    let test = better(None, Rule::J6, plus(words(any), 2));
    better(test, Rule::J7, Some(jump))
}

/// The choices of a number. `operand` is the operand that it is.
pub fn number_choices(operand: Option<Operand>, number: Word) -> Choices
    requires { Small (words_of (number_of operand number).any) }
    ensures { result ≡ number_of operand number }
{
    let push = better(None, Rule::V1, alone(operand));
    let any = better(None, Rule::V0, any_words(push));
    Choices {
        any,
        push,
        on_false: number_test(number, any, false),
        on_true: number_test(number, any, true),
    }
}

/// The choices of a form with one part, given the form's rule. `operand` is the operand that the whole expression is, if any.
pub fn unary_choices(rule: Rule, operand: Option<Operand>, part: &Choices) -> Choices
    requires part { AreSmall part.now }
    requires value { Small (words_of (unary_of rule operand part.now).any) }
    ensures { result ≡ unary_of rule operand part.now }
{
    let push = better(None, Rule::V1, alone(operand));
    let push = better(push, rule, plus(words(part.push), 1));
    let any = better(None, Rule::V0, any_words(push));
    let any = better(any, rule, plus(words(part.any), 1));
    tested_by_value(push, any)
}

/// The choices of NOT.
pub fn not_choices(part: &Choices) -> Choices
    requires { AreSmall part.now }
    ensures { result ≡ not_of part.now }
{
    let push = better(None, Rule::V4, plus(words(part.push), 1));
    let any = better(None, Rule::V0, any_words(push));
    Choices {
        any: better(any, Rule::V4, plus(words(part.any), 1)),
        push,
        on_false: better(None, Rule::J1, words(part.on_true)),
        on_true: better(None, Rule::J1, words(part.on_false)),
    }
}

/// The choices of `condition -> this, that`.
pub fn cond_choices(condition: &Choices, this: &Choices, that: &Choices) -> Choices
    requires condition { AreSmall condition.now }
    requires this { AreSmall this.now }
    requires that { AreSmall that.now }
    requires value { Small (words_of (cond_of condition.now this.now that.now).any) }
    ensures { result ≡ cond_of condition.now this.now that.now }
{
    let x = words(this.any);
    let y = words(that.any);
    let this_first = three(words(condition.on_false), x, y, 2);
    let that_first = three(words(condition.on_true), y, x, 2);
    let any = better(None, Rule::V20, this_first);
    let any = better(any, Rule::V21, that_first);
    tested_by_value(None, any)
}

/// The choices of a call, from the words of all its arguments, each stored in its cell, and the choices of its routine.
pub fn call_choices(arguments: Option<u64>, routine: &Choices, level: u64) -> Choices
    requires arguments { Small arguments }
    requires routine { AreSmall routine.now }
    requires value { Small (words_of (call_of arguments routine.now level).any) }
    ensures { result ≡ call_of arguments routine.now level }
{
    let all = both(arguments, words(routine.any), number_words(level));
    tested_by_value(None, better(None, Rule::V22, all))
}

/// The choices of a VALOF, whose body counts no words.
pub fn valof_choices() -> Choices
    ensures { result ≡ valof_of }
{
    tested_by_value(None, better(None, Rule::V22, Some(0)))
}
