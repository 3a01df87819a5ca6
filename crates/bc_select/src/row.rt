//! Rows: the least words and rules of a node, in the form that `select` returns.

ghost use Rattle.std.specs.Prelude.{◌≡◌, List, ◌∷◌, [], ◌++◌};
ghost use Rattle.bc_select.specs.Row.{row_of, rules_of, choice_in};
ghost use Rattle.bc_select.specs.Reads.{rule_or_v1};
ghost use Rattle.bc_select_defs.specs.Options.{rule_of};
ghost use Rattle.bc_select_defs.specs.Choices.{choice_for as choice_of};

use crate::candidates::any_words;
use bc_rules_defs::{Aim, Mode, Rule};
use bc_select_defs::{Choice, Choices};

/// The least words of a node for each aim, and the rule of the lowest number that attains them. The aims are, in this order: a value in
/// mode Any, a value in mode Push, a jump on false, a jump on true. None means that there is no derivation for the aim.
#[derive(Clone, Copy, Debug, PartialEq, Eq)]
pub struct Row {
    /// The least words.
    pub costs: [Option<u64>; 4],
    /// The rules that attain them.
    pub rules: [Option<Rule>; 4],
}

/// The rule of a choice.
fn rule(choice: Option<Choice>) -> Option<Rule>
    ensures { result ≡ rule_of choice }
{
    let choice = choice?;
    Some(choice.rule)
}

/// The row of a node with these choices.
pub fn row_from(choices: &Choices) -> Row
    ensures { result ≡ row_of choices.now }
{
    Row {
        costs: [
            any_words(choices.any),
            any_words(choices.push),
            any_words(choices.on_false),
            any_words(choices.on_true),
        ],
        rules: [
            rule(choices.any),
            rule(choices.push),
            rule(choices.on_false),
            rule(choices.on_true),
        ],
    }
}

/// A choice of these words and this rule; None if either is None.
#[inline(always)]
fn choice(words: Option<u64>, rule: Option<Rule>) -> Option<Choice>
    ensures { result ≡ choice_in words rule }
{
    let words = words?;
    let rule = rule?;
    Some(Choice { words, rule })
}

/// The choices from which this row was made.
#[inline(always)]
fn choices_from(row: &Row) -> Choices
    ensures { (c : Choices) → row.now ≡ row_of c → result ≡ c }
{
    Choices {
        any: choice(row.costs[0], row.rules[0]),
        push: choice(row.costs[1], row.rules[1]),
        on_false: choice(row.costs[2], row.rules[2]),
        on_true: choice(row.costs[3], row.rules[3]),
    }
}

/// The rule of a choice, or V1 if there is no choice.
pub fn rule_or_v1(choice: Option<Choice>) -> Rule
    ensures { result ≡ rule_or_v1 choice }
{
    match choice {
        Some(choice) => choice.rule,
        None => Rule::V1,
    }
}

/// The rules of these choices in the order of a row, with V1 where there is no choice.
#[inline(always)]
pub fn rules_from(choices: &Choices) -> [Rule; 4]
    ensures { result ≡ rules_of choices.now }
{
    [
        rule_or_v1(choices.any),
        rule_or_v1(choices.push),
        rule_or_v1(choices.on_false),
        rule_or_v1(choices.on_true),
    ]
}

/// The rule for an aim, of rules in the order of a row.
#[inline(always)]
pub fn rule_for(rules: &[Rule; 4], aim: Aim) -> Rule
    ensures { (c : Choices) → rules.now ≡ rules_of c → result ≡ rule_or_v1 (choice_of aim c) }
{
    match aim {
        Aim::Gets(Mode::Any) => rules[0],
        Aim::Gets(Mode::Push) => rules[1],
        Aim::Jumps(false) => rules[2],
        Aim::Jumps(true) => rules[3],
    }
}

/// The choices of the last row; none if there is no row.
#[inline(always)]
pub fn last_choices(rows: &[Row]) -> Choices
    ensures { (xs : List Row) (c : Choices) → rows.now ≡ xs ++ (row_of c ∷ []) → result ≡ c }
{
    match rows.last() {
        Some(row) => choices_from(row),
        None => Choices {
            any: None,
            push: None,
            on_false: None,
            on_true: None,
        },
    }
}
