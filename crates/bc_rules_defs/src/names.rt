//! The names of rules: a letter and a number.

ghost use Rattle.std.specs.Prelude.{◌≡◌};
ghost use Rattle.bc_rules_defs.specs.Names.{rule_letter, rule_number, found, rule_named};

use crate::rule::Rule;

/// All rules, in the order of the rule table.
pub const RULES: [Rule; 34] = [
    Rule::V0,
    Rule::V1,
    Rule::V2,
    Rule::V3,
    Rule::V4,
    Rule::V6,
    Rule::V7,
    Rule::V8,
    Rule::V9,
    Rule::V10,
    Rule::V11,
    Rule::V12,
    Rule::V13,
    Rule::V14,
    Rule::V15,
    Rule::V16,
    Rule::V17,
    Rule::V18,
    Rule::V19,
    Rule::V20,
    Rule::V21,
    Rule::V22,
    Rule::J1,
    Rule::J2,
    Rule::J3,
    Rule::J4,
    Rule::J5,
    Rule::J6,
    Rule::J7,
    Rule::J8,
    Rule::J9,
    Rule::A1,
    Rule::A2,
    Rule::A3,
];

impl Rule {
    /// The letter of the rule's name, in ASCII: V for values, J for tests, A for assignments.
    pub fn letter(self) -> u8
        ensures { result ≡ rule_letter self }
    {
        match self {
            Rule::V0
            | Rule::V1
            | Rule::V2
            | Rule::V3
            | Rule::V4
            | Rule::V6
            | Rule::V7
            | Rule::V8
            | Rule::V9
            | Rule::V10
            | Rule::V11
            | Rule::V12
            | Rule::V13
            | Rule::V14
            | Rule::V15
            | Rule::V16
            | Rule::V17
            | Rule::V18
            | Rule::V19
            | Rule::V20
            | Rule::V21
            | Rule::V22 => b'V',
            Rule::J1
            | Rule::J2
            | Rule::J3
            | Rule::J4
            | Rule::J5
            | Rule::J6
            | Rule::J7
            | Rule::J8
            | Rule::J9 => b'J',
            Rule::A1 | Rule::A2 | Rule::A3 => b'A',
        }
    }

    /// The number in the rule's name.
    pub fn number(self) -> u16
        ensures { result ≡ rule_number self }
    {
        match self {
            Rule::V0 => 0,
            Rule::V1 | Rule::J1 | Rule::A1 => 1,
            Rule::V2 | Rule::J2 | Rule::A2 => 2,
            Rule::V3 | Rule::J3 | Rule::A3 => 3,
            Rule::V4 | Rule::J4 => 4,
            Rule::J5 => 5,
            Rule::V6 | Rule::J6 => 6,
            Rule::V7 | Rule::J7 => 7,
            Rule::V8 | Rule::J8 => 8,
            Rule::V9 | Rule::J9 => 9,
            Rule::V10 => 10,
            Rule::V11 => 11,
            Rule::V12 => 12,
            Rule::V13 => 13,
            Rule::V14 => 14,
            Rule::V15 => 15,
            Rule::V16 => 16,
            Rule::V17 => 17,
            Rule::V18 => 18,
            Rule::V19 => 19,
            Rule::V20 => 20,
            Rule::V21 => 21,
            Rule::V22 => 22,
        }
    }

    /// The rule with this letter and number, or None if no rule has this name.
    pub fn named(letter: u8, number: u16) -> Option<Rule>
        ensures { result ≡ rule_named letter number }
    {
        among(&RULES, letter, number)
    }
}

/// The first of these rules that has this name.
fn among(rules: &[Rule], letter: u8, number: u16) -> Option<Rule>
    ensures { result ≡ found letter number rules.now }
{
    for rule in rules {
        if rule.letter() == letter && rule.number() == number {
            return Some(*rule);
        }
    }
    None
}
