//! The rules that a node line names.

ghost use Rattle.std.specs.Prelude.{◌≡◌};
ghost use Rattle.bc_cert_read.specs.Chains.{rule_name, whole as whole_of, of_value as of_value_rule, longer as longer_of, ended as ended_of, rules as rules_of, names as names_of};

use crate::fields::{cut, small};
use bc_rules_defs::Rule;

/// The rules that a node line names: optionally `J6`, optionally `V0`, and then one other rule.
#[derive(Clone, Copy)]
pub struct Chain {
    /// Whether the outermost rule is `J6`: a test that is made of the value.
    pub is_tested: bool,
    /// Whether `V0` precedes the last rule: a value that is computed as if it were pushed.
    pub is_freed: bool,
    /// The last rule, which is neither `V0` nor `J6`.
    pub rule: Rule,
}

/// The last field of a node line.
#[derive(Clone, Copy)]
pub enum Rules {
    /// `-`: a rule above takes the node, or one above it, as its operand, its number or the 0 that it drops.
    Taken,
    /// Rules that can be at one node.
    Named(Chain),
    /// Names that no derivation has at one node, or of which one isn't in the table.
    Wrong,
}

/// A rule's name: the letter V, J or A and a number up to 65,535. None if the text isn't a name, `Some(None)` if no rule has it.
fn named(text: &[u8]) -> Option<Option<Rule>>
    ensures { result ≡ rule_name text.now }
{
    match text {
        [letter, digits @ ..] => {
            if *letter == b'V' || *letter == b'J' || *letter == b'A' {
                match small(digits) {
                    Some(number) => Some(Rule::named(*letter, number)),
                    None => None,
                }
            } else {
                None
            }
        }
        [] => None,
    }
}

/// The names of a chain that are read up to here.
#[derive(Clone, Copy)]
pub enum Names {
    /// None yet.
    Nothing,
    /// `J6`.
    Tested,
    /// `V0`, perhaps after `J6`.
    Freed(bool),
    /// A complete chain.
    Whole(Chain),
    /// Names that no derivation has at one node, or of which one isn't in the table.
    Wrong,
}

/// A complete chain.
fn whole(is_tested: bool, is_freed: bool, rule: Rule) -> Names
    ensures { result ≡ whole_of is_tested is_freed rule }
{
    Names::Whole(Chain {
        is_tested,
        is_freed,
        rule,
    })
}

/// These names if the rule is one of values.
fn of_value(rule: Rule, names: Names) -> Names
    ensures { result ≡ of_value_rule rule names }
{
    if rule.letter() == b'V' {
        names
    } else {
        Names::Wrong
    }
}

impl Names {
    /// The names followed by this rule; None is a name that isn't in the table.
    fn longer(self, rule: Option<Rule>) -> Names
        ensures { result ≡ longer_of self rule }
    {
        match rule {
            Some(rule) => match self {
                Names::Nothing => match rule {
                    Rule::J6 => Names::Tested,
                    Rule::V0 => Names::Freed(false),
                    _ => whole(false, false, rule),
                },
                Names::Tested => match rule {
                    Rule::V0 => Names::Freed(true),
                    _ => of_value(rule, whole(true, false, rule)),
                },
                Names::Freed(is_tested) => match rule {
                    Rule::V0 => Names::Wrong,
                    _ => of_value(rule, whole(is_tested, true, rule)),
                },
                Names::Whole(_) | Names::Wrong => Names::Wrong,
            },
            None => Names::Wrong,
        }
    }

    /// The field's meaning, if no more names follow.
    fn ended(self) -> Rules
        ensures { result ≡ ended_of self }
    {
        match self {
            Names::Whole(chain) => Rules::Named(chain),
            Names::Nothing | Names::Tested | Names::Freed(_) | Names::Wrong => Rules::Wrong,
        }
    }
}

/// The last field of a node line: `-`, or names joined by dots. None if it is neither.
pub fn rules_field(text: &[u8]) -> Option<Rules>
    ensures { result ≡ rules_of text.now }
{
    match text {
        [only] => {
            if *only == b'-' {
                Some(Rules::Taken)
            } else {
                joined(text)
            }
        }
        _ => joined(text),
    }
}

/// Names joined by dots.
fn joined(text: &[u8]) -> Option<Rules>
    ensures { result ≡ names_of text.now }
{
    let mut names = Names::Nothing;
    let mut rest = text;
    for turn in 0..text.len() + 1 {
        let (first, following) = cut(rest, b'.');
        match named(first) {
            Some(rule) => names = names.longer(rule),
            None => return None,
        }
        match following {
            Some(following) => rest = following,
            None => return Some(names.ended()),
        }
    }
    None
}
