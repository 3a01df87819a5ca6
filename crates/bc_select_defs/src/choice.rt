//! The least words and rules of an expression for each aim, and what a rule needs to know of an operand.

use bc_core::Operand;
use bc_rules_defs::Rule;
use bc_word::Word;

/// A rule and the least number of words of a derivation that begins with it.
#[derive(Clone, Copy, Debug, PartialEq, Eq)]
pub struct Candidate {
    /// The rule.
    pub rule: Rule,
    /// The words, or None if no derivation begins with the rule.
    pub words: Option<u64>,
}

/// The least number of words of the derivations for an aim, and the rule with the lowest number that attains it.
#[derive(Clone, Copy, Debug, PartialEq, Eq)]
pub struct Choice {
    /// The words.
    pub words: u64,
    /// The rule at the root of the derivation.
    pub rule: Rule,
}

/// The choice for each aim. None means that there is no derivation for the aim.
#[derive(Clone, Copy, Debug, PartialEq, Eq)]
pub struct Choices {
    /// A value in mode Any.
    pub any: Option<Choice>,
    /// A value in mode Push.
    pub push: Option<Choice>,
    /// A jump on false.
    pub on_false: Option<Choice>,
    /// A jump on true.
    pub on_true: Option<Choice>,
}

/// The facts about an operand that the rules for its operator or assignment need.
#[derive(Clone, Copy, Debug, PartialEq, Eq)]
pub struct Asked {
    /// Its least words and rules.
    pub choices: Choices,
    /// The operand of a single instruction that has its value, if there is one.
    pub operand: Option<Operand>,
    /// Its value, if it is a number.
    pub number: Option<Word>,
    /// Whether it contains a call or a VALOF.
    pub calls: bool,
    /// The number of its nodes.
    pub nodes: usize,
}
