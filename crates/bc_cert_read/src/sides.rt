//! The rules of an assignment, and the fewest words that they give. It has no node line, so these aren't in `node.rt`.

ghost use Rattle.std.specs.Prelude.{◌≡◌};
ghost use Rattle.bc_cert_read.specs.Sides.{words_by as words_by_of, least_of, same as same_of};

use crate::{Facts, are_free, lesser};
use bc_rules_defs::{Rule, number_words};

/// An assignment, with what the rules need to know of its sides.
#[derive(Clone, Copy)]
pub struct Sides {
    /// The level of the assignment.
    pub level: u16,
    /// The facts of the value.
    pub value: Facts,
    /// The facts of the address.
    pub address: Facts,
}

impl Sides {
    /// The fewest words of derivations by this rule. None if the rule doesn't apply.
    fn words_by(&self, rule: Rule) -> Option<u128>
        ensures { result ≡ words_by_of self.now.level self.now.value self.now.address rule }
    {
        let value = u128::from(self.value.costs.any);
        let address = u128::from(self.address.costs.any);
        let here = u128::from(number_words(u64::from(self.level)));
        let next = u128::from(number_words(u64::from(self.level) + 1));
        match self.address.operand {
            Some(operand) => match rule {
                Rule::A1 => Some(value + u128::from(operand)),
                _ => None,
            },
            None => match rule {
                Rule::A2 => {
                    if are_free(&self.value, &self.address) {
                        Some(address + value + 2 * here)
                    } else {
                        None
                    }
                }
                Rule::A3 => Some(value + address + (2 * here + 2 * next)),
                _ => None,
            },
        }
    }

    /// The fewest words of any derivation.
    pub fn least(&self) -> Option<u128>
        ensures { result ≡ least_of self.now.level self.now.value self.now.address }
    {
        lesser(
            self.words_by(Rule::A1),
            lesser(self.words_by(Rule::A2), self.words_by(Rule::A3)),
        )
    }

    /// The fewest words, if this rule gives them. None if it doesn't apply, or another rule has fewer.
    pub fn least_by(&self, rule: Rule) -> Option<u128>
        ensures { result ≡ same_of (words_by_of self.now.level self.now.value self.now.address rule) (least_of self.now.level self.now.value self.now.address) }
    {
        match (self.words_by(rule), self.least()) {
            (Some(words), Some(least)) => { if words == least { Some(least) } else { None } }
            (Some(_), None) | (None, _) => None,
        }
    }
}
