//! The stated words of a node, and its least words as the checker computes them.

ghost use Rattle.std.specs.Prelude.{◌≡◌, ◌≤◌};
ghost use Rattle.bc_cert_read.specs.Costs.{cost_of, least_of, are_costs, same_words};

use bc_cert_defs::Costs;
use bc_rules_defs::{Aim, Mode};

/// The stated words for an aim. None if there is no such derivation.
#[inline(always)]
pub(crate) fn words_for(costs: &Costs, aim: Aim) -> Option<u64>
    ensures { result ≡ cost_of aim costs.now }
{
    match aim {
        Aim::Gets(Mode::Any) => Some(costs.any),
        Aim::Gets(Mode::Push) => costs.push,
        Aim::Jumps(false) => Some(costs.on_false),
        Aim::Jumps(true) => Some(costs.on_true),
    }
}

/// The fewest words of a node's derivations for each aim, as computed from its parts. None if there is no such derivation.
#[derive(Clone, Copy)]
pub struct LeastWords {
    /// Its value where register B may be lost.
    pub any: Option<u128>,
    /// Its value where B must end up with the former A.
    pub push: Option<u128>,
    /// A test that jumps if the value is false.
    pub on_false: Option<u128>,
    /// A test that jumps if the value is true.
    pub on_true: Option<u128>,
}

impl LeastWords {
    /// Whether these equal the numbers of a node line.
    #[inline(always)]
    pub fn are(&self, costs: &Costs) -> bool
        ensures { result ≡ are_costs self.now costs.now }
    {
        is_same(self.any, Some(costs.any))
            && is_same(self.push, costs.push)
            && is_same(self.on_false, Some(costs.on_false))
            && is_same(self.on_true, Some(costs.on_true))
    }
}

/// Whether both are the same number, or both None.
#[inline(always)]
fn is_same(words: Option<u128>, number: Option<u64>) -> bool
    ensures { result ≡ same_words words number }
{
    match (words, number) {
        (Some(words), Some(number)) => words == u128::from(number),
        (None, None) => true,
        (Some(_), None) | (None, Some(_)) => false,
    }
}
