//! The candidates of a node, as `candidates` returns them.

ghost use Rattle.std.specs.Prelude.{◌≡◌};
ghost use Rattle.bc_candidates.specs.Aims.{for_aim as list_for_aim};

use bc_rules_defs::{Aim, Mode, Rule};
use std::marker::Model;

/// A rule with which a derivation of a node can begin, and the least words of the derivations that begin with it.
#[derive(Clone, Copy, Debug, PartialEq, Eq)]
pub struct Beginning {
    /// The rule.
    pub rule: Rule,
    /// The least words.
    pub words: u64,
}

/// The rules with which a derivation of a node can begin, for each aim, in the order of their numbers. The view in contracts is a record
/// of four lists.
#[derive(Debug, Drop)]
pub struct Candidates {
    /// As a value in mode Any.
    pub any: Vec<Beginning>,
    /// As a value in mode Push.
    pub push: Vec<Beginning>,
    /// As a jump on false.
    pub on_false: Vec<Beginning>,
    /// As a jump on true.
    pub on_true: Vec<Beginning>,
}

impl Model for Candidates {
    ghost use Rattle.bc_candidates.specs.Aims.{ForAims};

    ghost Value = { ForAims };

    ghost view = { λ c. record { any = c.any.items; push = c.push.items; on_false = c.on_false.items; on_true = c.on_true.items } };
}

impl Candidates {
    /// The rules for this aim.
    pub fn for_aim(&self, aim: Aim) -> &[Beginning]
        ensures { result.now ≡ list_for_aim aim self.now }
    {
        match aim {
            Aim::Gets(Mode::Any) => self.any.as_slice(),
            Aim::Gets(Mode::Push) => self.push.as_slice(),
            Aim::Jumps(false) => self.on_false.as_slice(),
            Aim::Jumps(true) => self.on_true.as_slice(),
        }
    }
}
