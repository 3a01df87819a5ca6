//! What the lines above a node need to know of it, beside what the rules need.

ghost use Rattle.std.specs.Prelude.{◌≡◌, ◌≤◌};
ghost use Rattle.bc_cert_read.specs.Marks.{has_aim, is_some as is_some_of, levels_fit as levels_fit_of, first_level, depth_over as depth_of, all_bare as all_bare_of};

use crate::Form;
use bc_rules_defs::{Aim, Mode};

/// For which aims the rules that a node shows make a derivation.
#[derive(Clone, Copy)]
pub struct Shown {
    /// A value where register B may be lost.
    pub any: bool,
    /// A value where B must end up with the former A.
    pub push: bool,
    /// A test that jumps if the value is false.
    pub on_false: bool,
    /// A test that jumps if the value is true.
    pub on_true: bool,
}

impl Shown {
    /// Whether they make one for this aim.
    pub fn has(&self, aim: Aim) -> bool
        ensures { result ≡ has_aim self.now aim }
    {
        match aim {
            Aim::Gets(Mode::Any) => self.any,
            Aim::Gets(Mode::Push) => self.push,
            Aim::Jumps(false) => self.on_false,
            Aim::Jumps(true) => self.on_true,
        }
    }

    /// Whether they make one for any aim.
    pub fn is_some(&self) -> bool
        ensures { result ≡ is_some_of self.now }
    {
        self.any || self.push || self.on_false || self.on_true
    }
}

/// What the lines above a tree need to know of it.
#[derive(Clone, Copy)]
pub struct TreeFacts {
    /// The level of its outermost node.
    pub level: u16,
    /// Its depth: 1 for a node without parts.
    pub depth: u16,
    /// The aims for which its outermost node shows rules.
    pub shown: Shown,
    /// Whether none of its nodes shows rules.
    pub is_bare: bool,
}

/// How much higher than its own level the level of a node's first part is, and how much each further part is higher than the last.
fn steps(form: Form) -> (u64, u64)
    ensures exact { result ≡ first_level form }
    ensures few { (result.0 ≤ 2) × (result.1 ≤ 1) }
{
    match form {
        Form::Bin(_) => (1, 0),
        Form::Call(_) => (2, 1),
        Form::Num(_)
        | Form::Frame(_)
        | Form::Glob(_)
        | Form::Place(_)
        | Form::Valof(_)
        | Form::Load
        | Form::Neg
        | Form::Not
        | Form::Cond => (0, 0),
    }
}

/// Whether the parts have the levels that a node of this form at this level requires.
pub fn levels_fit(level: u16, form: Form, parts: &[TreeFacts]) -> bool
    ensures { result ≡ levels_fit_of level form parts.now }
{
    let (first, step) = steps(form);
    let mut next = u64::from(level) + first;
    for part in parts {
        if u64::from(part.level) != next {
            return false;
        }
        next += step;
    }
    true
}

/// The depth of a node with these parts.
pub fn depth_over(parts: &[TreeFacts]) -> u32
    ensures { result ≡ depth_of parts.now }
{
    let mut depth: u32 = 0;
    for part in parts {
        depth = depth.max(u32::from(part.depth));
    }
    depth + 1
}

/// Whether none of these trees shows rules at any of its nodes.
pub fn all_bare(parts: &[TreeFacts]) -> bool
    ensures { result ≡ all_bare_of parts.now }
{
    for part in parts {
        if !part.is_bare {
            return false;
        }
    }
    true
}
