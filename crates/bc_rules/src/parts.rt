//! The parts that a rule has at an expression.

use bc_core::CoreExp;
use bc_rules_defs::Aim;

/// A part of an expression with its aim.
#[derive(Clone, Copy)]
pub struct Part<'a> {
    /// The purpose of the part's code.
    pub aim: Aim,
    /// The part.
    pub of: &'a CoreExp,
}

/// The parts that a rule has at an expression, in the order of the code.
#[derive(Clone, Copy)]
pub enum Parts<'a> {
    /// The rule doesn't apply.
    NoRule,
    /// No parts. The flag says whether the expression is a VALOF.
    Leaf(bool),
    /// One part.
    Single(Part<'a>),
    /// Two parts, in the order of the code.
    Pair(Part<'a>, Part<'a>),
    /// Three parts, in the order of the code.
    Triple(Part<'a>, Part<'a>, Part<'a>),
    /// The arguments of a call, and the routine.
    Call(&'a [CoreExp], &'a CoreExp),
}
