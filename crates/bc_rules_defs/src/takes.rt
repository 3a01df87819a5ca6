//! Which parts each rule has, in which order and for which aim.
//!
//! This table is shared by the code writer, the selector, the writer of certificates and the checker. Each adds what it
//! needs beyond it: words, conditions on operands, or the pieces of the code.

ghost use Rattle.std.specs.Prelude.{◌≡◌};
ghost use Rattle.bc_rules_defs.specs.Takes.{takes as takes_by, beside as beside_by, turned as turned_of, aim_at};

use crate::rule::{Aim, Mode, Rule};

const ANY: Aim = Aim::Gets(Mode::Any);

const PUSH: Aim = Aim::Gets(Mode::Push);

const ON_FALSE: Aim = Aim::Jumps(false);

const ON_TRUE: Aim = Aim::Jumps(true);

/// The parts of a node that a rule derives, each with its aim. The parts are numbered in the order of the tree: the left operand
/// before the right one, a condition before its two values, arguments before the routine, the value of an assignment
/// before its address.
#[derive(Clone, Copy, Debug, PartialEq, Eq)]
pub enum Takes {
    /// No part.
    Nothing,
    /// Only the first part.
    First(Aim),
    /// Only the second part.
    Second(Aim),
    /// Two parts, in the same order in the code.
    InOrder(Aim, Aim),
    /// Two parts whose order is reversed in the code. The aims are still in the order of the parts.
    Turned(Aim, Aim),
    /// A condition that jumps on this sense, and two values. If the sense is true, the code has the second value before the first.
    Choice(bool),
    /// All parts of a call, each as a value. A VALOF has no part.
    Call,
}

impl Rule {
    /// The parts that the rule takes for this aim. `zero` says whether the node's second part is the number 0; V8, J8 and J9 need
    /// it. V0 and J6 continue with the node itself and take no part. The answer is meaningful only if the rule applies, which
    /// isn't checked here.
    #[inline(always)]
    pub fn takes(self, aim: Aim, zero: bool) -> Takes
        ensures { result ≡ takes_by self aim zero }
    {
        match self {
            Rule::V0 | Rule::V1 | Rule::J6 | Rule::J7 => Takes::Nothing,
            Rule::V2 | Rule::V3 | Rule::V4 | Rule::V6 | Rule::V9 | Rule::V10 => Takes::First(aim),
            Rule::V7 | Rule::V11 => Takes::Second(aim),
            Rule::V8 => beside(aim, zero),
            Rule::V12 => Takes::InOrder(ANY, PUSH),
            Rule::V13 | Rule::V14 => Takes::Turned(PUSH, ANY),
            Rule::V15 | Rule::V17 | Rule::V18 | Rule::V19 | Rule::A3 => Takes::InOrder(ANY, ANY),
            Rule::V16 | Rule::A2 => Takes::Turned(ANY, ANY),
            Rule::V20 => Takes::Choice(false),
            Rule::V21 => Takes::Choice(true),
            Rule::V22 => Takes::Call,
            Rule::J1 => Takes::First(turned(aim)),
            Rule::J2 => Takes::InOrder(ON_FALSE, ON_FALSE),
            Rule::J3 => Takes::InOrder(ON_FALSE, ON_TRUE),
            Rule::J4 => Takes::InOrder(ON_TRUE, ON_TRUE),
            Rule::J5 => Takes::InOrder(ON_TRUE, ON_FALSE),
            Rule::J8 | Rule::J9 => beside(ANY, zero),
            Rule::A1 => Takes::First(ANY),
        }
    }
}

/// The part that remains when a 0 is dropped. Of two zeros the second one is dropped.
#[inline(always)]
fn beside(aim: Aim, zero: bool) -> Takes
    ensures { result ≡ beside_by aim zero }
{
    if zero {
        Takes::First(aim)
    } else {
        Takes::Second(aim)
    }
}

/// The aim of the part of NOT: a test's sense is inverted.
#[inline(always)]
fn turned(aim: Aim) -> Aim
    ensures { result ≡ turned_of aim }
{
    match aim {
        Aim::Gets(mode) => Aim::Gets(mode),
        Aim::Jumps(sense) => Aim::Jumps(!sense),
    }
}

impl Takes {
    /// The aim of the part with this number, counted from 0 in the order of the tree; None if the rule doesn't take the part.
    #[inline(always)]
    pub fn aim_of(self, part: usize) -> Option<Aim>
        ensures { result ≡ aim_at self part }
    {
        match self {
            Takes::Nothing => None,
            Takes::First(aim) => { if part == 0 { Some(aim) } else { None } }
            Takes::Second(aim) => { if part == 0 { None } else { Some(aim) } }
            Takes::InOrder(first, second) | Takes::Turned(first, second) => {
                if part == 0 { Some(first) } else { Some(second) }
            }
            Takes::Choice(sense) => {
                if part == 0 {
                    Some(Aim::Jumps(sense))
                } else {
                    Some(ANY)
                }
            }
            Takes::Call => Some(ANY),
        }
    }
}
