//! The fast path: evaluates a pure expression by recursion on its tree, or finds that it isn't pure. It gives up (`Unknown`) if the
//! expression is deeper than a bound or has no value.
//!
//! The most frequent forms, numbers and variables of the frame, are evaluated without a native call. A function that only dispatches
//! on the form ends in tail calls, so it saves no registers. That is why each form has its own function, marked `inline(never)`.

ghost use Rattle.std.specs.Prelude.{◌≡◌, ◌||◌, false, IfSome, IsTrue};
ghost use Rattle.bc_core.specs.Tree.{Load, Neg, Not, Bin, Cond};
ghost use Rattle.bc_core.specs.Value.{has_call};
ghost use Rattle.bc_core.specs.View.{exp};
ghost use Rattle.bc_interpret_pure.specs.Quick.{IsQuickValue, IsQuickTruth, IsQuickLeaf, IsWordAt, IsMadeOf, IsSecond};
ghost use Rattle.bc_interpret_pure.specs.Views.{sight_of};

use crate::context::{Sight, cell_in};
use bc_core::CoreExp;
use bc_interpret_store::Cell;
use bc_word::{Op, Word, apply};

/// The greatest depth of an expression that is evaluated by recursion.
const DEPTH: usize = 16;

/// What the fast path finds out about an expression.
#[derive(Clone, Copy, Debug)]
pub enum Quick {
    /// The expression is pure and has this value. Where its truth was requested: its truth is that of this number, false for 0.
    Is(u16),
    /// Nothing is known: use `worth_of` or `truth_of` instead.
    Unknown,
    /// The expression contains a call or a VALOF.
    Calls,
}

/// The value of an expression, as far as the fast path finds it out. Allocates nothing.
#[inline(always)]
pub fn value_at_once(sight: &Sight<'_>, e: &CoreExp) -> Quick
    ensures { IsQuickValue (sight_of sight.now) (exp e.now) result }
{
    quick_value(sight, e, DEPTH)
}

/// The truth of an expression, as far as the fast path finds it out. Allocates nothing.
#[inline(always)]
pub fn truth_at_once(sight: &Sight<'_>, e: &CoreExp) -> Quick
    ensures { IsQuickTruth (sight_of sight.now) (exp e.now) result }
{
    quick_truth(sight, e, DEPTH)
}

/// Whether an expression is a number or the address of a cell or label.
#[inline(always)]
fn is_plain(e: &CoreExp) -> bool
    ensures { IsTrue result → has_call (exp e.now) ≡ false }
{
    match e {
        CoreExp::Num(_) | CoreExp::Frame(_) | CoreExp::Glob(_) | CoreExp::Place(_) => true,
        CoreExp::Load(_)
        | CoreExp::Neg(_)
        | CoreExp::Not(_)
        | CoreExp::Bin(_, _, _)
        | CoreExp::Cond(_, _, _)
        | CoreExp::Call(_, _)
        | CoreExp::Valof(_) => false,
    }
}

/// Whether an expression contains a call or a VALOF; `None` if it is deeper than `depth`.
#[inline(always)]
#[cycle(calls)]
fn quick_calls(e: &CoreExp, depth: usize) -> Option<bool>
    ensures { IfSome result (λ t. t ≡ has_call (exp e.now)) }
{
    match e {
        CoreExp::Num(_) | CoreExp::Frame(_) | CoreExp::Glob(_) | CoreExp::Place(_) => Some(false),
        CoreExp::Call(_, _) | CoreExp::Valof(_) => Some(true),
        CoreExp::Load(address) => {
            if is_plain(address) {
                Some(false)
            } else {
                calls_below(e, depth)
            }
        }
        CoreExp::Neg(_) | CoreExp::Not(_) | CoreExp::Bin(_, _, _) | CoreExp::Cond(_, _, _) => {
            calls_below(e, depth)
        }
    }
}

/// `quick_calls` of an expression whose parts must be visited.
#[inline(never)]
#[cycle(calls)]
#[tactic(auto, using(crate::proofs::OnTrees::neither, crate::proofs::OnTrees::first, crate::proofs::OnTrees::second))]
fn calls_below(e: &CoreExp, depth: usize) -> Option<bool>
    ensures { IfSome result (λ t. t ≡ has_call (exp e.now)) }
{
    if depth == 0 {
        return None;
    }
    let below = depth - 1;
    match e {
        CoreExp::Num(_) | CoreExp::Frame(_) | CoreExp::Glob(_) | CoreExp::Place(_) => Some(false),
        CoreExp::Load(part) | CoreExp::Neg(part) | CoreExp::Not(part) => quick_calls(part, below),
        CoreExp::Bin(_, left, right) => either_calls(left, right, below),
        CoreExp::Cond(condition, this, that) => match quick_calls(condition, below) {
            Some(false) => either_calls(this, that, below),
            told => told,
        },
        CoreExp::Call(_, _) | CoreExp::Valof(_) => Some(true),
    }
}

/// Whether one of two expressions contains a call or a VALOF; `None` if one is deeper than `depth`.
#[inline(always)]
#[cycle(calls)]
#[tactic(auto, using(crate::proofs::OnTrees::neither, crate::proofs::OnTrees::first, crate::proofs::OnTrees::second))]
fn either_calls(this: &CoreExp, that: &CoreExp, depth: usize) -> Option<bool>
    ensures { IfSome result (λ t. t ≡ (has_call (exp this.now) || has_call (exp that.now))) }
{
    match quick_calls(this, depth) {
        Some(false) => quick_calls(that, depth),
        told => told,
    }
}

/// The word of the cell at this address; `Unknown` if the cell is dead or unset.
#[inline(always)]
fn word_at(sight: &Sight<'_>, address: u16) -> Quick
    ensures { IsWordAt (sight_of sight.now) address result }
{
    match sight.store.at(address) {
        Cell::Set(word) => Quick::Is(word),
        Cell::Dead | Cell::Unset => Quick::Unknown,
    }
}

/// The result of an operator on two numbers; `Unknown` if the divisor is zero.
#[inline(always)]
fn made_of(op: Op, x: u16, y: u16) -> Quick
    ensures { IsMadeOf op x y result }
{
    match apply(op, Word::new(x), Word::new(y)) {
        Some(w) => Quick::Is(w.get()),
        None => Quick::Unknown,
    }
}

/// The value of a variable of the frame, given its address; `Unknown` for any other form of address.
#[inline(always)]
fn variable(sight: &Sight<'_>, address: &CoreExp) -> Quick
    ensures { IsQuickLeaf (sight_of sight.now) (Load (exp address.now)) result }
{
    match address {
        CoreExp::Frame(k) => word_at(sight, cell_in(sight.frame, *k as usize)),
        CoreExp::Num(_)
        | CoreExp::Glob(_)
        | CoreExp::Place(_)
        | CoreExp::Load(_)
        | CoreExp::Neg(_)
        | CoreExp::Not(_)
        | CoreExp::Bin(_, _, _)
        | CoreExp::Cond(_, _, _)
        | CoreExp::Call(_, _)
        | CoreExp::Valof(_) => Quick::Unknown,
    }
}

/// The value of a global, given its address; `Unknown` for any other form of address.
#[inline(always)]
fn global(sight: &Sight<'_>, address: &CoreExp) -> Quick
    ensures { IsQuickLeaf (sight_of sight.now) (Load (exp address.now)) result }
{
    match address {
        CoreExp::Glob(n) => word_at(sight, n.wrapping_add(8)),
        CoreExp::Num(_)
        | CoreExp::Frame(_)
        | CoreExp::Place(_)
        | CoreExp::Load(_)
        | CoreExp::Neg(_)
        | CoreExp::Not(_)
        | CoreExp::Bin(_, _, _)
        | CoreExp::Cond(_, _, _)
        | CoreExp::Call(_, _)
        | CoreExp::Valof(_) => Quick::Unknown,
    }
}

/// The value of a number, of an address in the frame, or of a variable of the frame; `Unknown` for any other form.
#[inline(always)]
fn leaf(sight: &Sight<'_>, e: &CoreExp) -> Quick
    ensures { IsQuickLeaf (sight_of sight.now) (exp e.now) result }
{
    match e {
        CoreExp::Num(n) => Quick::Is(n.get()),
        CoreExp::Frame(k) => Quick::Is(cell_in(sight.frame, *k as usize)),
        CoreExp::Load(address) => variable(sight, address),
        CoreExp::Glob(_)
        | CoreExp::Place(_)
        | CoreExp::Neg(_)
        | CoreExp::Not(_)
        | CoreExp::Bin(_, _, _)
        | CoreExp::Cond(_, _, _)
        | CoreExp::Call(_, _)
        | CoreExp::Valof(_) => Quick::Unknown,
    }
}

/// The value of a pure expression, or `Calls`. May be `Unknown`, and is if the expression is deeper than `depth`.
#[inline(always)]
#[cycle(quick)]
fn quick_value(sight: &Sight<'_>, e: &CoreExp, depth: usize) -> Quick
    ensures { IsQuickValue (sight_of sight.now) (exp e.now) result }
{
    match e {
        CoreExp::Bin(op, left, right) => operated(sight, *op, left, right, depth),
        CoreExp::Num(_)
        | CoreExp::Frame(_)
        | CoreExp::Glob(_)
        | CoreExp::Place(_)
        | CoreExp::Load(_)
        | CoreExp::Neg(_)
        | CoreExp::Not(_)
        | CoreExp::Cond(_, _, _)
        | CoreExp::Call(_, _)
        | CoreExp::Valof(_) => match leaf(sight, e) {
            Quick::Is(v) => Quick::Is(v),
            Quick::Unknown | Quick::Calls => walked(sight, e, depth),
        },
    }
}

/// `quick_value` of an expression of any form.
#[inline(never)]
#[cycle(quick)]
fn walked(sight: &Sight<'_>, e: &CoreExp, depth: usize) -> Quick
    ensures { IsQuickValue (sight_of sight.now) (exp e.now) result }
{
    match e {
        CoreExp::Num(n) => Quick::Is(n.get()),
        CoreExp::Frame(k) => Quick::Is(cell_in(sight.frame, *k as usize)),
        CoreExp::Glob(n) => Quick::Is(n.wrapping_add(8)),
        CoreExp::Place(m) => match sight.addresses.get(*m as usize) {
            Some(address) => Quick::Is(*address),
            None => Quick::Is(0),
        },
        CoreExp::Load(part) => match global(sight, part) {
            Quick::Is(v) => Quick::Is(v),
            Quick::Unknown | Quick::Calls => loaded(sight, part, depth),
        },
        CoreExp::Neg(part) => negated(sight, part, depth),
        CoreExp::Not(part) => complemented(sight, part, depth),
        CoreExp::Bin(op, left, right) => operated(sight, *op, left, right, depth),
        CoreExp::Cond(condition, this, that) => selected(sight, condition, this, that, depth),
        CoreExp::Call(_, _) | CoreExp::Valof(_) => Quick::Calls,
    }
}

/// `quick_value` of the content of the cell at address `part`.
#[inline(never)]
#[cycle(quick)]
#[tactic(auto, using(crate::proofs::OnTrees::worked_out))]
fn loaded(sight: &Sight<'_>, part: &CoreExp, depth: usize) -> Quick
    ensures { IsQuickValue (sight_of sight.now) (Load (exp part.now)) result }
{
    if depth == 0 {
        return Quick::Unknown;
    }
    match quick_value(sight, part, depth - 1) {
        Quick::Is(a) => word_at(sight, a),
        told => told,
    }
}

/// `quick_value` of the negation of `part`.
#[inline(never)]
#[cycle(quick)]
#[tactic(auto, using(crate::proofs::OnTrees::worked_out))]
fn negated(sight: &Sight<'_>, part: &CoreExp, depth: usize) -> Quick
    ensures { IsQuickValue (sight_of sight.now) (Neg (exp part.now)) result }
{
    if depth == 0 {
        return Quick::Unknown;
    }
    match quick_value(sight, part, depth - 1) {
        Quick::Is(v) => Quick::Is(Word::new(v).negated().get()),
        told => told,
    }
}

/// `quick_value` of the complement of `part`.
#[inline(never)]
#[cycle(quick)]
#[tactic(auto, using(crate::proofs::OnTrees::worked_out))]
fn complemented(sight: &Sight<'_>, part: &CoreExp, depth: usize) -> Quick
    ensures { IsQuickValue (sight_of sight.now) (Not (exp part.now)) result }
{
    if depth == 0 {
        return Quick::Unknown;
    }
    match quick_value(sight, part, depth - 1) {
        Quick::Is(v) => Quick::Is(Word::new(v).complemented().get()),
        told => told,
    }
}

/// `quick_value` of an operator with two operands.
#[inline(never)]
#[cycle(quick)]
#[tactic(auto, using(crate::proofs::OnTrees::neither, crate::proofs::OnTrees::both_worked_out, crate::proofs::OnTrees::following))]
fn operated(sight: &Sight<'_>, op: Op, left: &CoreExp, right: &CoreExp, depth: usize) -> Quick
    ensures { IsQuickValue (sight_of sight.now) (Bin op (exp left.now) (exp right.now)) result }
{
    match leaf(sight, left) {
        Quick::Is(x) => match leaf(sight, right) {
            Quick::Is(y) => made_of(op, x, y),
            Quick::Unknown | Quick::Calls => second(sight, op, x, right, depth),
        },
        Quick::Unknown | Quick::Calls => both(sight, op, left, right, depth),
    }
}

/// The result of an operator on a number and an expression.
#[inline(never)]
#[cycle(quick)]
fn second(sight: &Sight<'_>, op: Op, x: u16, right: &CoreExp, depth: usize) -> Quick
    ensures { IsSecond (sight_of sight.now) op x (exp right.now) result }
{
    if depth == 0 {
        return Quick::Unknown;
    }
    match quick_value(sight, right, depth - 1) {
        Quick::Is(y) => made_of(op, x, y),
        told => told,
    }
}

/// The result of an operator on two expressions.
#[inline(never)]
#[cycle(quick)]
#[tactic(auto, using(crate::proofs::OnTrees::neither, crate::proofs::OnTrees::first, crate::proofs::OnTrees::second, crate::proofs::OnTrees::both_worked_out))]
fn both(sight: &Sight<'_>, op: Op, left: &CoreExp, right: &CoreExp, depth: usize) -> Quick
    ensures { IsQuickValue (sight_of sight.now) (Bin op (exp left.now) (exp right.now)) result }
{
    if depth == 0 {
        return Quick::Unknown;
    }
    match quick_value(sight, left, depth - 1) {
        Quick::Is(x) => match quick_value(sight, right, depth - 1) {
            Quick::Is(y) => made_of(op, x, y),
            told => told,
        },
        told => told,
    }
}

/// `quick_value` of a conditional. Checks both branches for calls first: if one has a call, the condition needn't be evaluated here.
#[inline(never)]
#[cycle(quick)]
#[tactic(auto, using(crate::proofs::OnTrees::neither, crate::proofs::OnTrees::first, crate::proofs::OnTrees::second, crate::proofs::OnTrees::worked_out))]
fn selected(
    sight: &Sight<'_>,
    condition: &CoreExp,
    this: &CoreExp,
    that: &CoreExp,
    depth: usize,
) -> Quick
    ensures { IsQuickValue (sight_of sight.now) (Cond (exp condition.now) (exp this.now) (exp that.now)) result }
{
    if depth == 0 {
        return Quick::Unknown;
    }
    let below = depth - 1;
    match either_calls(this, that, below) {
        Some(false) => match quick_truth(sight, condition, below) {
            Quick::Is(0) => quick_value(sight, that, below),
            Quick::Is(_) => quick_value(sight, this, below),
            told => told,
        },
        Some(true) => Quick::Calls,
        None => Quick::Unknown,
    }
}

/// A number with the truth of a pure expression, or `Calls`. May be `Unknown`, and is if the expression is deeper than `depth`.
#[cycle(quick)]
fn quick_truth(sight: &Sight<'_>, e: &CoreExp, depth: usize) -> Quick
    ensures { IsQuickTruth (sight_of sight.now) (exp e.now) result }
{
    match e {
        CoreExp::Not(part) => opposed(sight, part, depth),
        CoreExp::Bin(Op::And, left, right) => conjoined(sight, left, right, depth),
        CoreExp::Bin(Op::Or, left, right) => disjoined(sight, left, right, depth),
        CoreExp::Bin(op, left, right) => operated(sight, *op, left, right, depth),
        CoreExp::Num(_)
        | CoreExp::Frame(_)
        | CoreExp::Glob(_)
        | CoreExp::Place(_)
        | CoreExp::Load(_)
        | CoreExp::Neg(_)
        | CoreExp::Cond(_, _, _)
        | CoreExp::Call(_, _)
        | CoreExp::Valof(_) => quick_value(sight, e, depth),
    }
}

/// `quick_truth` of a NOT.
#[inline(never)]
#[cycle(quick)]
#[tactic(auto, using(crate::proofs::OnTrees::worked_out))]
fn opposed(sight: &Sight<'_>, part: &CoreExp, depth: usize) -> Quick
    ensures { IsQuickTruth (sight_of sight.now) (Not (exp part.now)) result }
{
    if depth == 0 {
        return Quick::Unknown;
    }
    match quick_truth(sight, part, depth - 1) {
        Quick::Is(v) => Quick::Is(u16::from(v == 0)),
        told => told,
    }
}

/// `quick_truth` of `&`. Evaluates the second operand only if the first is true; else only checks it for calls.
#[inline(never)]
#[cycle(quick)]
#[tactic(auto, using(crate::proofs::OnTrees::neither, crate::proofs::OnTrees::first, crate::proofs::OnTrees::second, crate::proofs::OnTrees::worked_out))]
fn conjoined(sight: &Sight<'_>, left: &CoreExp, right: &CoreExp, depth: usize) -> Quick
    ensures { IsQuickTruth (sight_of sight.now) (Bin Op.And (exp left.now) (exp right.now)) result }
{
    if depth == 0 {
        return Quick::Unknown;
    }
    match quick_truth(sight, left, depth - 1) {
        Quick::Is(0) => match quick_calls(right, depth - 1) {
            Some(false) => Quick::Is(0),
            Some(true) => Quick::Calls,
            None => Quick::Unknown,
        },
        Quick::Is(_) => quick_truth(sight, right, depth - 1),
        told => told,
    }
}

/// `quick_truth` of `|`. Evaluates the second operand only if the first is false; else only checks it for calls.
#[inline(never)]
#[cycle(quick)]
#[tactic(auto, using(crate::proofs::OnTrees::neither, crate::proofs::OnTrees::first, crate::proofs::OnTrees::second, crate::proofs::OnTrees::worked_out))]
fn disjoined(sight: &Sight<'_>, left: &CoreExp, right: &CoreExp, depth: usize) -> Quick
    ensures { IsQuickTruth (sight_of sight.now) (Bin Op.Or (exp left.now) (exp right.now)) result }
{
    if depth == 0 {
        return Quick::Unknown;
    }
    match quick_truth(sight, left, depth - 1) {
        Quick::Is(0) => quick_truth(sight, right, depth - 1),
        Quick::Is(_) => match quick_calls(right, depth - 1) {
            Some(false) => Quick::Is(1),
            Some(true) => Quick::Calls,
            None => Quick::Unknown,
        },
        told => told,
    }
}
