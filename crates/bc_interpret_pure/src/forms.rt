//! The machine's current work, its steps, and its rests. A rest is what is usually called a continuation frame: what is left to do
//! with an answer. Comments call it a continuation, since a frame here is that of a routine. The continuations are in a vector, with
//! the innermost last.

ghost use Rattle.std.specs.Prelude.{◌≡◌, ◌∷◌, OnOk};
ghost use Rattle.bc_interpret_pure.specs.Views.{rest_of, stack, Popped};

use crate::context::Cause;
use bc_core::CoreExp;
use bc_word::{Memory, Op};

/// The current work: an expression to evaluate, or an answer to give to the innermost continuation.
#[derive(Clone, Copy)]
pub(crate) enum Work<'c> {
    /// Evaluates an expression for its value.
    Evaluate(&'c CoreExp),
    /// Evaluates an expression for its truth.
    Decide(&'c CoreExp),
    Number(u16),
    Verdict(bool),
    /// A zero divisor has occurred.
    Divided,
}

/// A continuation: what is left to do with a number or a truth.
#[derive(Clone, Copy)]
pub enum Rest<'c> {
    /// Reads the cell at the address that is the answer.
    Loads,
    /// Negates the number.
    Negates,
    /// Complements the number.
    Complements,
    /// Turns the number into a truth.
    Tests,
    /// The number is the first operand; evaluates the second one, this expression, next.
    Operates(Op, &'c CoreExp),
    /// The number is the second operand; the first one is stored here. Applies the operator.
    Operated(Op, u16),
    /// The number is the second operand, and the first one had a zero divisor. Continues with the zero divisor.
    Beside,
    /// Negates the truth.
    Opposes,
    /// The truth is the first operand of `&`; evaluates the second one if it is true.
    Conjoins(&'c CoreExp),
    /// The truth is the first operand of `|`; evaluates the second one if it is false.
    Disjoins(&'c CoreExp),
    /// The truth is a condition; evaluates the first expression if it is true, else the second.
    Selects(&'c CoreExp, &'c CoreExp),
}

/// The outcome of a step.
#[derive(Clone, Copy)]
pub(crate) enum Step<'c> {
    /// The machine continues with this work.
    On(Work<'c>),
    /// The machine has finished: the whole expression has this number.
    Number(u16),
    /// The machine has finished: the whole expression has this truth.
    Verdict(bool),
    /// The machine has finished with a zero divisor.
    Divides,
    /// The machine has met a wild access.
    Fails(Cause),
}

/// Pushes a continuation.
///
/// `Memory` if an allocation fails.
#[inline(always)]
#[tactic(auto, using(crate::proofs::Stacks::stacked))]
pub(crate) fn put<'c>(rest: Rest<'c>, rests: &mut Vec<Rest<'c>>) -> Result<(), Memory>
    ensures { OnOk result (stack rests.new.items ≡ rest_of rest.entry ∷ stack rests.old.items) }
{
    rests.push(rest)?;
    Ok(())
}

/// Pops the innermost continuation; `None` if there is none.
#[inline(always)]
#[tactic(auto, using(crate::proofs::Stacks::stacked))]
pub(crate) fn take<'c>(rests: &mut Vec<Rest<'c>>) -> Option<Rest<'c>>
    ensures { Popped result (stack rests.old.items) (stack rests.new.items) }
{
    rests.pop()
}
