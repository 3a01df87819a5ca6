//! The machine for pure expressions: evaluates one step after another, with its continuations in a list.

ghost use Rattle.std.specs.Prelude.{◌≡◌, IfOk};
ghost use Rattle.bc_core.specs.View.{exp};
ghost use Rattle.bc_interpret_defs.specs.Quiet.{worth};
ghost use Rattle.bc_interpret_pure.specs.Views.{sight_of, work_of, stack, Kept, seen, seen_truth};

use crate::apply::{divided, number_taken, verdict_taken};
use crate::context::{Cause, Sight};
use crate::evaluate::{decide, evaluate};
use crate::forms::{Rest, Step, Work, take};
use bc_core::CoreExp;
use bc_word::Memory;

/// The result of a pure expression, as a number.
#[derive(Clone, Copy, Debug)]
pub enum Worth {
    /// The expression has this value.
    Is(u16),
    /// A zero divisor ends it, and no wild cell is read.
    Divides,
    /// A wild cell is read.
    Fails(Cause),
}

/// The result of a pure expression, as a truth.
#[derive(Clone, Copy, Debug)]
pub enum Truth {
    /// The expression has this truth.
    Is(bool),
    /// A zero divisor ends it, and no wild cell is read.
    Divides,
    /// A wild cell is read.
    Fails(Cause),
}

/// One step of the machine.
///
/// `Memory` if an allocation fails.
fn step<'c>(sight: &Sight<'_>, now: Work<'c>, rests: &mut Vec<Rest<'c>>) -> Result<Step<'c>, Memory>
    ensures { IfOk result (λ step. Kept step (sight_of sight.now) (work_of now.entry) (stack rests.old.items) (stack rests.new.items)) }
{
    match now {
        Work::Evaluate(e) => Ok(evaluate(sight, e, rests)?),
        Work::Decide(e) => Ok(decide(e, rests)?),
        Work::Number(v) => match take(rests) {
            Some(rest) => Ok(number_taken(sight, &rest, v, rests)?),
            None => Ok(Step::Number(v)),
        },
        Work::Verdict(t) => match take(rests) {
            Some(rest) => Ok(verdict_taken(&rest, t)),
            None => Ok(Step::Verdict(t)),
        },
        Work::Divided => match take(rests) {
            Some(rest) => Ok(divided(&rest, rests)?),
            None => Ok(Step::Divides),
        },
    }
}

/// The worth of a pure expression; a call or VALOF that is reached fails as `Malformed`. The former contents of `rests` are lost; it is
/// passed in so that its memory is reused. Uses no native stack for the depth of the tree.
///
/// `Memory` if an allocation fails.
#[tactic(auto, using(crate::proofs::Kept::number_is, crate::proofs::Kept::divides_is, crate::proofs::Kept::fails_is, crate::proofs::Kept::no_verdict))]
pub(crate) fn value_of<'c>(
    sight: &Sight<'_>,
    e: &'c CoreExp,
    rests: &mut Vec<Rest<'c>>,
) -> Result<Worth, Memory>
    ensures { IfOk result (λ found. seen found ≡ (worth (sight_of sight.now) (exp e.now)).value) }
{
    rests.clear();
    let mut now = Work::Evaluate(e);
    loop {
        match step(sight, now, rests)? {
            Step::On(next) => now = next,
            Step::Number(v) => return Ok(Worth::Is(v)),
            Step::Verdict(_) => return Ok(Worth::Fails(Cause::Malformed)),
            Step::Divides => return Ok(Worth::Divides),
            Step::Fails(cause) => return Ok(Worth::Fails(cause)),
        }
    }
}

/// The truth of a pure expression; a call or VALOF that is reached fails as `Malformed`. The former contents of `rests` are lost; it is
/// passed in so that its memory is reused. Uses no native stack for the depth of the tree.
///
/// `Memory` if an allocation fails.
#[tactic(auto, using(crate::proofs::Kept::truth_is, crate::proofs::Kept::not_divided, crate::proofs::Kept::not_failed, crate::proofs::Kept::no_number))]
pub(crate) fn decided<'c>(
    sight: &Sight<'_>,
    e: &'c CoreExp,
    rests: &mut Vec<Rest<'c>>,
) -> Result<Truth, Memory>
    ensures { IfOk result (λ found. seen_truth found ≡ (worth (sight_of sight.now) (exp e.now)).truth) }
{
    rests.clear();
    let mut now = Work::Decide(e);
    loop {
        match step(sight, now, rests)? {
            Step::On(next) => now = next,
            Step::Number(_) => return Ok(Truth::Fails(Cause::Malformed)),
            Step::Verdict(t) => return Ok(Truth::Is(t)),
            Step::Divides => return Ok(Truth::Divides),
            Step::Fails(cause) => return Ok(Truth::Fails(cause)),
        }
    }
}
