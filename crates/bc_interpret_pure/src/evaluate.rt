//! One step into an expression: pushes the continuation for its other parts, and goes on with its first part.

ghost use Rattle.std.specs.Prelude.{IfOk};
ghost use Rattle.bc_core.specs.View.{exp};
ghost use Rattle.bc_interpret_defs.specs.Quiet.{evaluates, decides};
ghost use Rattle.bc_interpret_pure.specs.Views.{sight_of, stack, Came};

use crate::context::{Cause, Sight, cell_in};
use crate::forms::{Rest, Step, Work, put};
use bc_core::CoreExp;
use bc_word::{Memory, Op};

/// Begins to evaluate an expression for its value. A call or VALOF fails as `Malformed`.
///
/// `Memory` if an allocation fails.
pub(crate) fn evaluate<'c>(
    sight: &Sight<'_>,
    e: &'c CoreExp,
    rests: &mut Vec<Rest<'c>>,
) -> Result<Step<'c>, Memory>
    ensures { IfOk result (λ step. Came step (evaluates (sight_of sight.now) (exp e.now) (stack rests.old.items)) (stack rests.new.items)) }
{
    match e {
        CoreExp::Num(n) => Ok(Step::On(Work::Number(n.get()))),
        CoreExp::Frame(k) => Ok(Step::On(Work::Number(cell_in(sight.frame, *k as usize)))),
        CoreExp::Glob(n) => Ok(Step::On(Work::Number(n.wrapping_add(8)))),
        CoreExp::Place(m) => {
            let address = match sight.addresses.get(*m as usize) {
                Some(address) => *address,
                None => 0,
            };
            Ok(Step::On(Work::Number(address)))
        }
        CoreExp::Load(part) => {
            put(Rest::Loads, rests)?;
            Ok(Step::On(Work::Evaluate(part)))
        }
        CoreExp::Neg(part) => {
            put(Rest::Negates, rests)?;
            Ok(Step::On(Work::Evaluate(part)))
        }
        CoreExp::Not(part) => {
            put(Rest::Complements, rests)?;
            Ok(Step::On(Work::Evaluate(part)))
        }
        CoreExp::Bin(op, left, right) => {
            put(Rest::Operates(*op, right), rests)?;
            Ok(Step::On(Work::Evaluate(left)))
        }
        CoreExp::Cond(condition, this, that) => {
            put(Rest::Selects(this, that), rests)?;
            Ok(Step::On(Work::Decide(condition)))
        }
        CoreExp::Call(_, _) | CoreExp::Valof(_) => Ok(Step::Fails(Cause::Malformed)),
    }
}

/// Begins to evaluate an expression for its truth.
///
/// `Memory` if an allocation fails.
pub(crate) fn decide<'c>(e: &'c CoreExp, rests: &mut Vec<Rest<'c>>) -> Result<Step<'c>, Memory>
    ensures { IfOk result (λ step. Came step (decides (exp e.now) (stack rests.old.items)) (stack rests.new.items)) }
{
    match e {
        CoreExp::Not(part) => {
            put(Rest::Opposes, rests)?;
            Ok(Step::On(Work::Decide(part)))
        }
        CoreExp::Bin(Op::And, left, right) => {
            put(Rest::Conjoins(right), rests)?;
            Ok(Step::On(Work::Decide(left)))
        }
        CoreExp::Bin(Op::Or, left, right) => {
            put(Rest::Disjoins(right), rests)?;
            Ok(Step::On(Work::Decide(left)))
        }
        CoreExp::Bin(_, _, _)
        | CoreExp::Num(_)
        | CoreExp::Frame(_)
        | CoreExp::Glob(_)
        | CoreExp::Place(_)
        | CoreExp::Load(_)
        | CoreExp::Neg(_)
        | CoreExp::Cond(_, _, _)
        | CoreExp::Call(_, _)
        | CoreExp::Valof(_) => {
            put(Rest::Tests, rests)?;
            Ok(Step::On(Work::Evaluate(e)))
        }
    }
}
