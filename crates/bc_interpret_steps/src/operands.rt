//! Giving a number to the innermost continuation. If that is an operator which waits for its first operand, the second one is begun in
//! the same step.

ghost use Rattle.std.specs.Prelude.{Some};
ghost use Rattle.bc_interpret_defs.specs.Machine as machine;
ghost use Rattle.bc_interpret_steps.specs.Passing.{RunsOver, IsOperator};

use crate::answers::give_number;
use crate::continuations::{NumberRest, Rest, level_above, push};
use crate::descend::begin_other;
use crate::forms::Site;
use crate::sections::Callable;
use crate::state::{Stacks, State};
use bc_core::CoreExp;
use bc_word::{Memory, Op};

/// An operator that waits for its first operand.
#[derive(Clone, Copy)]
pub(crate) struct Operator<'c> {
    /// Where it is evaluated, at its level.
    pub(crate) site: Site<'c>,
    /// The operator.
    pub(crate) op: Op,
    /// Its second operand.
    pub(crate) second: &'c CoreExp,
}

/// The operator that waits for its first operand, if the innermost continuation is one.
#[inline(always)]
fn waiting<'c>(rests: &[Rest<'c>]) -> Option<Operator<'c>>
    ensures { IsOperator result rests.now }
{
    match rests.last() {
        Some(Rest::Number(NumberRest::Operates(site, op, second))) => Some(Operator {
            site: *site,
            op: *op,
            second,
        }),
        _ => None,
    }
}

/// Gives a number to the innermost continuation; if that takes it as an operator's first operand, also begins the second one. Not
/// inlined, so that `step` stays small enough to be inlined into the loop around it.
#[inline(never)]
pub(crate) fn resume_with_number<'c>(
    table: &[Callable<'c>],
    v: u16,
    stacks: &mut Stacks<'c>,
    state: &mut State,
) -> Result<(), Memory>
    ensures { RunsOver table.now (machine.Give (machine.Number v)) stacks.old.rests state.old result stacks.new.next stacks.new.rests state.new }
{
    match waiting(stacks.rests.as_slice()) {
        Some(operator) => second(table, operator, v, stacks, state),
        None => give_number(table, v, stacks, state),
    }
}

/// Gives an operator its first operand `v`, and begins the second one. The operator must be the innermost continuation.
#[inline(always)]
fn second<'c>(
    table: &[Callable<'c>],
    operator: Operator<'c>,
    v: u16,
    stacks: &mut Stacks<'c>,
    state: &mut State,
) -> Result<(), Memory>
    requires { IsOperator (Some operator) stacks.now.rests.items }
    ensures { RunsOver table.now (machine.Give (machine.Number v)) stacks.old.rests state.old result stacks.new.next stacks.new.rests state.new }
{
    let level = level_above(operator.site.level, 1)?;
    let _gone = stacks.rests.pop();
    push(
        Rest::Number(NumberRest::Operated(operator.op, v)),
        &mut stacks.rests,
    )?;
    let site = Site {
        level,
        ..operator.site
    };
    begin_other(table, site, operator.second, stacks, state)
}
