//! Giving an answer to the innermost continuation. An answer of the wrong kind is wild (`Malformed`). Each call returns `Memory`
//! if an allocation fails.

ghost use Rattle.bc_interpret_defs.specs.Machine as machine;
ghost use Rattle.bc_interpret_steps.specs.Code.{exit_of};
ghost use Rattle.bc_interpret_steps.specs.Stepped.{StepsOver};
ghost use Rattle.bc_interpret_steps.specs.Passing.{RunsOver};

use crate::calls::call_given;
use crate::conditions::truth_taken;
use crate::continuations::Rest;
use crate::exits::{exit_taken, nothing_taken};
use crate::forms::{Exit, Progress, Work};
use crate::numbers::{number_taken, value_taken};
use crate::sections::Callable;
use crate::state::{Stacks, State};
use bc_interpret_pure::Cause;
use bc_word::Memory;

/// Gives a number to the innermost continuation.
pub(crate) fn give_number<'c>(
    table: &[Callable<'c>],
    v: u16,
    stacks: &mut Stacks<'c>,
    state: &mut State,
) -> Result<(), Memory>
    ensures { StepsOver table.now (machine.Give (machine.Number v)) stacks.old.rests state.old result stacks.new.next stacks.new.rests state.new }
{
    match stacks.pop() {
        None => {
            stacks.next = Progress::Answered;
            Ok(())
        }
        Some(Rest::Number(rest)) => number_taken(&rest, v, stacks, state),
        Some(Rest::Value(rest)) => value_taken(&rest, v, stacks, state),
        Some(Rest::Calls(fresh, frame)) => call_given(table, v, fresh, frame, stacks, state),
        Some(Rest::Closes(_, count, from)) => {
            state.store.close(count as usize, from as usize);
            stacks.next = Progress::On(Work::Number(v));
            Ok(())
        }
        Some(Rest::Truth(_) | Rest::Nothing(_) | Rest::Exit(_) | Rest::Given(_, _)) => {
            stacks.next = Progress::Wild(Cause::Malformed);
            Ok(())
        }
    }
}

/// Gives a truth to the innermost continuation.
pub(crate) fn give_verdict<'c>(
    table: &[Callable<'c>],
    t: bool,
    stacks: &mut Stacks<'c>,
    state: &mut State,
) -> Result<(), Memory>
    ensures { StepsOver table.now (machine.Give (machine.Verdict t)) stacks.old.rests state.old result stacks.new.next stacks.new.rests state.new }
{
    match stacks.pop() {
        None => {
            stacks.next = Progress::Answered;
            Ok(())
        }
        Some(Rest::Truth(rest)) => truth_taken(&rest, t, stacks, state),
        Some(Rest::Closes(_, count, from)) => {
            state.store.close(count as usize, from as usize);
            stacks.next = Progress::On(Work::Verdict(t));
            Ok(())
        }
        Some(
            Rest::Number(_)
            | Rest::Value(_)
            | Rest::Calls(_, _)
            | Rest::Nothing(_)
            | Rest::Exit(_)
            | Rest::Given(_, _),
        ) => {
            stacks.next = Progress::Wild(Cause::Malformed);
            Ok(())
        }
    }
}

/// Gives the answer of an assignment or an initialiser to the innermost continuation.
pub(crate) fn give_nothing<'c>(
    table: &[Callable<'c>],
    stacks: &mut Stacks<'c>,
    state: &mut State,
) -> Result<(), Memory>
    ensures { StepsOver table.now (machine.Give machine.Nothing) stacks.old.rests state.old result stacks.new.next stacks.new.rests state.new }
{
    match stacks.pop() {
        None => {
            stacks.next = Progress::Answered;
            Ok(())
        }
        Some(Rest::Nothing(rest)) => nothing_taken(&rest, stacks),
        Some(Rest::Closes(_, count, from)) => {
            state.store.close(count as usize, from as usize);
            stacks.next = Progress::On(Work::Nothing);
            Ok(())
        }
        Some(
            Rest::Number(_)
            | Rest::Value(_)
            | Rest::Calls(_, _)
            | Rest::Truth(_)
            | Rest::Exit(_)
            | Rest::Given(_, _),
        ) => {
            stacks.next = Progress::Wild(Cause::Malformed);
            Ok(())
        }
    }
}

/// Gives an exit to the innermost continuation, after popping the continuations that only pass it on.
#[inline(always)]
pub(crate) fn give_exit<'c>(
    table: &[Callable<'c>],
    exit: Exit,
    stacks: &mut Stacks<'c>,
    state: &mut State,
) -> Result<(), Memory>
    ensures { RunsOver table.now (machine.Give (machine.Left (exit_of exit))) stacks.old.rests state.old result stacks.new.next stacks.new.rests state.new }
{
    let out = stacks.pass(exit);
    resume_with_exit(table, out, stacks, state)
}

/// Gives an exit to the innermost continuation.
#[inline(always)]
fn resume_with_exit<'c>(
    table: &[Callable<'c>],
    exit: Exit,
    stacks: &mut Stacks<'c>,
    state: &mut State,
) -> Result<(), Memory>
    ensures { StepsOver table.now (machine.Give (machine.Left (exit_of exit))) stacks.old.rests state.old result stacks.new.next stacks.new.rests state.new }
{
    match stacks.pop() {
        None => {
            stacks.next = Progress::Answered;
            Ok(())
        }
        Some(Rest::Exit(rest)) => exit_taken(&rest, exit, stacks, state),
        Some(Rest::Closes(_, count, from)) => {
            state.store.close(count as usize, from as usize);
            stacks.next = Progress::On(Work::Left(exit));
            Ok(())
        }
        Some(
            Rest::Number(_)
            | Rest::Value(_)
            | Rest::Calls(_, _)
            | Rest::Truth(_)
            | Rest::Nothing(_)
            | Rest::Given(_, _),
        ) => {
            stacks.next = Progress::Wild(Cause::Malformed);
            Ok(())
        }
    }
}
