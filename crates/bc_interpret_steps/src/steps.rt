//! The public call: one step of a run, or several of which all but the last change no cell and take no turn.

ghost use Rattle.bc_interpret_steps.specs.Code.{work_of, given};
ghost use Rattle.bc_interpret_steps.specs.Passing.{RunsOver, work_next};

use crate::answers::{give_exit, give_nothing, give_verdict};
use crate::arguments::evaluate_arguments;
use crate::call_command::begin_command;
use crate::commands::{declare, enter, initialise, repeat, repeat_while, round, store, while_loop};
use crate::descend::begin_expression;
use crate::evaluate::decide;
use crate::forms::{Progress, Work};
use crate::lists::listing;
use crate::operands::resume_with_number;
use crate::sections::Callable;
use crate::state::{Stacks, State};
use bc_word::Memory;

/// Does the work in `stacks.next` and stores the outcome there. `table` must list the routines of the program.
///
/// One call does at least one step of the machine of `bc_interpret_defs`, and more in these cases: control leaves one command after the
/// other; an operator receives its first operand and the second is begun; a pure condition is decided and its branch is begun; an
/// operator is begun together with the call that is its first operand; a call with pure arguments is begun together with its routine.
/// If the step calls something, `stacks.called` says what.
///
/// If `stacks.next` holds no work, the answer `Nothing` is given to the innermost continuation, so no precondition is needed.
///
/// `Memory` if an allocation fails.
#[inline(always)]
pub fn step<'c>(
    table: &[Callable<'c>],
    stacks: &mut Stacks<'c>,
    state: &mut State,
) -> Result<(), Memory>
    ensures { RunsOver table.now (work_of (given stacks.old.rests.items) (work_next stacks.old.next)) stacks.old.rests state.old result stacks.new.next
        stacks.new.rests state.new }
{
    stacks.called.least = 0;
    match stacks.next {
        Progress::On(Work::Evaluate(site, e)) => begin_expression(table, site, e, stacks, state),
        Progress::On(Work::Decide(site, e)) => decide(site, e, stacks, state),
        Progress::On(Work::Argue(arguments)) => evaluate_arguments(arguments, stacks, state),
        Progress::On(Work::Store(site, value, address)) => {
            store(site, value, address, stacks, state)
        }
        Progress::On(Work::Perform(site, command)) => {
            begin_command(table, site, command, stacks, state)
        }
        Progress::On(Work::While(site, condition, body)) => {
            while_loop(site, condition, body, stacks, state)
        }
        Progress::On(Work::Repeat(site, body)) => repeat(site, body, stacks),
        Progress::On(Work::RepeatWhile(site, body, condition)) => {
            repeat_while(site, body, condition, stacks)
        }
        Progress::On(Work::Enter(site, block)) => enter(site, block, stacks, state),
        Progress::On(Work::Declare(site, declarations, items, level)) => {
            declare(site, (declarations, items), level, stacks, state)
        }
        Progress::On(Work::Initialise(site, variables, k)) => {
            initialise(site, variables, k, stacks, state)
        }
        Progress::On(Work::Listing(site, items, entry)) => {
            listing(site, items, entry, stacks, state)
        }
        Progress::On(Work::Round(site, rounds)) => round(site, rounds, stacks, state),
        Progress::On(Work::Number(v)) => resume_with_number(table, v, stacks, state),
        Progress::On(Work::Verdict(t)) => give_verdict(table, t, stacks, state),
        Progress::On(Work::Left(exit)) => give_exit(table, exit, stacks, state),
        Progress::On(Work::Nothing) => give_nothing(table, stacks, state),
        Progress::Serve(_, _)
        | Progress::Answered
        | Progress::Ended(_)
        | Progress::Going
        | Progress::Wild(_) => give_nothing(table, stacks, state),
    }
}
