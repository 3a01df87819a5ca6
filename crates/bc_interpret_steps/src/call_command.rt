//! Performing a command; if it is a call, the routine is entered in the same step where that is possible.

ghost use Rattle.bc_core.specs.Commands as commands;
ghost use Rattle.bc_core.specs.View.{exp, command as command_view};
ghost use Rattle.bc_interpret_defs.specs.Machine as machine;
ghost use Rattle.bc_interpret_steps.specs.Code.{spot_of};
ghost use Rattle.bc_interpret_steps.specs.Passing.{RunsOver};

use crate::commands::perform;
use crate::continuations::{Rest, ValueRest, push};
use crate::descend::begin_other;
use crate::forms::Site;
use crate::sections::Callable;
use crate::state::{Stacks, State};
use bc_core::{Command, CoreExp};
use bc_word::Memory;

/// Performs a command that is a call. Enters the routine at once if the arguments are pure.
#[inline(never)]
fn perform_call<'c>(
    table: &[Callable<'c>],
    site: Site<'c>,
    call: &'c CoreExp,
    stacks: &mut Stacks<'c>,
    state: &mut State,
) -> Result<(), Memory>
    ensures { RunsOver table.now (machine.Perform (spot_of site.entry) (commands.Call (exp call.now)) site.entry.level) stacks.old.rests state.old result
        stacks.new.next stacks.new.rests state.new }
{
    push(Rest::Value(ValueRest::Drops), &mut stacks.rests)?;
    begin_other(table, site, call, stacks, state)
}

/// Performs a command, and enters the routine that it calls.
///
/// `Memory` if an allocation fails.
pub(crate) fn begin_command<'c>(
    table: &[Callable<'c>],
    site: Site<'c>,
    command: &'c Command,
    stacks: &mut Stacks<'c>,
    state: &mut State,
) -> Result<(), Memory>
    ensures { RunsOver table.now (machine.Perform (spot_of site.entry) (command_view command.now) site.entry.level) stacks.old.rests state.old result
        stacks.new.next stacks.new.rests state.new }
{
    match command {
        Command::Call(call) => perform_call(table, site, call, stacks, state),
        Command::Assign { .. }
        | Command::If(_, _)
        | Command::Test(_, _, _)
        | Command::While(_, _)
        | Command::Repeat(_)
        | Command::RepeatWhile(_, _)
        | Command::For { .. }
        | Command::SwitchOn(_, _)
        | Command::Break
        | Command::Loop
        | Command::EndCase
        | Command::Return
        | Command::ResultIs(_)
        | Command::Finish
        | Command::Goto(_)
        | Command::Nested(_) => perform(site, command, stacks, state),
    }
}
