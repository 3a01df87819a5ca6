//! Pure assignments: both sides contain no call and no VALOF. They are performed within one step.

ghost use Rattle.std.specs.Prelude.{ℕ, IfOk};
ghost use Rattle.bc_core.specs.View.{exp, command as command_view};
ghost use Rattle.bc_interpret_steps.specs.Code.{spot_of};
ghost use Rattle.bc_interpret_pure.specs.Views.{seen};
ghost use Rattle.bc_interpret_steps.specs.Assigns.{BothWorth, IsAssigned, IsDone};

use crate::evaluate::worth_at;
use crate::forms::Site;
use crate::state::{State, put_word};
use bc_core::{Command, CoreExp};
use bc_interpret_pure::{Cause, Room, Worth};
use bc_word::Memory;

/// The outcome of a pure assignment.
#[derive(Clone, Copy)]
pub(crate) enum Assigned {
    /// The word was written.
    Done,
    /// A zero divisor ended it, and no wild access was met.
    Divides,
    /// It met a wild access.
    Fails(Cause),
}

/// Assigns, given the worths of the value and of the address.
#[inline(always)]
fn both_assigned(word: Worth, place: Worth, state: &mut State) -> Assigned
    ensures { BothWorth (seen word) (seen place) state.old result state.new }
{
    match word {
        Worth::Fails(cause) => Assigned::Fails(cause),
        Worth::Divides => match place {
            Worth::Fails(cause) => Assigned::Fails(cause),
            Worth::Is(_) | Worth::Divides => Assigned::Divides,
        },
        Worth::Is(w) => match place {
            Worth::Fails(cause) => Assigned::Fails(cause),
            Worth::Divides => Assigned::Divides,
            Worth::Is(a) => match put_word(state, a, w) {
                None => Assigned::Done,
                Some(cause) => Assigned::Fails(cause),
            },
        },
    }
}

/// Performs an assignment if it is pure, else returns `None` and changes nothing. A wild access in the address takes precedence over a
/// zero divisor in the value.
///
/// `Memory` if an allocation fails.
#[inline(always)]
#[tactic(auto, using(crate::proofs::Assigns::at_once))]
pub(crate) fn assign_at_once<'c>(
    site: &Site<'c>,
    value: &'c CoreExp,
    address: &'c CoreExp,
    room: &mut Room<'c>,
    state: &mut State,
) -> Result<Option<Assigned>, Memory>
    ensures { IfOk result (λ done. IsAssigned (spot_of site.now) (exp value.now) (exp address.now) state.old done state.new) }
{
    match worth_at(site, value, room, state)? {
        None => Ok(None),
        Some(word) => match worth_at(site, address, room, state)? {
            None => Ok(None),
            Some(place) => Ok(Some(both_assigned(word, place, state))),
        },
    }
}

/// Performs a command if it is a pure assignment, else returns `None` and changes nothing.
///
/// `Memory` if an allocation fails.
#[inline(always)]
#[tactic(auto, using(crate::proofs::Assigns::first_done, crate::proofs::Assigns::first_tells, crate::proofs::Assigns::first_left))]
pub(crate) fn command_at_once<'c>(
    site: &Site<'c>,
    command: &'c Command,
    room: &mut Room<'c>,
    state: &mut State,
) -> Result<Option<Assigned>, Memory>
    ensures { IfOk result (λ done. IsDone (spot_of site.now) (command_view command.now) state.old done state.new) }
{
    match command {
        Command::Assign { value, address } => {
            Ok(assign_at_once(site, value, address, room, state)?)
        }
        Command::Call(_)
        | Command::If(_, _)
        | Command::Test(_, _, _)
        | Command::While(_, _)
        | Command::Repeat(_)
        | Command::RepeatWhile(_, _)
        | Command::For { .. }
        | Command::SwitchOn(_, _)
        | Command::Break
        | Command::Loop
        | Command::EndCase
        | Command::Return
        | Command::ResultIs(_)
        | Command::Finish
        | Command::Goto(_)
        | Command::Nested(_) => Ok(None),
    }
}
