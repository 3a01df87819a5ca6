//! The arguments of calls: evaluating them, and gathering their values when the routine is called.

ghost use Rattle.std.specs.Prelude.{◌≡◌, ◌∷◌, ◌+◌, ◌<◌, cond, reverse, vec_len, IsTrue, OnOk, IfOk};
ghost use Rattle.bc_core.specs.View.{exp, args};
ghost use Rattle.bc_interpret_defs.specs.Machine as machine;
ghost use Rattle.bc_interpret_steps.specs.Code.{spot_of, given_for, stack, given, Gathered, TakesGiven, IsGiven, Taken};
ghost use Rattle.bc_interpret_steps.specs.Arrived.{Argued, ArguedLast, IsGivenOne, AreWorth, IsWorkedOut};
ghost use Rattle.bc_interpret_steps.specs.Came.{sight};
ghost use Rattle.bc_interpret_steps.specs.Stepped.{Proceeds};

use crate::continuations::{NumberRest, Rest, level_above, pop, push};
use crate::evaluate::{outcome_of_worth, worth_at};
use crate::forms::{Arguments, Ending, Progress, Site, Work};
use crate::state::{Stacks, State};
use bc_core::CoreExp;
use bc_interpret_pure::{Room, Worth};
use bc_word::Memory;

/// One step into the remaining arguments, and then into the routine's value. Pure ones are evaluated within this step.
///
/// `Memory` if an allocation fails.
pub(crate) fn evaluate_arguments<'c>(
    arguments: Arguments<'c>,
    stacks: &mut Stacks<'c>,
    state: &State,
) -> Result<(), Memory>
    ensures { Proceeds (Argued arguments.entry stacks.old.rests.items) stacks.old.rests state.now result stacks.new.next stacks.new.rests state.now }
{
    let mut now = arguments;
    while let [first, following @ ..] = now.left {
        let given = give_argument(now, first, following, stacks, state)?;
        match given {
            Given::One(next) => now = next,
            Given::Over => return Ok(()),
        }
    }
    Ok(argue_routine(now, stacks, state)?)
}

/// The outcome of an argument.
#[derive(Clone, Copy)]
enum Given<'c> {
    /// Its value is given, and these remain.
    One(Arguments<'c>),
    /// The step is over; its outcome is in `Stacks::next`.
    Over,
}

/// Evaluates the first remaining argument.
#[inline(always)]
#[tactic(auto, using(crate::proofs::Argues::of_an_argument))]
fn give_argument<'c>(
    arguments: Arguments<'c>,
    first: &'c CoreExp,
    following: &'c [CoreExp],
    stacks: &mut Stacks<'c>,
    state: &State,
) -> Result<Given<'c>, Memory>
    ensures { IfOk result (λ given.
        IsGivenOne arguments.entry first.now following.now stacks.old.rests.items state.now given stacks.new.next stacks.new.rests.items) }
{
    match worth_at(&arguments.site, first, &mut stacks.room, state)? {
        Some(Worth::Is(v)) => {
            push(Rest::Given(v, arguments.fresh), &mut stacks.rests)?;
            Ok(Given::One(Arguments {
                left: following,
                level: level_above(arguments.level, 1)?,
                fresh: false,
                ..arguments
            }))
        }
        Some(Worth::Divides) => {
            put_argues(arguments, following, &mut stacks.rests)?;
            stacks.next = Progress::Ended(Ending::ZeroDivide);
            Ok(Given::Over)
        }
        Some(Worth::Fails(cause)) => {
            put_argues(arguments, following, &mut stacks.rests)?;
            stacks.next = Progress::Wild(cause);
            Ok(Given::Over)
        }
        None => {
            put_argues(arguments, following, &mut stacks.rests)?;
            let site = Site {
                level: arguments.level,
                ..arguments.site
            };
            stacks.next = Progress::On(Work::Evaluate(site, first));
            Ok(Given::Over)
        }
    }
}

/// Pushes the continuation that takes the value of the first remaining argument. This is done even if the argument
/// fails: the trail of a run isn't changed by it.
fn put_argues<'c>(
    arguments: Arguments<'c>,
    following: &'c [CoreExp],
    rests: &mut Vec<Rest<'c>>,
) -> Result<(), Memory>
    ensures { OnOk result (stack rests.new.items ≡ machine.Argues (spot_of arguments.entry.site) (given_for arguments.entry.fresh (given rests.old.items))
        (args following.now) arguments.entry.level (exp arguments.entry.routine.now) arguments.entry.count arguments.entry.site.level ∷ stack
        rests.old.items) }
{
    push(
        Rest::Number(NumberRest::Argues(Arguments {
            left: following,
            ..arguments
        })),
        rests,
    )?;
    Ok(())
}

/// One step into the routine's value, once all arguments are given.
#[inline(always)]
#[tactic(auto, using(crate::proofs::Argues::last_valued, crate::proofs::Argues::last_calls))]
fn argue_routine<'c>(
    arguments: Arguments<'c>,
    stacks: &mut Stacks<'c>,
    state: &State,
) -> Result<(), Memory>
    ensures { Proceeds (ArguedLast arguments.entry stacks.old.rests.items) stacks.old.rests state.now result stacks.new.next stacks.new.rests state.now }
{
    let frame = level_above(arguments.site.frame, arguments.site.level)?;
    let level = level_above(level_above(arguments.site.level, 2)?, arguments.count)?;
    push(Rest::Calls(arguments.fresh, frame), &mut stacks.rests)?;
    match worth_at(&arguments.site, arguments.routine, &mut stacks.room, state)? {
        Some(worth) => {
            stacks.next = outcome_of_worth(worth);
            Ok(())
        }
        None => {
            let site = Site {
                level,
                ..arguments.site
            };
            stacks.next = Progress::On(Work::Evaluate(site, arguments.routine));
            Ok(())
        }
    }
}

/// The value of an argument, and whether it is the first one of its call; `None` for a continuation.
fn given_by(rest: &Rest<'_>) -> Option<(u16, bool)>
    ensures { IsGiven result rest.now }
{
    match rest {
        Rest::Given(v, first) => Some((*v, *first)),
        Rest::Number(_)
        | Rest::Value(_)
        | Rest::Calls(_, _)
        | Rest::Truth(_)
        | Rest::Nothing(_)
        | Rest::Exit(_)
        | Rest::Closes(_, _, _) => None,
    }
}

/// Pops the last argument onto `arguments`, if one is there. Returns whether the call has one before it.
#[inline(always)]
#[tactic(auto, using(crate::proofs::Gathers::none_there))]
fn take_given<'c>(rests: &mut Vec<Rest<'c>>, arguments: &mut Vec<u16>) -> Result<bool, Memory>
    ensures takes { IfOk result (λ more. TakesGiven more rests.old.items rests.new.items arguments.old.items arguments.new.items) }
    ensures fewer { IfOk result (λ more. vec_len rests.new + cond more 1 0 < vec_len rests.old + 1) }
{
    match rests.pop() {
        None => Ok(false),
        Some(rest) => match given_by(&rest) {
            Some((v, first)) => {
                arguments.push(v)?;
                Ok(!first)
            }
            None => {
                rests.push(rest)?;
                Ok(false)
            }
        },
    }
}

/// Pops the arguments of a call off the continuations, the last one first. There are none if the call is `fresh`.
fn gather<'c>(
    fresh: bool,
    rests: &mut Vec<Rest<'c>>,
    arguments: &mut Vec<u16>,
) -> Result<(), Memory>
    ensures { OnOk result (Gathered fresh rests.old.items rests.new.items arguments.new.items) }
{
    arguments.clear();
    let mut more = !fresh;
    while more {
        more = take_given(rests, arguments)?;
    }
    Ok(())
}

/// Evaluates pure arguments into `values`, the last one first. Returns whether all of them are pure and have a value.
#[inline(always)]
#[tactic(auto, using(crate::proofs::Direct::none_done, crate::proofs::Direct::one_done, crate::proofs::Direct::all_done))]
fn values_of<'c>(
    site: &Site<'c>,
    arguments: &'c [CoreExp],
    values: &mut Vec<u16>,
    room: &mut Room<'c>,
    state: &State,
) -> Result<bool, Memory>
    ensures { IfOk result (λ all. IsTrue all → AreWorth (sight state.now (spot_of site.now)) (args arguments.now) (reverse values.new.items)) }
{
    values.clear();
    let mut left = arguments;
    while let Some((last, before)) = left.split_last() {
        let found = worth_at(site, last, room, state)?;
        match found {
            Some(Worth::Is(v)) => values.push(v)?,
            _ => return Ok(false),
        }
        left = before;
    }
    Ok(true)
}

impl<'c> Stacks<'c> {
    /// The routine's value, if it and all arguments are pure and have a value; then `self.arguments` holds the values of the arguments,
    /// the last one first. Otherwise `None`.
    ///
    /// `Memory` if an allocation fails.
    #[inline(always)]
    pub(crate) fn evaluate_pure_call(
        &mut self,
        site: &Site<'c>,
        arguments: &'c [CoreExp],
        routine: &'c CoreExp,
        state: &State,
    ) -> Result<Option<u16>, Memory>
        ensures worked { IfOk result (λ found. IsWorkedOut (sight state.now (spot_of site.now)) (args arguments.now) (exp routine.now) found (reverse
            self.new.arguments.items)) }
        ensures rests { self.new.rests ≡ self.old.rests }
    {
        let all = values_of(site, arguments, &mut self.arguments, &mut self.room, state)?;
        if !all {
            return Ok(None);
        }
        let found = worth_at(site, routine, &mut self.room, state)?;
        match found {
            Some(Worth::Is(value)) => Ok(Some(value)),
            _ => Ok(None),
        }
    }

    /// Pops the arguments of a call off the continuations into `self.arguments`, the last one first. There are none if the call is
    /// `fresh`.
    ///
    /// `Memory` if an allocation fails.
    pub(crate) fn gather(&mut self, fresh: bool) -> Result<(), Memory>
        ensures { OnOk result (Gathered fresh self.old.rests.items self.new.rests.items self.new.arguments.items) }
    {
        gather(fresh, &mut self.rests, &mut self.arguments)
    }

    /// Pops the innermost continuation; `None` if there is none. Arguments that no call has taken are dropped.
    pub(crate) fn pop(&mut self) -> Option<Rest<'c>>
        ensures { Taken result self.old.rests.items self.new.rests.items }
    {
        pop(&mut self.rests)
    }
}
