//! Giving an exit to a continuation: what happens when control leaves a command. Also resuming the continuations that follow an
//! assignment or an initialiser.

ghost use Rattle.std.specs.Prelude.{ℕ, List};
ghost use Rattle.bc_core.specs.Exit.{Past};
ghost use Rattle.bc_core.specs.Outcome.{in_turn};
ghost use Rattle.bc_core.specs.View.{exp, items as items_view, block_of};
ghost use Rattle.bc_interpret_defs.specs.Machine as machine;
ghost use Rattle.bc_interpret_defs.specs.Trails.{trail_in};
ghost use Rattle.bc_interpret_steps.specs.declared.state.State.{State as StateValue};
ghost use Rattle.bc_interpret_steps.specs.Code.{spot_of, exit_of, exit_rest, nothing_rest, work_of, stack};
ghost use Rattle.bc_interpret_steps.specs.Passing.{IsHandedOn, IsLeft, IsPassed, PassesOn};
ghost use Rattle.bc_interpret_steps.specs.Came.{IsAfter, IsAfterCases, CameOrMalformed};
ghost use Rattle.bc_interpret_steps.specs.Stepped.{Takes, TakesOrMalformed, GivesOrMalformed, GivesIfOk};

use crate::continuations::{ExitRest, NothingRest, Rest, TruthRest, ValueRest, level_above, push};
use crate::forms::{Entry, Exit, Progress, Rounds, Site, Work};
use crate::lists::has_label;
use crate::state::{Stacks, State, put_word, turn};
use bc_core::{Block, Condition, CoreExp, ListItem};
use bc_interpret_pure::{Cause, cell_of};
use bc_interpret_store::Cell;
use bc_word::Memory;

/// What an exit from a loop's body does: `None` if the loop goes on, else how control leaves the loop.
#[inline(always)]
fn following(exit: Exit) -> Option<Exit>
    ensures { IsAfter result (exit_of exit) }
{
    match exit {
        Exit::Past | Exit::Looped => None,
        Exit::Broke => Some(Exit::Past),
        Exit::LeftCases => Some(Exit::LeftCases),
        Exit::Returned => Some(Exit::Returned),
        Exit::Resulted(v) => Some(Exit::Resulted(v)),
        Exit::Jumped(l) => Some(Exit::Jumped(l)),
    }
}

/// Continues a FOR after its body: steps its variable and takes a turn.
///
/// `Memory` never comes.
#[tactic(auto, using(crate::proofs::Loops::stepped_dead, crate::proofs::Loops::stepped_unset, crate::proofs::Loops::stepped_by_dead, crate::proofs::Loops::stepped_by_unset))]
fn step_variable<'c>(
    site: Site<'c>,
    rounds: Rounds<'c>,
    state: &mut State,
) -> Result<Progress<'c>, Memory>
    ensures { GivesIfOk (machine.ForBody (spot_of site.entry) rounds.entry.limit rounds.entry.by (block_of rounds.entry.body.now) site.entry.level)
        (machine.Left Past) state.old result state.new }
{
    let address = cell_of(site.frame as usize, site.level as usize)?;
    let value = match state.store.at(address) {
        Cell::Dead => return Ok(Progress::Wild(Cause::Dead(address))),
        Cell::Unset => return Ok(Progress::Wild(Cause::Unset(address))),
        Cell::Set(word) => word,
    };
    if let Some(cause) = put_word(state, address, value.wrapping_add(rounds.by)) {
        return Ok(Progress::Wild(cause));
    }
    if !turn(state) {
        return Ok(Progress::Going);
    }
    Ok(Progress::On(Work::Round(site, rounds)))
}

/// Whether nothing more is done in a list: control leaves a command with this exit, and these items follow it.
#[inline(always)]
fn is_left(items: &[ListItem], exit: Exit) -> bool
    ensures { IsLeft (items_view items.now) (exit_of exit) result }
{
    match exit {
        Exit::Past => match items {
            [] => true,
            [_, ..] => false,
        },
        Exit::Broke
        | Exit::Looped
        | Exit::LeftCases
        | Exit::Returned
        | Exit::Resulted(_)
        | Exit::Jumped(_) => true,
    }
}

/// The exit that a continuation passes on without doing anything; `None` if it does something. These do nothing: the continuation after
/// a command, if no item follows or control doesn't go on there; that of a whole list, unless it is left by a jump; that of a
/// SWITCHON; and that of the first branch of a TEST.
#[inline(always)]
fn exit_passed_on(rest: &ExitRest<'_>, exit: Exit) -> Option<Exit>
    ensures { IsHandedOn (exit_of exit) rest.now result }
{
    match rest {
        ExitRest::Follows(_, items) => {
            if is_left(items, exit) {
                Some(exit)
            } else {
                None
            }
        }
        ExitRest::Listed(_, _) => match exit {
            Exit::Jumped(_) => None,
            Exit::Past
            | Exit::Broke
            | Exit::Looped
            | Exit::LeftCases
            | Exit::Returned
            | Exit::Resulted(_) => Some(exit),
        },
        ExitRest::Skips(_) => Some(exit),
        ExitRest::Cases => Some(after_cases(exit)),
        ExitRest::Returns
        | ExitRest::Results(_)
        | ExitRest::WhileBody(_, _, _)
        | ExitRest::RepeatBody(_, _)
        | ExitRest::RepeatWhileBody(_, _, _)
        | ExitRest::ForBody(_, _) => None,
    }
}

/// The exit that the innermost continuation passes on without doing anything; `None` if it does something.
#[inline(always)]
fn passed(exit: Exit, rests: &[Rest<'_>]) -> Option<Exit>
    ensures { IsPassed (exit_of exit) rests.now result }
{
    match rests.last() {
        Some(Rest::Exit(rest)) => exit_passed_on(rest, exit),
        _ => None,
    }
}

/// Pops the continuations that only pass an exit on, and returns the exit that the last of them passes on.
#[inline(always)]
fn pass<'c>(exit: Exit, rests: &mut Vec<Rest<'c>>) -> Exit
    ensures { PassesOn (exit_of exit) (stack rests.old.items) (exit_of result) (stack rests.new.items) }
{
    let mut now = exit;
    while let Some(out) = passed(now, rests.as_slice()) {
        let _gone = rests.pop();
        now = out;
    }
    now
}

impl<'c> Stacks<'c> {
    /// Pops the continuations that only pass an exit on, and returns the exit that the last of them passes on.
    #[inline(always)]
    pub(crate) fn pass(&mut self, exit: Exit) -> Exit
        ensures { PassesOn (exit_of exit) (stack self.old.rests.items) (exit_of result) (stack self.new.rests.items) }
    {
        pass(exit, &mut self.rests)
    }
}

/// Gives an exit to this continuation, which was popped.
///
/// `Memory` if an allocation fails.
pub(crate) fn exit_taken<'c>(
    rest: &ExitRest<'c>,
    exit: Exit,
    stacks: &mut Stacks<'c>,
    state: &mut State,
) -> Result<(), Memory>
    ensures { TakesOrMalformed (exit_rest rest.now) (machine.Left (exit_of exit)) stacks.old.rests state.old result stacks.new.next stacks.new.rests state.new }
{
    match rest {
        ExitRest::Returns => {
            stacks.next = returned(exit);
            Ok(())
        }
        ExitRest::Results(_) => {
            stacks.next = resulted(exit);
            Ok(())
        }
        ExitRest::Skips(_) => {
            stacks.next = Progress::On(Work::Left(exit));
            Ok(())
        }
        ExitRest::WhileBody(site, condition, body) => {
            stacks.next = loop_on(exit, Work::While(*site, condition, body), state);
            Ok(())
        }
        ExitRest::RepeatBody(site, body) => {
            stacks.next = loop_on(exit, Work::Repeat(*site, body), state);
            Ok(())
        }
        ExitRest::RepeatWhileBody(site, body, condition) => {
            decide_on(*site, body, condition, exit, stacks)
        }
        ExitRest::ForBody(site, rounds) => step_on(*site, *rounds, exit, stacks, state),
        ExitRest::Cases => {
            stacks.next = Progress::On(Work::Left(after_cases(exit)));
            Ok(())
        }
        ExitRest::Follows(site, items) => {
            stacks.next = follow(*site, items, exit);
            Ok(())
        }
        ExitRest::Listed(site, items) => list_left(*site, items, exit, stacks),
    }
}

/// Continues a WHILE or REPEAT after its body with the work `again`, which takes a turn, or leaves the loop.
#[inline(always)]
fn loop_on<'c>(exit: Exit, again: Work<'c>, state: &mut State) -> Progress<'c>
    ensures { (rs : List machine.Rest) (vs : List ℕ) → CameOrMalformed (trail_in rs) (machine.following (in_turn (machine.go (work_of vs again.entry) rs))
        (exit_of exit) rs) state.old result rs vs state.new }
{
    match following(exit) {
        Some(left) => Progress::On(Work::Left(left)),
        None => {
            if !turn(state) {
                return Progress::Going;
            }
            Progress::On(again)
        }
    }
}

/// Continues a REPEATWHILE or REPEATUNTIL after its body with its condition, or leaves the loop.
#[inline(always)]
fn decide_on<'c>(
    site: Site<'c>,
    body: &'c Block,
    condition: &'c Condition,
    exit: Exit,
    stacks: &mut Stacks<'c>,
) -> Result<(), Memory>
    ensures { (st : StateValue) → TakesOrMalformed (machine.RepeatWhileBody (spot_of site.entry) (block_of body.now) condition.now.sense (exp
        condition.now.test) site.entry.level) (machine.Left (exit_of exit)) stacks.old.rests st result stacks.new.next stacks.new.rests st }
{
    match following(exit) {
        Some(left) => {
            stacks.next = Progress::On(Work::Left(left));
            Ok(())
        }
        None => {
            push(
                Rest::Truth(TruthRest::RepeatWhiles(site, body, condition)),
                &mut stacks.rests,
            )?;
            stacks.next = Progress::On(Work::Decide(site, &condition.test));
            Ok(())
        }
    }
}

/// Continues a FOR after its body by stepping its variable, or leaves the loop.
#[inline(always)]
fn step_on<'c>(
    site: Site<'c>,
    rounds: Rounds<'c>,
    exit: Exit,
    stacks: &mut Stacks<'c>,
    state: &mut State,
) -> Result<(), Memory>
    ensures { TakesOrMalformed (machine.ForBody (spot_of site.entry) rounds.entry.limit rounds.entry.by (block_of rounds.entry.body.now) site.entry.level)
        (machine.Left (exit_of exit)) stacks.old.rests state.old result stacks.new.next stacks.new.rests state.new }
{
    match following(exit) {
        Some(left) => {
            stacks.next = Progress::On(Work::Left(left));
            Ok(())
        }
        None => {
            stacks.next = step_variable(site, rounds, state)?;
            Ok(())
        }
    }
}

/// Continues a list after a command if control goes on after it, else passes the exit on.
#[inline(always)]
fn follow<'c>(site: Site<'c>, items: &'c [ListItem], exit: Exit) -> Progress<'c>
    ensures { (st : StateValue) → GivesOrMalformed (machine.Follows (spot_of site.entry) (items_view items.now) site.entry.level) (machine.Left (exit_of
        exit)) st result st }
{
    match exit {
        Exit::Past => Progress::On(Work::Listing(site, items, Entry::Beginning)),
        Exit::Broke
        | Exit::Looped
        | Exit::LeftCases
        | Exit::Returned
        | Exit::Resulted(_)
        | Exit::Jumped(_) => Progress::On(Work::Left(exit)),
    }
}

/// Leaves a whole list; a jump to one of its labels enters it again.
#[inline(always)]
fn list_left<'c>(
    site: Site<'c>,
    items: &'c [ListItem],
    exit: Exit,
    stacks: &mut Stacks<'c>,
) -> Result<(), Memory>
    ensures { (st : StateValue) → TakesOrMalformed (machine.Listed (spot_of site.entry) (items_view items.now) site.entry.level) (machine.Left (exit_of
        exit)) stacks.old.rests st result stacks.new.next stacks.new.rests st }
{
    match exit {
        Exit::Jumped(label) => {
            if has_label(items, label) {
                push(Rest::Exit(ExitRest::Listed(site, items)), &mut stacks.rests)?;
                stacks.next = Progress::On(Work::Listing(site, items, Entry::AtLabel(label)));
                return Ok(());
            }
            stacks.next = Progress::On(Work::Left(exit));
            Ok(())
        }
        Exit::Past
        | Exit::Broke
        | Exit::Looped
        | Exit::LeftCases
        | Exit::Returned
        | Exit::Resulted(_) => {
            stacks.next = Progress::On(Work::Left(exit));
            Ok(())
        }
    }
}

/// Returns from a routine whose body is a command, with 0 as its value. An exit other than `Past` and `Returned` is wild.
fn returned<'c>(exit: Exit) -> Progress<'c>
    ensures { (st : StateValue) → GivesOrMalformed machine.Returns (machine.Left (exit_of exit)) st result st }
{
    match exit {
        Exit::Past | Exit::Returned => Progress::On(Work::Number(0)),
        Exit::Broke | Exit::Looped | Exit::LeftCases | Exit::Resulted(_) | Exit::Jumped(_) =>
            Progress::Wild(Cause::Malformed),
    }
}

/// Returns the value of a VALOF: that of RESULTIS, or 0 if control reaches the end of its body. Other exits are wild.
fn resulted<'c>(exit: Exit) -> Progress<'c>
    ensures { (n : ℕ) (st : StateValue) → GivesOrMalformed (machine.Results n) (machine.Left (exit_of exit)) st result st }
{
    match exit {
        Exit::Past => Progress::On(Work::Number(0)),
        Exit::Resulted(v) => Progress::On(Work::Number(v)),
        Exit::Broke | Exit::Looped | Exit::LeftCases | Exit::Returned | Exit::Jumped(_) =>
            Progress::Wild(Cause::Malformed),
    }
}

/// How control leaves a SWITCHON, given how it leaves its list.
fn after_cases(exit: Exit) -> Exit
    ensures { IsAfterCases (exit_of result) (exit_of exit) }
{
    match exit {
        Exit::LeftCases => Exit::Past,
        Exit::Past
        | Exit::Broke
        | Exit::Looped
        | Exit::Returned
        | Exit::Resulted(_)
        | Exit::Jumped(_) => exit,
    }
}

/// Evaluates the limit of a FOR, whose variable has been set. `turns` has the step and the body.
#[inline(always)]
fn limits<'c>(
    site: Site<'c>,
    limit: &'c CoreExp,
    turns: (u16, &'c Block),
    stacks: &mut Stacks<'c>,
) -> Result<(), Memory>
    ensures { (st : StateValue) → Takes (machine.Limits (spot_of site.entry) (exp limit.now) turns.entry.0 (block_of turns.entry.1.now) site.entry.level)
        machine.Nothing stacks.old.rests st result stacks.new.next stacks.new.rests st }
{
    let (by, body) = turns;
    let level = level_above(site.level, 2)?;
    push(
        Rest::Value(ValueRest::Fors(site, by, body)),
        &mut stacks.rests,
    )?;
    stacks.next = Progress::On(Work::Evaluate(Site { level, ..site }, limit));
    Ok(())
}

/// Resumes this continuation, which was popped, after an assignment or an initialiser.
///
/// `Memory` if an allocation fails.
pub(crate) fn nothing_taken<'c>(
    rest: &NothingRest<'c>,
    stacks: &mut Stacks<'c>,
) -> Result<(), Memory>
    ensures { (st : StateValue) → Takes (nothing_rest rest.now) machine.Nothing stacks.old.rests st result stacks.new.next stacks.new.rests st }
{
    match rest {
        NothingRest::Passes => {
            stacks.next = Progress::On(Work::Left(Exit::Past));
            Ok(())
        }
        NothingRest::Limits(site, limit, by, body) => { limits(*site, limit, (*by, body), stacks) }
        NothingRest::Declares(site, declarations, items, level) => {
            stacks.next = Progress::On(Work::Declare(*site, declarations, items, *level));
            Ok(())
        }
        NothingRest::Initialises(site, variables, k) => {
            stacks.next = Progress::On(Work::Initialise(*site, variables, *k));
            Ok(())
        }
    }
}
