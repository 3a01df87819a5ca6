//! Giving a truth to a continuation.

ghost use Rattle.std.specs.Prelude.{◌≡◌};
ghost use Rattle.bc_core.specs.Loop.{agrees as agrees_with};
ghost use Rattle.bc_core.specs.View.{exp, block_of};
ghost use Rattle.bc_interpret_defs.specs.Machine as machine;
ghost use Rattle.bc_interpret_steps.specs.declared.state.State.{State as StateValue};
ghost use Rattle.bc_interpret_steps.specs.Code.{truth_rest, spot_of};
ghost use Rattle.bc_interpret_steps.specs.Stepped.{Takes, Gives};

use crate::commands::{enter_either, enter_if, enter_while};
use crate::continuations::{TruthRest, level_above};
use crate::forms::{Exit, Progress, Site, Work};
use crate::state::{Stacks, State, turn};
use bc_core::{Block, Condition, CoreExp};
use bc_word::Memory;

/// Whether a condition holds: its test must have this truth if `sense` is true, and the opposite truth if not.
#[inline(always)]
pub(crate) fn agrees(sense: bool, truth: bool) -> bool
    ensures { result ≡ agrees_with sense truth }
{
    if sense { truth } else { !truth }
}

/// Gives `&` the truth of its first operand: decides the second one if it is true, else the conjunction is false.
#[inline(always)]
fn conjoins<'c>(
    t: bool,
    site: Site<'c>,
    e: &'c CoreExp,
    stacks: &mut Stacks<'c>,
) -> Result<(), Memory>
    ensures { (st : StateValue) → Takes (machine.Conjoins (spot_of site.entry) (exp e.now) site.entry.level) (machine.Verdict t) stacks.old.rests st result
        stacks.new.next stacks.new.rests st }
{
    if t {
        let level = level_above(site.level, 1)?;
        stacks.next = Progress::On(Work::Decide(Site { level, ..site }, e));
        return Ok(());
    }
    stacks.next = Progress::On(Work::Verdict(false));
    Ok(())
}

/// Gives `|` the truth of its first operand: decides the second one if it is false, else the disjunction is true.
#[inline(always)]
fn disjoins<'c>(
    t: bool,
    site: Site<'c>,
    e: &'c CoreExp,
    stacks: &mut Stacks<'c>,
) -> Result<(), Memory>
    ensures { (st : StateValue) → Takes (machine.Disjoins (spot_of site.entry) (exp e.now) site.entry.level) (machine.Verdict t) stacks.old.rests st result
        stacks.new.next stacks.new.rests st }
{
    if t {
        stacks.next = Progress::On(Work::Verdict(true));
        return Ok(());
    }
    let level = level_above(site.level, 1)?;
    stacks.next = Progress::On(Work::Decide(Site { level, ..site }, e));
    Ok(())
}

/// Gives a conditional expression the truth of its condition: evaluates one of its branches next.
#[inline(always)]
pub(crate) fn branch_next<'c>(
    t: bool,
    site: Site<'c>,
    branches: (&'c CoreExp, &'c CoreExp),
) -> Progress<'c>
    ensures { (st : StateValue) → Gives (machine.Selects (spot_of site.entry) (exp branches.entry.0.now) (exp branches.entry.1.now) site.entry.level)
        (machine.Verdict t) st result st }
{
    let (this, that) = branches;
    if t {
        Progress::On(Work::Evaluate(site, this))
    } else {
        Progress::On(Work::Evaluate(site, that))
    }
}

/// Gives a REPEATWHILE or REPEATUNTIL the truth of its test: repeats it, which takes a turn, or leaves it.
#[inline(always)]
fn repeats<'c>(
    t: bool,
    site: Site<'c>,
    parts: (&'c Block, &'c Condition),
    state: &mut State,
) -> Progress<'c>
    ensures { Gives (machine.RepeatWhiles (spot_of site.entry) (block_of parts.entry.0.now) parts.entry.1.now.sense (exp parts.entry.1.now.test)
        site.entry.level) (machine.Verdict t) state.old result state.new }
{
    let (body, condition) = parts;
    if !agrees(condition.sense, t) {
        return Progress::On(Work::Left(Exit::Past));
    }
    if !turn(state) {
        return Progress::Going;
    }
    Progress::On(Work::RepeatWhile(site, body, condition))
}

/// Gives a truth to this continuation, which was popped.
///
/// `Memory` if an allocation fails.
pub(crate) fn truth_taken<'c>(
    rest: &TruthRest<'c>,
    t: bool,
    stacks: &mut Stacks<'c>,
    state: &mut State,
) -> Result<(), Memory>
    ensures { Takes (truth_rest rest.now) (machine.Verdict t) stacks.old.rests state.old result stacks.new.next stacks.new.rests state.new }
{
    match rest {
        TruthRest::Opposes => {
            stacks.next = Progress::On(Work::Verdict(!t));
            Ok(())
        }
        TruthRest::Conjoins(site, e) => conjoins(t, *site, e, stacks),
        TruthRest::Disjoins(site, e) => disjoins(t, *site, e, stacks),
        TruthRest::Selects(site, this, that) => {
            stacks.next = branch_next(t, *site, (this, that));
            Ok(())
        }
        TruthRest::Ifs(site, sense, body) => {
            let holds = agrees(*sense, t);
            enter_if(holds, *site, body, stacks, state)
        }
        TruthRest::Chooses(site, this, that) => {
            enter_either(t, *site, (this, that), stacks, state)
        }
        TruthRest::Whiles(site, condition, body) => {
            let holds = agrees(condition.sense, t);
            enter_while(holds, *site, (condition, body), stacks, state)
        }
        TruthRest::RepeatWhiles(site, body, condition) => {
            stacks.next = repeats(t, *site, (body, condition), state);
            Ok(())
        }
    }
}
