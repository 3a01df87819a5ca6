//! One step into an expression: evaluates it if it is pure, else pushes a continuation and begins its first part. Each call returns
//! `Memory` if an allocation fails.

ghost use Rattle.std.specs.Prelude.{◌≡◌, ◌∷◌, IfOk};
ghost use Rattle.bc_core.specs.View.{exp, args};
ghost use Rattle.bc_core.specs.Tree as tree;
ghost use Rattle.bc_interpret_defs.specs.Machine as machine;
ghost use Rattle.bc_interpret_steps.specs.Code.{spot_of, number_rest, truth_rest, given};
ghost use Rattle.bc_interpret_pure.specs.Views.{IsWorth, IsTruth};
ghost use Rattle.bc_interpret_steps.specs.declared.state.State.{State as StateValue};
ghost use Rattle.bc_interpret_steps.specs.Came.{progress_of, progress_of_truth, sight};
ghost use Rattle.bc_interpret_steps.specs.Stepped.{Proceeds, ProceedsOrMalformed, ProceedsOn};

use crate::arguments::evaluate_arguments;
use crate::conditions::branch_next;
use crate::continuations::{ExitRest, NumberRest, Rest, TruthRest, level_above, push};
use crate::descend::selects;
use crate::forms::{Arguments, Ending, Progress, Site, Work};
use crate::state::{Stacks, State};
use bc_core::CoreExp;
use bc_interpret_pure::{Cause, Room, Sight, Truth, Worth, truth_of, worth_of};
use bc_word::{Memory, Op};

/// The worth of an expression, or `None` if it contains a call.
#[inline(always)]
pub(crate) fn worth_at<'c>(
    site: &Site<'c>,
    e: &'c CoreExp,
    room: &mut Room<'c>,
    state: &State,
) -> Result<Option<Worth>, Memory>
    ensures { IfOk result (λ found. IsWorth (sight state.now (spot_of site.now)) (exp e.now) found) }
{
    let sight = Sight {
        store: &state.store,
        addresses: site.section.addresses,
        frame: site.frame as usize,
    };
    let found = worth_of(&sight, e, room)?;
    Ok(found)
}

/// The truth of an expression, or `None` if it contains a call.
#[inline(always)]
pub(crate) fn truth_at<'c>(
    site: &Site<'c>,
    e: &'c CoreExp,
    room: &mut Room<'c>,
    state: &State,
) -> Result<Option<Truth>, Memory>
    ensures { IfOk result (λ found. IsTruth (sight state.now (spot_of site.now)) (exp e.now) found) }
{
    let sight = Sight {
        store: &state.store,
        addresses: site.section.addresses,
        frame: site.frame as usize,
    };
    let found = truth_of(&sight, e, room)?;
    Ok(found)
}

/// The outcome of a step that evaluates an expression with this worth.
#[inline(always)]
pub(crate) fn outcome_of_worth<'c>(worth: Worth) -> Progress<'c>
    ensures { result ≡ progress_of worth }
{
    match worth {
        Worth::Is(v) => Progress::On(Work::Number(v)),
        Worth::Divides => Progress::Ended(Ending::ZeroDivide),
        Worth::Fails(cause) => Progress::Wild(cause),
    }
}

/// The outcome of a step that decides an expression with this truth.
#[inline(always)]
pub(crate) fn verdict<'c>(truth: Truth) -> Progress<'c>
    ensures { result ≡ progress_of_truth truth }
{
    match truth {
        Truth::Is(t) => Progress::On(Work::Verdict(t)),
        Truth::Divides => Progress::Ended(Ending::ZeroDivide),
        Truth::Fails(cause) => Progress::Wild(cause),
    }
}

/// Begins to evaluate an expression; a pure one is evaluated within this step.
#[inline(always)]
#[tactic(auto, using(crate::proofs::Quiet::valued, crate::proofs::Quiet::value_parts))]
pub(crate) fn evaluate<'c>(
    site: Site<'c>,
    e: &'c CoreExp,
    stacks: &mut Stacks<'c>,
    state: &State,
) -> Result<(), Memory>
    ensures { ProceedsOrMalformed (machine.evaluate (spot_of site.entry) (exp e.now) site.entry.level) stacks.old.rests state.now result stacks.new.next
        stacks.new.rests state.now }
{
    match worth_at(&site, e, &mut stacks.room, state)? {
        Some(worth) => {
            stacks.next = outcome_of_worth(worth);
            Ok(())
        }
        None => evaluate_parts(site, e, stacks, state),
    }
}

/// Evaluates an operand next, and pushes the continuation that takes its value.
#[inline(always)]
fn part_of<'c>(
    rest: NumberRest<'c>,
    site: Site<'c>,
    part: &'c CoreExp,
    stacks: &mut Stacks<'c>,
) -> Result<(), Memory>
    ensures { (st : StateValue) → Proceeds (λ rs. machine.go (machine.Evaluate (spot_of site.entry) (exp part.now) site.entry.level) (number_rest (given
        stacks.old.rests.items) rest.entry ∷ rs)) stacks.old.rests st result stacks.new.next stacks.new.rests st }
{
    push(Rest::Number(rest), &mut stacks.rests)?;
    stacks.next = Progress::On(Work::Evaluate(site, part));
    Ok(())
}

/// Begins an operator with its first operand, which is one level higher.
#[inline(always)]
fn operator<'c>(
    site: Site<'c>,
    op: Op,
    operands: (&'c CoreExp, &'c CoreExp),
    stacks: &mut Stacks<'c>,
) -> Result<(), Memory>
    ensures { (st : StateValue) → Proceeds (machine.evaluate_parts (spot_of site.entry) (tree.Bin op (exp operands.entry.0.now) (exp operands.entry.1.now))
        site.entry.level) stacks.old.rests st result stacks.new.next stacks.new.rests st }
{
    let (left, right) = operands;
    let level = level_above(site.level, 1)?;
    part_of(
        NumberRest::Operates(site, op, right),
        Site { level, ..site },
        left,
        stacks,
    )
}

/// Begins to evaluate an expression that contains a call.
pub(crate) fn evaluate_parts<'c>(
    site: Site<'c>,
    e: &'c CoreExp,
    stacks: &mut Stacks<'c>,
    state: &State,
) -> Result<(), Memory>
    ensures { ProceedsOrMalformed (machine.evaluate_parts (spot_of site.entry) (exp e.now) site.entry.level) stacks.old.rests state.now result
        stacks.new.next stacks.new.rests state.now }
{
    match e {
        CoreExp::Num(_) | CoreExp::Frame(_) | CoreExp::Glob(_) | CoreExp::Place(_) => {
            stacks.next = Progress::Wild(Cause::Malformed);
            Ok(())
        }
        CoreExp::Load(part) => part_of(NumberRest::Loads, site, part, stacks),
        CoreExp::Neg(part) => part_of(NumberRest::Negates, site, part, stacks),
        CoreExp::Not(part) => part_of(NumberRest::Complements, site, part, stacks),
        CoreExp::Bin(op, left, right) => operator(site, *op, (left, right), stacks),
        CoreExp::Cond(condition, this, that) => choice(
            site,
            condition,
            (this, that),
            stacks,
            state,
        ),
        CoreExp::Call(arguments, routine) => call(site, arguments, routine, stacks, state),
        CoreExp::Valof(number) => valof(site, *number as u32, stacks),
    }
}

/// Begins a call with its arguments.
pub(crate) fn call<'c>(
    site: Site<'c>,
    arguments: &'c [CoreExp],
    routine: &'c CoreExp,
    stacks: &mut Stacks<'c>,
    state: &State,
) -> Result<(), Memory>
    ensures { Proceeds (machine.evaluate_parts (spot_of site.entry) (tree.Call (args arguments.now) (exp routine.now)) site.entry.level) stacks.old.rests
        state.now result stacks.new.next stacks.new.rests state.now }
{
    let level = level_above(site.level, 2)?;
    let begun = Arguments {
        site,
        left: arguments,
        level,
        routine,
        count: u32::try_from(arguments.len()).map_err(|_| Memory)?,
        fresh: true,
    };
    Ok(evaluate_arguments(begun, stacks, state)?)
}

/// Begins to evaluate a conditional expression that contains a call.
#[tactic(auto, using(crate::proofs::Quiet::of_a_choice))]
fn choice<'c>(
    site: Site<'c>,
    condition: &'c CoreExp,
    branches: (&'c CoreExp, &'c CoreExp),
    stacks: &mut Stacks<'c>,
    state: &State,
) -> Result<(), Memory>
    ensures { Proceeds (machine.evaluate_parts (spot_of site.entry) (tree.Cond (exp condition.now) (exp branches.entry.0.now) (exp branches.entry.1.now))
        site.entry.level) stacks.old.rests state.now result stacks.new.next stacks.new.rests state.now }
{
    match truth_at(&site, condition, &mut stacks.room, state)? {
        Some(Truth::Is(t)) => {
            stacks.next = branch_next(t, site, branches);
            Ok(())
        }
        Some(Truth::Divides) => {
            stacks.next = Progress::Ended(Ending::ZeroDivide);
            Ok(())
        }
        Some(Truth::Fails(cause)) => {
            stacks.next = Progress::Wild(cause);
            Ok(())
        }
        None => selects(site, condition, branches, stacks),
    }
}

/// Begins the body of the VALOF with this number. It is wild (`Malformed`) if this part has no such VALOF.
fn valof<'c>(site: Site<'c>, number: u32, stacks: &mut Stacks<'c>) -> Result<(), Memory>
    ensures { (st : StateValue) → ProceedsOrMalformed (machine.evaluate_parts (spot_of site.entry) (tree.Valof number) site.entry.level) stacks.old.rests st
        result stacks.new.next stacks.new.rests st }
{
    if number < site.first {
        stacks.next = Progress::Wild(Cause::Malformed);
        return Ok(());
    }
    let index = number as usize;
    if index >= site.section.valofs.len() {
        stacks.next = Progress::Wild(Cause::Malformed);
        return Ok(());
    }
    let body = &site.section.valofs[index].body;
    let within = Site {
        section: site.section,
        first: level_above(number, 1)?,
        frame: site.frame,
        level: site.level,
    };
    push(Rest::Exit(ExitRest::Results(number)), &mut stacks.rests)?;
    stacks.next = Progress::On(Work::Enter(within, body));
    Ok(())
}

/// Begins to decide an expression; a pure one is decided within this step.
#[inline(always)]
#[tactic(auto, using(crate::proofs::Quiet::judged, crate::proofs::Quiet::truth_parts))]
pub(crate) fn decide<'c>(
    site: Site<'c>,
    e: &'c CoreExp,
    stacks: &mut Stacks<'c>,
    state: &State,
) -> Result<(), Memory>
    ensures { Proceeds (machine.decide (spot_of site.entry) (exp e.now) site.entry.level) stacks.old.rests state.now result stacks.new.next stacks.new.rests
        state.now }
{
    match truth_at(&site, e, &mut stacks.room, state)? {
        Some(truth) => {
            stacks.next = verdict(truth);
            Ok(())
        }
        None => decide_parts(site, e, stacks),
    }
}

/// Decides an operand next, and pushes the continuation that takes its truth.
#[inline(always)]
pub(crate) fn decide_part<'c>(
    rest: TruthRest<'c>,
    site: Site<'c>,
    part: &'c CoreExp,
    stacks: &mut Stacks<'c>,
) -> Result<(), Memory>
    ensures { (st : StateValue) → ProceedsOn (λ rs. machine.go (machine.Decide (spot_of site.entry) (exp part.now) site.entry.level) (truth_rest rest.entry ∷
        rs)) stacks.old.rests st result stacks.new.next stacks.new.rests st }
{
    push(Rest::Truth(rest), &mut stacks.rests)?;
    stacks.next = Progress::On(Work::Decide(site, part));
    Ok(())
}

/// Begins to decide an expression that contains a call.
fn decide_parts<'c>(site: Site<'c>, e: &'c CoreExp, stacks: &mut Stacks<'c>) -> Result<(), Memory>
    ensures { (st : StateValue) → Proceeds (machine.decide_parts (spot_of site.entry) (exp e.now) site.entry.level) stacks.old.rests st result
        stacks.new.next stacks.new.rests st }
{
    match e {
        CoreExp::Not(part) => decide_part(TruthRest::Opposes, site, part, stacks),
        CoreExp::Bin(Op::And, left, right) => {
            push(
                Rest::Truth(TruthRest::Conjoins(site, right)),
                &mut stacks.rests,
            )?;
            let level = level_above(site.level, 1)?;
            stacks.next = Progress::On(Work::Decide(Site { level, ..site }, left));
            Ok(())
        }
        CoreExp::Bin(Op::Or, left, right) => {
            push(
                Rest::Truth(TruthRest::Disjoins(site, right)),
                &mut stacks.rests,
            )?;
            let level = level_above(site.level, 1)?;
            stacks.next = Progress::On(Work::Decide(Site { level, ..site }, left));
            Ok(())
        }
        CoreExp::Bin(_, _, _)
        | CoreExp::Num(_)
        | CoreExp::Frame(_)
        | CoreExp::Glob(_)
        | CoreExp::Place(_)
        | CoreExp::Load(_)
        | CoreExp::Neg(_)
        | CoreExp::Cond(_, _, _)
        | CoreExp::Call(_, _)
        | CoreExp::Valof(_) => {
            push(Rest::Number(NumberRest::Tests), &mut stacks.rests)?;
            stacks.next = Progress::On(Work::Evaluate(site, e));
            Ok(())
        }
    }
}
