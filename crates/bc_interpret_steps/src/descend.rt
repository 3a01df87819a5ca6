//! Evaluating an expression further than one step of the definition's machine leads.

ghost use Rattle.std.specs.Prelude.{cond, ◌≡◌, ◌∷◌, false};
ghost use Rattle.bc_core.specs.View.{exp};
ghost use Rattle.bc_core.specs.Value.{has_call};
ghost use Rattle.bc_interpret_defs.specs.Quiet.{worth};
ghost use Rattle.bc_interpret_pure.specs.Views.{seen_truth};
ghost use Rattle.bc_interpret_steps.specs.Came.{sight};
ghost use Rattle.bc_core.specs.Tree as tree;
ghost use Rattle.bc_interpret_defs.specs.Machine as machine;
ghost use Rattle.bc_interpret_steps.specs.Code.{spot_of};
ghost use Rattle.bc_interpret_steps.specs.declared.state.State.{State as StateValue};
ghost use Rattle.bc_interpret_steps.specs.Stepped.{Proceeds};
ghost use Rattle.bc_interpret_steps.specs.Passing.{RunsInto, Enters, IsFirstCall, first_called};

use crate::calls::begin_call;
use crate::continuations::{NumberRest, Rest, TruthRest, level_above, push};
use crate::evaluate::{evaluate, evaluate_parts, outcome_of_worth, truth_at, worth_at};
use crate::forms::{Ending, Progress, Site, Work};
use crate::sections::Callable;
use crate::state::{Stacks, State};
use bc_core::CoreExp;
use bc_interpret_pure::Truth;
use bc_word::{Memory, Op};

/// Begins to evaluate an expression. Decides a pure condition and begins the branch within the same step, and begins an operator together
/// with the call that is its first operand. Not inlined, so that `step` stays small enough to be inlined into the loop around it.
///
/// `Memory` if an allocation fails.
#[inline(never)]
pub(crate) fn begin_expression<'c>(
    table: &[Callable<'c>],
    site: Site<'c>,
    e: &'c CoreExp,
    stacks: &mut Stacks<'c>,
    state: &mut State,
) -> Result<(), Memory>
    ensures { RunsInto table.now (spot_of site.entry) (exp e.now) site.entry.level stacks.old.rests state.old result stacks.new.next stacks.new.rests
        state.new }
{
    match e {
        CoreExp::Cond(condition, this, that) => conditional(
            table,
            site,
            condition,
            (this, that),
            stacks,
            state,
        ),
        CoreExp::Num(_)
        | CoreExp::Frame(_)
        | CoreExp::Glob(_)
        | CoreExp::Place(_)
        | CoreExp::Load(_)
        | CoreExp::Neg(_)
        | CoreExp::Not(_)
        | CoreExp::Bin(_, _, _)
        | CoreExp::Call(_, _)
        | CoreExp::Valof(_) => begin_unconditional(table, site, e, stacks, state),
    }
}

/// `begin_expression` for any expression but a conditional one.
#[inline(always)]
fn begin_unconditional<'c>(
    table: &[Callable<'c>],
    site: Site<'c>,
    e: &'c CoreExp,
    stacks: &mut Stacks<'c>,
    state: &mut State,
) -> Result<(), Memory>
    ensures { RunsInto table.now (spot_of site.entry) (exp e.now) site.entry.level stacks.old.rests state.old result stacks.new.next stacks.new.rests
        state.new }
{
    match first_call(e) {
        Some(first) => operand(table, site, first, stacks, state),
        None => begin_other(table, site, e, stacks, state),
    }
}

/// `begin_expression` for an expression that is neither conditional nor an operator on a call. Enters the routine of a call if its
/// arguments are pure.
#[inline(always)]
pub(crate) fn begin_other<'c>(
    table: &[Callable<'c>],
    site: Site<'c>,
    e: &'c CoreExp,
    stacks: &mut Stacks<'c>,
    state: &mut State,
) -> Result<(), Memory>
    ensures { RunsInto table.now (spot_of site.entry) (exp e.now) site.entry.level stacks.old.rests state.old result stacks.new.next stacks.new.rests
        state.new }
{
    match e {
        CoreExp::Call(arguments, routine) => begin_call(
            table, site, arguments, routine, stacks, state,
        ),
        CoreExp::Num(_)
        | CoreExp::Frame(_)
        | CoreExp::Glob(_)
        | CoreExp::Place(_)
        | CoreExp::Load(_)
        | CoreExp::Neg(_)
        | CoreExp::Not(_)
        | CoreExp::Bin(_, _, _)
        | CoreExp::Cond(_, _, _)
        | CoreExp::Valof(_) => evaluate(site, e, stacks, state),
    }
}

/// An operator whose first operand is a call.
#[derive(Clone, Copy)]
pub(crate) struct FirstCall<'c> {
    /// The operator.
    pub(crate) op: Op,
    /// The arguments of the call.
    pub(crate) arguments: &'c [CoreExp],
    /// The expression whose value is called.
    pub(crate) routine: &'c CoreExp,
    /// The second operand.
    pub(crate) second: &'c CoreExp,
}

/// The call that is an operator's first operand, if the expression is such an operator.
#[inline(always)]
fn first_call<'c>(e: &'c CoreExp) -> Option<FirstCall<'c>>
    ensures { IsFirstCall (exp e.now) result }
{
    match e {
        CoreExp::Bin(op, left, right) => called(*op, left, right),
        CoreExp::Num(_)
        | CoreExp::Frame(_)
        | CoreExp::Glob(_)
        | CoreExp::Place(_)
        | CoreExp::Load(_)
        | CoreExp::Neg(_)
        | CoreExp::Not(_)
        | CoreExp::Cond(_, _, _)
        | CoreExp::Call(_, _)
        | CoreExp::Valof(_) => None,
    }
}

/// `first_call` of an operator with these operands.
#[inline(always)]
fn called<'c>(op: Op, left: &'c CoreExp, second: &'c CoreExp) -> Option<FirstCall<'c>>
    ensures { IsFirstCall (tree.Bin op (exp left.now) (exp second.now)) result }
{
    match left {
        CoreExp::Call(arguments, routine) => Some(FirstCall {
            op,
            arguments,
            routine,
            second,
        }),
        CoreExp::Num(_)
        | CoreExp::Frame(_)
        | CoreExp::Glob(_)
        | CoreExp::Place(_)
        | CoreExp::Load(_)
        | CoreExp::Neg(_)
        | CoreExp::Not(_)
        | CoreExp::Bin(_, _, _)
        | CoreExp::Cond(_, _, _)
        | CoreExp::Valof(_) => None,
    }
}

/// Begins an operator together with the call that is its first operand.
fn operand<'c>(
    table: &[Callable<'c>],
    site: Site<'c>,
    first: FirstCall<'c>,
    stacks: &mut Stacks<'c>,
    state: &mut State,
) -> Result<(), Memory>
    ensures { RunsInto table.now (spot_of site.entry) (first_called first.entry) site.entry.level stacks.old.rests state.old result stacks.new.next
        stacks.new.rests state.new }
{
    push(
        Rest::Number(NumberRest::Operates(site, first.op, first.second)),
        &mut stacks.rests,
    )?;
    let level = level_above(site.level, 1)?;
    begin_call(
        table,
        Site { level, ..site },
        first.arguments,
        first.routine,
        stacks,
        state,
    )
}

/// The branch that is taken if the condition has this truth.
#[inline(always)]
fn taken<'c>(t: bool, this: &'c CoreExp, that: &'c CoreExp) -> &'c CoreExp
    ensures { exp result.now ≡ cond t (exp this.now) (exp that.now) }
{
    if t { this } else { that }
}

/// Begins a conditional expression; if its condition is pure, goes on with the branch that is taken.
#[inline(always)]
fn conditional<'c>(
    table: &[Callable<'c>],
    site: Site<'c>,
    condition: &'c CoreExp,
    branches: (&'c CoreExp, &'c CoreExp),
    stacks: &mut Stacks<'c>,
    state: &mut State,
) -> Result<(), Memory>
    ensures { RunsInto table.now (spot_of site.entry) (tree.Cond (exp condition.now) (exp branches.entry.0.now) (exp branches.entry.1.now)) site.entry.level
        stacks.old.rests state.old result stacks.new.next stacks.new.rests state.new }
{
    let found = truth_at(&site, condition, &mut stacks.room, state)?;
    match found {
        Some(truth) => past(table, site, condition, branches, truth, stacks, state),
        None => selects(site, condition, branches, stacks),
    }
}

/// Goes on with a conditional expression whose pure condition has this truth.
#[inline(always)]
fn past<'c>(
    table: &[Callable<'c>],
    site: Site<'c>,
    condition: &'c CoreExp,
    branches: (&'c CoreExp, &'c CoreExp),
    truth: Truth,
    stacks: &mut Stacks<'c>,
    state: &mut State,
) -> Result<(), Memory>
    ensures { has_call (exp condition.now) ≡ false → seen_truth truth ≡ (worth (sight state.old (spot_of site.entry)) (exp condition.now)).truth → RunsInto
        table.now (spot_of site.entry) (tree.Cond (exp condition.now) (exp branches.entry.0.now) (exp branches.entry.1.now)) site.entry.level
        stacks.old.rests state.old result stacks.new.next stacks.new.rests state.new }
{
    match truth {
        Truth::Is(t) => enter_branch(table, site, taken(t, branches.0, branches.1), stacks, state),
        Truth::Divides => {
            stacks.next = Progress::Ended(Ending::ZeroDivide);
            Ok(())
        }
        Truth::Fails(cause) => {
            stacks.next = Progress::Wild(cause);
            Ok(())
        }
    }
}

/// Begins a branch: gives its worth if it is pure, else goes as far into it as `begin_expression`.
#[inline(always)]
fn enter_branch<'c>(
    table: &[Callable<'c>],
    site: Site<'c>,
    e: &'c CoreExp,
    stacks: &mut Stacks<'c>,
    state: &mut State,
) -> Result<(), Memory>
    ensures { Enters table.now (spot_of site.entry) (exp e.now) site.entry.level stacks.old.rests state.old result stacks.new.next stacks.new.rests
        state.new }
{
    match first_call(e) {
        Some(first) => operand(table, site, first, stacks, state),
        None => enter_any(table, site, e, stacks, state),
    }
}

/// `enter_branch` for a branch that isn't an operator on a call.
#[inline(always)]
fn enter_any<'c>(
    table: &[Callable<'c>],
    site: Site<'c>,
    e: &'c CoreExp,
    stacks: &mut Stacks<'c>,
    state: &mut State,
) -> Result<(), Memory>
    ensures { Enters table.now (spot_of site.entry) (exp e.now) site.entry.level stacks.old.rests state.old result stacks.new.next stacks.new.rests
        state.new }
{
    let found = worth_at(&site, e, &mut stacks.room, state)?;
    match found {
        Some(worth) => {
            stacks.next = outcome_of_worth(worth);
            Ok(())
        }
        None => evaluate_parts(site, e, stacks, state),
    }
}

/// Begins a conditional expression whose condition isn't pure: decides the condition next, and pushes the continuation that selects a
/// branch.
pub(crate) fn selects<'c>(
    site: Site<'c>,
    condition: &'c CoreExp,
    branches: (&'c CoreExp, &'c CoreExp),
    stacks: &mut Stacks<'c>,
) -> Result<(), Memory>
    ensures { (st : StateValue) → Proceeds (λ rs. machine.go (machine.Decide (spot_of site.entry) (exp condition.now) site.entry.level) (machine.Selects
        (spot_of site.entry) (exp branches.entry.0.now) (exp branches.entry.1.now) site.entry.level ∷ rs)) stacks.old.rests st result stacks.new.next
        stacks.new.rests st }
{
    push(
        Rest::Truth(TruthRest::Selects(site, branches.0, branches.1)),
        &mut stacks.rests,
    )?;
    stacks.next = Progress::On(Work::Decide(site, condition));
    Ok(())
}
