//! A run: one step with a primitive's work (`advance`), steps up to the next turn (`stretch`), and steps to the end (`to_end`). There are
//! two loops because each has its own measure: the weight decreases within a stretch, and the remaining turns from stretch to stretch.

ghost use Rattle.std.specs.Prelude.{◌≡◌, IfOk};
ghost use Rattle.bc_interpret.specs.Moving.{HasProgram, StepsTo, MovesBy, next_of, AdvancedOn, StretchedOn, CompletedOn};

use crate::observer::Observer;
use crate::serve::{Served, serve};
use bc_interpret_pure::Cause;
use bc_interpret_steps::{
    Callable, Ending, OpenCall, Progress, Stacks, State, Work, keep_open, step,
};
use bc_interpret_trace::Trail;
use bc_machine::Streams;
use bc_word::Memory;

/// The outcome of a run.
#[derive(Clone, Copy, Debug, PartialEq, Eq)]
pub enum Outcome {
    /// It ended by itself.
    Ended(Ending),
    /// It would go on, but all turns have been taken.
    Going,
    /// It met a wild access.
    Wild(Cause),
    /// A device failed.
    Device,
}

/// A run in progress.
#[derive(Drop)]
pub(crate) struct Run<'c> {
    /// The store and the remaining turns.
    pub state: State,
    /// The next work and the continuations.
    pub stacks: Stacks<'c>,
    /// A buffer for the names of streams.
    pub name: Vec<u8>,
}

/// The outcome of a run, and where it was then.
#[derive(Debug, Drop)]
pub struct Interpreted {
    /// The outcome.
    pub outcome: Outcome,
    /// Where the run was. If it is wild, these are the calls that are open at the wild step, each with the run's position in it.
    pub trail: Trail,
}

/// Whether a run goes on.
#[derive(Clone, Copy)]
enum Moved {
    /// It does: the next work is in `Stacks::next`.
    On,
    /// It is over.
    Over(Outcome),
}

/// How the result of a primitive, which this call called, continues or ends a run.
///
/// `Memory` if an allocation fails.
fn moved_by<'c>(served: Served, call: OpenCall, stacks: &mut Stacks<'c>) -> Result<Moved, Memory>
    ensures { IfOk result (λ moved. MovesBy served call moved stacks.new stacks.old) }
{
    match served {
        Served::Number(v) => {
            stacks.next = Progress::On(Work::Number(v));
            Ok(Moved::On)
        }
        Served::Wild(cause) => {
            keep_open(call, &mut stacks.rests)?;
            Ok(Moved::Over(Outcome::Wild(cause)))
        }
        Served::Device => {
            keep_open(call, &mut stacks.rests)?;
            Ok(Moved::Over(Outcome::Device))
        }
    }
}

/// Lets an observer see a run before a step.
#[inline(always)]
fn see_before<O: Observer>(run: &mut Run<'_>, observer: &mut O) -> Result<(), Memory>
    ensures { run.new ≡ run.old }
{
    observer.before(&run.stacks, &mut run.state.store)
}

/// Lets an observer see a run after a step.
#[inline(always)]
fn see_after<O: Observer>(run: &mut Run<'_>, observer: &mut O) -> Result<(), Memory>
    ensures { run.new ≡ run.old }
{
    observer.after(&run.stacks, &mut run.state.store)
}

/// One call of `step`, which an observer sees.
///
/// `Memory` if an allocation fails.
#[inline(always)]
fn seen_step<'c, O: Observer>(
    table: &[Callable<'c>],
    run: &mut Run<'c>,
    observer: &mut O,
) -> Result<(), Memory>
    requires { HasProgram table.now }
    ensures { IfOk result (λ unit. StepsTo table.now run.old run.new) }
{
    see_before(run, observer)?;
    step(table, &mut run.stacks, &mut run.state)?;
    see_after(run, observer)?;
    Ok(())
}

/// One call of `step`, with the work of the primitive that it calls, if any.
///
/// `Memory` if an allocation fails.
#[inline(always)]
fn advance<'c, S: Streams, O: Observer>(
    table: &[Callable<'c>],
    run: &mut Run<'c>,
    streams: &mut S,
    observer: &mut O,
) -> Result<Moved, Memory>
    requires { HasProgram table.now }
    ensures { IfOk result (λ moved. AdvancedOn S.known S.content S.failures table.now (next_of run.old) run.old run.new streams.old streams.new moved) }
{
    seen_step(table, run, observer)?;
    match run.stacks.next {
        Progress::On(_) => Ok(Moved::On),
        Progress::Serve(primitive, call) => {
            let served = serve(primitive, call, &mut run.state, streams, &mut run.name)?;
            Ok(moved_by(served, call, &mut run.stacks)?)
        }
        Progress::Answered => Ok(Moved::Over(Outcome::Ended(Ending::Finished))),
        Progress::Ended(ending) => Ok(Moved::Over(Outcome::Ended(ending))),
        Progress::Going => Ok(Moved::Over(Outcome::Going)),
        Progress::Wild(cause) => Ok(Moved::Over(Outcome::Wild(cause))),
    }
}

/// Steps up to and including the first one that takes a turn.
///
/// `Memory` if an allocation fails.
#[inline(always)]
fn stretch<'c, S: Streams, O: Observer>(
    table: &[Callable<'c>],
    run: &mut Run<'c>,
    streams: &mut S,
    observer: &mut O,
) -> Result<Moved, Memory>
    requires { HasProgram table.now }
    ensures { IfOk result (λ moved. StretchedOn S.known S.content S.failures table.now (next_of run.old) run.old run.new streams.old streams.new moved) }
{
    loop {
        let before = run.state.turns;
        let moved = advance(table, run, streams, observer)?;
        match moved {
            Moved::On => {
                if run.state.turns < before {
                    return Ok(Moved::On);
                }
            }
            Moved::Over(outcome) => return Ok(Moved::Over(outcome)),
        }
    }
}

/// Steps to the end of the run.
///
/// `Memory` if an allocation fails.
pub(crate) fn to_end<'c, S: Streams, O: Observer>(
    table: &[Callable<'c>],
    run: &mut Run<'c>,
    streams: &mut S,
    observer: &mut O,
) -> Result<Outcome, Memory>
    requires { HasProgram table.now }
    ensures { IfOk result (λ outcome. CompletedOn S.known S.content S.failures table.now (next_of run.old) run.old run.new streams.old streams.new outcome) }
{
    loop {
        let moved = stretch(table, run, streams, observer)?;
        match moved {
            Moved::On => {}
            Moved::Over(outcome) => return Ok(outcome),
        }
    }
}
