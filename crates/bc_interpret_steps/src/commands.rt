//! One step into a command or a block. Each call returns `Memory` if an allocation fails.

ghost use Rattle.std.specs.Prelude.{ℕ, List, ◌≡◌, ◌∷◌, map, IfOk};
ghost use Rattle.bc_word.specs.Words.{holds};
ghost use Rattle.bc_core.specs.Exit.{Past};
ghost use Rattle.bc_core.specs.Outcome.{choose};
ghost use Rattle.bc_core.specs.Loop.{end_relation};
ghost use Rattle.bc_interpret_defs.specs.Machine as machine;
ghost use Rattle.bc_core.specs.Level.{level_in_for, cells_of as cells_of_variable, cells_of_all as cells_of_variables, cells_declared as cells_of_declarations};
ghost use Rattle.bc_core.specs.View.{exp, variable, declarations as declarations_view, command as command_view, items as items_view, block_of};
ghost use Rattle.bc_core.specs.Commands as commands;
ghost use Rattle.bc_interpret_defs.specs.Trails.{trail_in, trail_of};
ghost use Rattle.bc_interpret_steps.specs.declared.continuations.TruthRest.TheVariants as truth_rests;
ghost use Rattle.bc_interpret_steps.specs.declared.state.State.{State as StateValue};
ghost use Rattle.bc_interpret_steps.specs.Code.{spot_of, value_rest, truth_rest};
ghost use Rattle.bc_interpret_steps.specs.Came.{Came};
ghost use Rattle.bc_interpret_steps.specs.Stepped.{Proceeds, ProceedsAt, ProceedsAtOrMalformed, ProceedsOn};

use crate::assign::{Assigned, assign_at_once};
use crate::conditions::agrees;
use crate::continuations::{ExitRest, NothingRest, Rest, TruthRest, ValueRest, level_above, push};
use crate::evaluate::{decide, decide_part, evaluate, truth_at};
use crate::forms::{Ending, Entry, Exit, Progress, Rounds, Site, Work};
use crate::numbers::side_level;
use crate::state::{Stacks, State, put_after, put_word, turn};
use bc_core::{Block, Command, Condition, CoreExp, Declaration, ListItem, Variable};
use bc_interpret_pure::{Cause, Truth, cell_of};
use bc_interpret_store::Cell;
use bc_word::Memory;

/// Begins an assignment, and pushes the continuation that leaves it.
#[inline(always)]
fn assign<'c>(
    site: Site<'c>,
    value: &'c CoreExp,
    address: &'c CoreExp,
    stacks: &mut Stacks<'c>,
) -> Result<(), Memory>
    ensures { (st : StateValue) → Proceeds (machine.perform_step (spot_of site.entry) (commands.Assign (exp value.now) (exp address.now)) site.entry.level)
        stacks.old.rests st result stacks.new.next stacks.new.rests st }
{
    push(Rest::Nothing(NothingRest::Passes), &mut stacks.rests)?;
    stacks.next = Progress::On(Work::Store(site, value, address));
    Ok(())
}

/// A GOTO to this label, which takes a turn.
#[inline(always)]
fn jump<'c>(label: u16, state: &mut State) -> Progress<'c>
    ensures { (E : machine.Spot) (s : ℕ) (rs : List machine.Rest) (vs : List ℕ) → Came (trail_in rs) (machine.perform_step E (commands.Goto label) s rs)
        state.old result rs vs state.new }
{
    if !turn(state) {
        return Progress::Going;
    }
    Progress::On(Work::Left(Exit::Jumped(label)))
}

/// Begins a command.
#[tactic(auto, using(bc_core::proofs::Rows::nested_view))]
pub(crate) fn perform<'c>(
    site: Site<'c>,
    command: &'c Command,
    stacks: &mut Stacks<'c>,
    state: &mut State,
) -> Result<(), Memory>
    ensures { ProceedsAtOrMalformed (trail_of (machine.Perform (spot_of site.entry) (command_view command.now) site.entry.level)) (machine.perform_step
        (spot_of site.entry) (command_view command.now) site.entry.level) stacks.old.rests state.old result stacks.new.next stacks.new.rests state.new }
{
    match command {
        Command::Call(call) => after_value(ValueRest::Drops, site, call, stacks, state),
        Command::Assign { value, address } => assign(site, value, address, stacks),
        Command::If(condition, body) => begin_if(site, condition, body, stacks, state),
        Command::Test(test, this, that) => begin_test(site, test, (this, that), stacks, state),
        Command::While(condition, body) => while_loop(site, condition, body, stacks, state),
        Command::Repeat(body) => repeat(site, body, stacks),
        Command::RepeatWhile(body, condition) => repeat_while(site, body, condition, stacks),
        Command::For {
            start,
            limit,
            by,
            body,
        } => for_loop(site, (start, limit), (by.get(), body), stacks, state),
        Command::SwitchOn(value, items) => after_value(
            ValueRest::Switches(site, items),
            site,
            value,
            stacks,
            state,
        ),
        Command::Break => {
            stacks.next = Progress::On(Work::Left(Exit::Broke));
            Ok(())
        }
        Command::Loop => {
            stacks.next = Progress::On(Work::Left(Exit::Looped));
            Ok(())
        }
        Command::EndCase => {
            stacks.next = Progress::On(Work::Left(Exit::LeftCases));
            Ok(())
        }
        Command::Return => {
            stacks.next = Progress::On(Work::Left(Exit::Returned));
            Ok(())
        }
        Command::ResultIs(value) => after_value(ValueRest::Leaves, site, value, stacks, state),
        Command::Finish => {
            stacks.next = Progress::Ended(Ending::Finished);
            Ok(())
        }
        Command::Goto(label) => {
            stacks.next = jump(*label, state);
            Ok(())
        }
        Command::Nested(body) => enter(site, body, stacks, state),
    }
}

/// Begins a FOR: makes the cell of its variable live, and evaluates its start next. `bounds` has the start and the limit, `turns` the step
/// and the body.
fn for_loop<'c>(
    site: Site<'c>,
    bounds: (&'c CoreExp, &'c CoreExp),
    turns: (u16, &'c Block),
    stacks: &mut Stacks<'c>,
    state: &mut State,
) -> Result<(), Memory>
    ensures { Proceeds (machine.perform_step (spot_of site.entry) (commands.For (exp bounds.entry.0.now) (exp bounds.entry.1.now) turns.entry.0 (block_of
        turns.entry.1.now)) site.entry.level) stacks.old.rests state.old result stacks.new.next stacks.new.rests state.new }
{
    let (start, limit) = bounds;
    let (by, body) = turns;
    let cell = level_above(site.frame, site.level)?;
    state.store.open(1, cell as usize);
    push(Rest::Closes(None, 1, cell), &mut stacks.rests)?;
    push(
        Rest::Nothing(NothingRest::Limits(site, limit, by, body)),
        &mut stacks.rests,
    )?;
    push(
        Rest::Value(ValueRest::StoresAt(cell_of(site.frame as usize, site.level as usize)?)),
        &mut stacks.rests,
    )?;
    let level = level_above(site.level, 2)?;
    stacks.next = Progress::On(Work::Evaluate(Site { level, ..site }, start));
    Ok(())
}

/// Pushes a continuation, and begins the expression whose value it takes.
fn after_value<'c>(
    rest: ValueRest<'c>,
    site: Site<'c>,
    e: &'c CoreExp,
    stacks: &mut Stacks<'c>,
    state: &State,
) -> Result<(), Memory>
    ensures { ProceedsAtOrMalformed (λ rs. trail_in (value_rest rest.entry ∷ rs)) (λ rs. machine.evaluate (spot_of site.entry) (exp e.now) site.entry.level
        (value_rest rest.entry ∷ rs)) stacks.old.rests state.now result stacks.new.next stacks.new.rests state.now }
{
    push(Rest::Value(rest), &mut stacks.rests)?;
    evaluate(site, e, stacks, state)
}

/// Begins a TEST with its condition.
fn begin_test<'c>(
    site: Site<'c>,
    test: &'c CoreExp,
    branches: (&'c Block, &'c Block),
    stacks: &mut Stacks<'c>,
    state: &State,
) -> Result<(), Memory>
    ensures { ProceedsAt (λ rs. trail_in (truth_rest (truth_rests.Chooses site.entry branches.entry.0 branches.entry.1) ∷ rs)) (λ rs. machine.decide (spot_of
        site.entry) (exp test.now) site.entry.level (truth_rest (truth_rests.Chooses site.entry
        branches.entry.0 branches.entry.1) ∷ rs)) stacks.old.rests state.now result stacks.new.next stacks.new.rests state.now }
{
    let (this, that) = branches;
    push(
        Rest::Truth(TruthRest::Chooses(site, this, that)),
        &mut stacks.rests,
    )?;
    decide(site, test, stacks, state)
}

/// Enters the body of an IF or UNLESS if its condition holds, else leaves it.
#[inline(always)]
#[tactic(auto, using(crate::proofs::Quiet::went_this, crate::proofs::Quiet::went_that))]
pub(crate) fn enter_if<'c>(
    holds: bool,
    site: Site<'c>,
    body: &'c Block,
    stacks: &mut Stacks<'c>,
    state: &mut State,
) -> Result<(), Memory>
    ensures { ProceedsOn (λ rs. choose holds (machine.enter (spot_of site.entry) (block_of body.now) site.entry.level rs) (machine.give (machine.Left Past)
        rs)) stacks.old.rests state.old result stacks.new.next stacks.new.rests state.new }
{
    if holds {
        return Ok(enter(site, body, stacks, state)?);
    }
    stacks.next = Progress::On(Work::Left(Exit::Past));
    Ok(())
}

/// Enters the first branch of a TEST, and pushes the continuation that skips the second.
#[inline(always)]
fn enter_first<'c>(
    site: Site<'c>,
    branches: (&'c Block, &'c Block),
    stacks: &mut Stacks<'c>,
    state: &mut State,
) -> Result<(), Memory>
    ensures { ProceedsOn (λ rs. machine.enter (spot_of site.entry) (block_of branches.entry.0.now) site.entry.level (machine.Skips (block_of
        branches.entry.1.now) ∷ rs)) stacks.old.rests state.old result stacks.new.next stacks.new.rests state.new }
{
    let (this, that) = branches;
    push(Rest::Exit(ExitRest::Skips(that)), &mut stacks.rests)?;
    enter(site, this, stacks, state)
}

/// Enters the first block if `t` is true, and pushes the continuation that skips the second; else enters the second.
#[inline(always)]
#[tactic(auto, using(crate::proofs::Quiet::went_this, crate::proofs::Quiet::went_that))]
pub(crate) fn enter_either<'c>(
    t: bool,
    site: Site<'c>,
    branches: (&'c Block, &'c Block),
    stacks: &mut Stacks<'c>,
    state: &mut State,
) -> Result<(), Memory>
    ensures { ProceedsOn (λ rs. choose t (machine.enter (spot_of site.entry) (block_of branches.entry.0.now) site.entry.level (machine.Skips (block_of
        branches.entry.1.now) ∷ rs)) (machine.enter (spot_of site.entry) (block_of branches.entry.1.now) site.entry.level rs))
        stacks.old.rests state.old result stacks.new.next stacks.new.rests state.new }
{
    let (this, that) = branches;
    if t {
        return Ok(enter_first(site, (this, that), stacks, state)?);
    }
    Ok(enter(site, that, stacks, state)?)
}

/// Enters the body of a WHILE or UNTIL, and pushes the continuation that goes on with the loop.
#[inline(always)]
fn while_body<'c>(
    site: Site<'c>,
    condition: &'c Condition,
    body: &'c Block,
    stacks: &mut Stacks<'c>,
    state: &mut State,
) -> Result<(), Memory>
    ensures { ProceedsOn (λ rs. machine.enter (spot_of site.entry) (block_of body.now) site.entry.level (machine.WhileBody (spot_of site.entry)
        condition.now.sense (exp condition.now.test) (block_of body.now) site.entry.level ∷ rs)) stacks.old.rests state.old result stacks.new.next
        stacks.new.rests state.new }
{
    push(
        Rest::Exit(ExitRest::WhileBody(site, condition, body)),
        &mut stacks.rests,
    )?;
    enter(site, body, stacks, state)
}

/// Enters the body of a WHILE or UNTIL if its condition holds, else leaves the loop.
#[inline(always)]
#[tactic(auto, using(crate::proofs::Quiet::went_this, crate::proofs::Quiet::went_that))]
pub(crate) fn enter_while<'c>(
    holds: bool,
    site: Site<'c>,
    parts: (&'c Condition, &'c Block),
    stacks: &mut Stacks<'c>,
    state: &mut State,
) -> Result<(), Memory>
    ensures { ProceedsOn (λ rs. choose holds (machine.enter (spot_of site.entry) (block_of parts.entry.1.now) site.entry.level (machine.WhileBody (spot_of
        site.entry) parts.entry.0.now.sense (exp parts.entry.0.now.test) (block_of parts.entry.1.now) site.entry.level ∷ rs)) (machine.give (machine.Left
        Past) rs)) stacks.old.rests state.old result stacks.new.next stacks.new.rests state.new }
{
    if holds {
        return Ok(while_body(site, parts.0, parts.1, stacks, state)?);
    }
    stacks.next = Progress::On(Work::Left(Exit::Past));
    Ok(())
}

/// Begins an IF or UNLESS; a pure condition is decided within this step. If that fails, the continuation of the condition is pushed all the
/// same: the trail of the run needs it.
#[inline(always)]
#[tactic(auto, using(crate::proofs::Tests::if_calls))]
fn begin_if<'c>(
    site: Site<'c>,
    condition: &'c Condition,
    body: &'c Block,
    stacks: &mut Stacks<'c>,
    state: &mut State,
) -> Result<(), Memory>
    ensures { ProceedsAt (trail_of (machine.Perform (spot_of site.entry) (commands.If condition.now.sense (exp condition.now.test) (block_of body.now))
        site.entry.level)) (machine.perform_step (spot_of site.entry) (commands.If condition.now.sense (exp condition.now.test) (block_of body.now))
        site.entry.level) stacks.old.rests state.old result stacks.new.next stacks.new.rests state.new }
{
    match truth_at(&site, &condition.test, &mut stacks.room, state)? {
        Some(Truth::Is(t)) => {
            let holds = agrees(condition.sense, t);
            enter_if(holds, site, body, stacks, state)
        }
        Some(Truth::Divides) => put_after(
            Rest::Truth(TruthRest::Ifs(site, condition.sense, body)),
            Progress::Ended(Ending::ZeroDivide),
            stacks,
        ),
        Some(Truth::Fails(cause)) => put_after(
            Rest::Truth(TruthRest::Ifs(site, condition.sense, body)),
            Progress::Wild(cause),
            stacks,
        ),
        None => decide_part(
            TruthRest::Ifs(site, condition.sense, body),
            site,
            &condition.test,
            stacks,
        ),
    }
}

/// Begins a round of a WHILE or UNTIL; a pure condition is decided within this step. If that fails, the continuation of the condition is
/// pushed all the same: the trail of the run needs it.
#[inline(always)]
#[tactic(auto, using(crate::proofs::Tests::while_calls))]
pub(crate) fn while_loop<'c>(
    site: Site<'c>,
    condition: &'c Condition,
    body: &'c Block,
    stacks: &mut Stacks<'c>,
    state: &mut State,
) -> Result<(), Memory>
    ensures { ProceedsAt (trail_of (machine.Perform (spot_of site.entry) (commands.While condition.now.sense (exp condition.now.test) (block_of body.now))
        site.entry.level)) (machine.perform_step (spot_of site.entry) (commands.While condition.now.sense (exp condition.now.test) (block_of body.now))
        site.entry.level) stacks.old.rests state.old result stacks.new.next stacks.new.rests state.new }
{
    match truth_at(&site, &condition.test, &mut stacks.room, state)? {
        Some(Truth::Is(t)) => {
            let holds = agrees(condition.sense, t);
            enter_while(holds, site, (condition, body), stacks, state)
        }
        Some(Truth::Divides) => put_after(
            Rest::Truth(TruthRest::Whiles(site, condition, body)),
            Progress::Ended(Ending::ZeroDivide),
            stacks,
        ),
        Some(Truth::Fails(cause)) => put_after(
            Rest::Truth(TruthRest::Whiles(site, condition, body)),
            Progress::Wild(cause),
            stacks,
        ),
        None => decide_part(
            TruthRest::Whiles(site, condition, body),
            site,
            &condition.test,
            stacks,
        ),
    }
}

/// Begins a round of a REPEAT.
pub(crate) fn repeat<'c>(
    site: Site<'c>,
    body: &'c Block,
    stacks: &mut Stacks<'c>,
) -> Result<(), Memory>
    ensures { (st : StateValue) → Proceeds (machine.perform_step (spot_of site.entry) (commands.Repeat (block_of body.now)) site.entry.level)
        stacks.old.rests st result stacks.new.next stacks.new.rests st }
{
    push(
        Rest::Exit(ExitRest::RepeatBody(site, body)),
        &mut stacks.rests,
    )?;
    stacks.next = Progress::On(Work::Enter(site, body));
    Ok(())
}

/// Begins a round of a REPEATWHILE or REPEATUNTIL.
pub(crate) fn repeat_while<'c>(
    site: Site<'c>,
    body: &'c Block,
    condition: &'c Condition,
    stacks: &mut Stacks<'c>,
) -> Result<(), Memory>
    ensures { (st : StateValue) → Proceeds (machine.perform_step (spot_of site.entry) (commands.RepeatWhile (block_of body.now) condition.now.sense (exp
        condition.now.test)) site.entry.level) stacks.old.rests st result stacks.new.next stacks.new.rests st }
{
    push(
        Rest::Exit(ExitRest::RepeatWhileBody(site, body, condition)),
        &mut stacks.rests,
    )?;
    stacks.next = Progress::On(Work::Enter(site, body));
    Ok(())
}

/// Performs an assignment within this step if it is pure, else evaluates its value next.
pub(crate) fn store<'c>(
    site: Site<'c>,
    value: &'c CoreExp,
    address: &'c CoreExp,
    stacks: &mut Stacks<'c>,
    state: &mut State,
) -> Result<(), Memory>
    ensures { Proceeds (machine.store (spot_of site.entry) (exp value.now) (exp address.now) site.entry.level) stacks.old.rests state.old result
        stacks.new.next stacks.new.rests state.new }
{
    match assign_at_once(&site, value, address, &mut stacks.room, state)? {
        Some(Assigned::Done) => {
            stacks.next = Progress::On(Work::Nothing);
            Ok(())
        }
        Some(Assigned::Divides) => {
            stacks.next = Progress::Ended(Ending::ZeroDivide);
            Ok(())
        }
        Some(Assigned::Fails(cause)) => {
            stacks.next = Progress::Wild(cause);
            Ok(())
        }
        None => {
            push(
                Rest::Value(ValueRest::Stores(site, address)),
                &mut stacks.rests,
            )?;
            let level = side_level(address, site.level)?;
            stacks.next = Progress::On(Work::Evaluate(Site { level, ..site }, value));
            Ok(())
        }
    }
}

/// The cells of one variable: its own, and those of its vector.
fn cells_of_one(declared: &Variable) -> u32
    ensures { result ≡ cells_of_variable (variable declared.now) }
{
    match declared {
        Variable::Value(_) => 1,
        Variable::Vector(greatest) => u32::from(greatest.get()) + 2,
    }
}

/// The cells of all these variables.
pub(crate) fn cells_of_all(variables: &[Variable]) -> Result<u32, Memory>
    ensures { IfOk result (λ cells. cells ≡ cells_of_variables (map variable variables.now)) }
{
    let mut cells = 0u32;
    let mut left = variables;
    while let [first, rest @ ..] = left {
        cells = level_above(cells, cells_of_one(first))?;
        left = rest;
    }
    Ok(cells)
}

/// The cells of all these declarations.
fn cells_declared(declarations: &[Declaration]) -> Result<u32, Memory>
    ensures { IfOk result (λ cells. cells ≡ cells_of_declarations (declarations_view declarations.now)) }
{
    let mut cells = 0u32;
    let mut left = declarations;
    while let [first, rest @ ..] = left {
        cells = level_above(cells, cells_of_all(&first.variables)?)?;
        left = rest;
    }
    Ok(cells)
}

/// Begins a block.
#[inline(always)]
pub(crate) fn enter<'c>(
    site: Site<'c>,
    block: &'c Block,
    stacks: &mut Stacks<'c>,
    state: &mut State,
) -> Result<(), Memory>
    ensures { ProceedsOn (machine.enter (spot_of site.entry) (block_of block.now) site.entry.level) stacks.old.rests state.old result stacks.new.next
        stacks.new.rests state.new }
{
    let level = level_above(site.level, cells_declared(&block.declarations)?)?;
    Ok(declare(
        site,
        (&block.declarations, &block.list),
        level,
        stacks,
        state,
    )?)
}

/// Begins the remaining declarations of a block; if there is none, its list comes next, at `level`. `remaining` has both.
pub(crate) fn declare<'c>(
    site: Site<'c>,
    remaining: (&'c [Declaration], &'c [ListItem]),
    level: u32,
    stacks: &mut Stacks<'c>,
    state: &mut State,
) -> Result<(), Memory>
    ensures { ProceedsOn (machine.declare_step (spot_of site.entry) (declarations_view remaining.entry.0.now) (items_view remaining.entry.1.now)
        site.entry.level level) stacks.old.rests state.old result stacks.new.next stacks.new.rests state.new }
{
    let (declarations, items) = remaining;
    match declarations {
        [] => {
            let within = Site { level, ..site };
            push(
                Rest::Exit(ExitRest::Listed(within, items)),
                &mut stacks.rests,
            )?;
            stacks.next = Progress::On(Work::Listing(within, items, Entry::Beginning));
            Ok(())
        }
        [first, left @ ..] => {
            let cells = cells_of_all(&first.variables)?;
            let from = level_above(site.frame, site.level)?;
            let within = Site {
                level: level_above(site.level, cells)?,
                ..site
            };
            state.store.open(cells as usize, from as usize);
            push(Rest::Closes(None, cells, from), &mut stacks.rests)?;
            push(
                Rest::Nothing(NothingRest::Declares(within, left, items, level)),
                &mut stacks.rests,
            )?;
            stacks.next = Progress::On(Work::Initialise(within, &first.variables, site.level));
            Ok(())
        }
    }
}

/// Initialises the remaining variables. The first of them is at offset `k` of the frame; the level is after all of them.
pub(crate) fn initialise<'c>(
    site: Site<'c>,
    variables: &'c [Variable],
    k: u32,
    stacks: &mut Stacks<'c>,
    state: &mut State,
) -> Result<(), Memory>
    ensures { Proceeds (machine.initialise_step (spot_of site.entry) (map variable variables.now) k site.entry.level) stacks.old.rests state.old result
        stacks.new.next stacks.new.rests state.new }
{
    match variables {
        [] => {
            stacks.next = Progress::On(Work::Nothing);
            Ok(())
        }
        [Variable::Value(e), left @ ..] => {
            push(
                Rest::Nothing(NothingRest::Initialises(site, left, level_above(k, 1)?)),
                &mut stacks.rests,
            )?;
            push(
                Rest::Value(ValueRest::StoresAt(cell_of(site.frame as usize, k as usize)?)),
                &mut stacks.rests,
            )?;
            stacks.next = Progress::On(Work::Evaluate(site, e));
            Ok(())
        }
        [Variable::Vector(greatest), left @ ..] => {
            let following = level_above(k, u32::from(greatest.get()) + 2)?;
            let first = cell_of(site.frame as usize, level_above(k, 1)? as usize)?;
            match put_word(state, cell_of(site.frame as usize, k as usize)?, first) {
                None => {
                    stacks.next = Progress::On(Work::Initialise(site, left, following));
                    Ok(())
                }
                Some(cause) => {
                    stacks.next = Progress::Wild(cause);
                    Ok(())
                }
            }
        }
    }
}

/// Whether a FOR with this step ends: its variable is above the limit, or below it if the step is negative.
#[inline(always)]
fn is_past(by: u16, value: u16, limit: u16) -> bool
    ensures { result ≡ holds (end_relation by) value limit }
{
    if by < 32768 {
        value.cast_signed() > limit.cast_signed()
    } else {
        value.cast_signed() < limit.cast_signed()
    }
}

/// Begins a round of a FOR whose limit is known: tests its variable, and enters its body or leaves it.
#[tactic(auto, using(crate::proofs::Loops::round_dead, crate::proofs::Loops::round_unset, crate::proofs::Loops::round_by_dead, crate::proofs::Loops::round_by_unset, crate::proofs::Loops::round_past, crate::proofs::Loops::round_goes))]
pub(crate) fn round<'c>(
    site: Site<'c>,
    rounds: Rounds<'c>,
    stacks: &mut Stacks<'c>,
    state: &mut State,
) -> Result<(), Memory>
    ensures { Proceeds (machine.round_step (spot_of site.entry) rounds.entry.limit rounds.entry.by (block_of rounds.entry.body.now) site.entry.level)
        stacks.old.rests state.old result stacks.new.next stacks.new.rests state.new }
{
    let address = cell_of(site.frame as usize, site.level as usize)?;
    match state.store.at(address) {
        Cell::Dead => {
            stacks.next = Progress::Wild(Cause::Dead(address));
            Ok(())
        }
        Cell::Unset => {
            stacks.next = Progress::Wild(Cause::Unset(address));
            Ok(())
        }
        Cell::Set(value) => {
            if is_past(rounds.by, value, rounds.limit) {
                stacks.next = Progress::On(Work::Left(Exit::Past));
                return Ok(());
            }
            Ok(for_body(site, rounds, stacks, state)?)
        }
    }
}

/// Enters the body of a FOR, and pushes the continuation that goes on with the loop.
#[inline(always)]
fn for_body<'c>(
    site: Site<'c>,
    rounds: Rounds<'c>,
    stacks: &mut Stacks<'c>,
    state: &mut State,
) -> Result<(), Memory>
    ensures { ProceedsOn (λ rs. machine.enter (spot_of site.entry) (block_of rounds.entry.body.now) (level_in_for site.entry.level) (machine.ForBody (spot_of
        site.entry) rounds.entry.limit rounds.entry.by (block_of rounds.entry.body.now) site.entry.level ∷ rs)) stacks.old.rests state.old result
        stacks.new.next stacks.new.rests state.new }
{
    let level = level_above(site.level, 2)?;
    push(
        Rest::Exit(ExitRest::ForBody(site, rounds)),
        &mut stacks.rests,
    )?;
    enter(Site { level, ..site }, rounds.body, stacks, state)
}
