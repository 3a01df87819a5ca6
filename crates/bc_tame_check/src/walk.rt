//! The check of expressions, commands and blocks. The functions call one another and are proved as one cycle.

ghost use Rattle.std.specs.Prelude.{◌≡◌, ◌+◌, ◌≤◌, ◌∷◌, ◌&&◌, ◌||◌, nat_lt, true, Some, map, ℕ, List, OnOk, IfOk, IfSome};
ghost use Rattle.bc_core.specs.Tree as tree;
ghost use Rattle.bc_core.specs.Commands as forms;
ghost use Rattle.bc_core.specs.Level.{side_level};
ghost use Rattle.bc_core.specs.View.{exp, args, variable, declarations as declarations_view, command as command_view, items as items_view};
ghost use Rattle.bc_core.specs.View.{items_before, block_of, body_of};
ghost use Rattle.bc_tame.specs.Tame as tame;
ghost use Rattle.bc_tame.specs.Tame.{AnyWord, and_also, tame_exp, tame_args, tame_variables};
ghost use Rattle.bc_tame.specs.Programs.{known as known_as};
ghost use Rattle.bc_tame_check.specs.Views.{env_at, reads_at, exits_at, notes_in, held_of, test_of, bounds_in, bounds_found, AreDeclared, FillsCells, IsFilling};
ghost use Rattle.bc_tame_check.specs.Passes.{exp_passes, block_passes, block_passes_as, round_passes, plain_passes, rounds_pass, closed_passes, ItemPasses, CallFits, ExpPasses, CommandPasses, BlockPasses, ItemsPass, ListPasses, ValofPasses};

use crate::at::{At, Exits, Known, Walk};
use crate::binding::{cells_of_all, labels_with, set_all};
use crate::bounds::{bounds_of, counted, is_indexed};
use crate::causes::why_not;
use crate::filling::{Rounds, filled_by};
use crate::format::{is_fixed, speaks};
use crate::held::{Bounds, Entry, Held, Test};
use crate::knows::{held_at, is_word, passes};
use crate::learning::{has_no_entry, learned};
use crate::lookup::{called, global_of, is_static, own_setter, routine_named, text_of, words_of};
use crate::not_tame::{BodyOf, Cause, NotTame};
use bc_core::{Block, Body, Command, CoreExp, Declaration, ListItem, Variable, operand};

/// Checks a number, which every word passes.
#[tactic(auto, using(crate::proofs::Tests::less_true))]
pub(crate) fn number(word: u16) -> u16
    ensures { nat_lt word 65536 ≡ true }
{
    word
}

/// What a FOR counts: its start, its limit and its step.
#[derive(Clone, Copy)]
struct Steps<'a> {
    start: &'a CoreExp,
    limit: &'a CoreExp,
    by: u16,
}

/// Checks the address of a cell of a vector or table.
fn indexing(at: At<'_>, test: Test, address: &CoreExp, walk: &Walk) -> Result<(), NotTame>
    ensures { OnOk result ((tame.all_between (test_of test) (reads_at at.entry) (tame.offsets_at (reads_at at.entry) (exp address.now))
        || tame.is_in_table ((env_at at.entry).table) (reads_at at.entry) (exp address.now)) ≡ true) }
{
    if is_indexed(at, test, address) {
        Ok(())
    } else {
        walk.stop(why_not(at, address))
    }
}

/// Checks the variable at an offset that is read.
#[tactic(auto, using(crate::proofs::Knowledge::cell_set))]
fn reading_local(at: At<'_>, offset: usize, walk: &Walk) -> Result<(), NotTame>
    ensures { OnOk result (tame.is_set (reads_at at.entry offset) ≡ true) }
{
    if passes(Test::Set, held_at(at, offset)) {
        Ok(())
    } else {
        walk.stop(Cause::Indirection)
    }
}

/// Checks the address of a cell that is read.
#[tactic(auto, using(crate::proofs::Tests::less_true))]
fn reading(at: At<'_>, address: &CoreExp, walk: &Walk) -> Result<(), NotTame>
    ensures { OnOk result (tame.can_read (env_at at.entry) (reads_at at.entry) (exp address.now) ≡ true) }
{
    match address {
        CoreExp::Frame(offset) => reading_local(at, *offset as usize, walk),
        CoreExp::Glob(number) => {
            if *number < 512 {
                Ok(())
            } else {
                walk.stop(Cause::Indirection)
            }
        }
        CoreExp::Place(label) => {
            if is_static(at.around.places, *label as usize) {
                Ok(())
            } else {
                walk.stop(Cause::Indirection)
            }
        }
        CoreExp::Load(_) | CoreExp::Bin(_, _, _) => indexing(at, Test::Set, address, walk),
        _ => walk.stop(Cause::Indirection),
    }
}

/// Checks the variable at an offset that is written.
#[tactic(auto, using(crate::proofs::Knowledge::cell_word))]
fn writing_local(at: At<'_>, offset: usize, walk: &mut Walk) -> Result<(), NotTame>
    ensures { OnOk result (tame.is_word (reads_at at.entry offset) ≡ true) }
{
    if is_word(held_at(at, offset)) {
        Ok(())
    } else {
        walk.assigned = Some(offset);
        walk.stop(Cause::Size)
    }
}

/// Checks the address of a cell that is written.
#[tactic(auto, using(crate::proofs::Tests::global_written))]
fn writing(at: At<'_>, address: &CoreExp, walk: &mut Walk) -> Result<(), NotTame>
    ensures { OnOk result (tame.can_write (env_at at.entry) (reads_at at.entry) (exp address.now) ≡ true) }
{
    match address {
        CoreExp::Frame(offset) => writing_local(at, *offset as usize, walk),
        CoreExp::Glob(number) => {
            if *number >= 512 {
                walk.stop(Cause::Indirection)
            } else if is_fixed(*number) {
                walk.stop(Cause::LibraryGlobal)
            } else {
                match own_setter(at.around.setters, *number) {
                    Some(_) => walk.stop(Cause::RoutineGlobal),
                    None => Ok(()),
                }
            }
        }
        CoreExp::Place(label) => {
            if is_static(at.around.places, *label as usize) {
                Ok(())
            } else {
                walk.stop(Cause::Indirection)
            }
        }
        CoreExp::Load(_) | CoreExp::Bin(_, _, _) => indexing(at, Test::Writable, address, walk),
        _ => walk.stop(Cause::Indirection),
    }
}

/// Checks that a jump is allowed.
fn jump(allowed: bool, walk: &mut Walk) -> Result<(), NotTame>
    ensures { OnOk result (allowed ≡ true) }
{
    if allowed {
        Ok(())
    } else {
        walk.jumped = true;
        walk.stop(Cause::Size)
    }
}

/// Checks that GOTO may go to a label.
#[tactic(auto, using(crate::proofs::Labels::at_index))]
fn goto(at: At<'_>, label: u16, walk: &mut Walk) -> Result<(), NotTame>
    ensures { OnOk result ((exits_at at.entry).labels label ≡ true) }
{
    for each in at.exits.labels {
        if *each == label {
            return Ok(());
        }
    }
    walk.jumped = true;
    walk.stop(Cause::Size)
}

/// Checks an expression.
#[cycle(walk)]
#[tactic(auto, using(bc_core::proofs::Rows::call_view, crate::proofs::Tests::and_true))]
fn expression(at: At<'_>, e: &CoreExp, walk: &mut Walk) -> Result<(), NotTame>
    ensures { OnOk result (ExpPasses at.entry (exp e.now)) }
{
    let depth = walk.deeper(at.depth)?;
    let at = At { depth, ..at };
    match e {
        CoreExp::Num(word) => {
            let _number = number(word.get());
            Ok(())
        }
        CoreExp::Frame(_) | CoreExp::Glob(_) => Ok(()),
        CoreExp::Place(label) => place_value(at, *label as usize, walk),
        CoreExp::Load(address) => reading(at, address, walk),
        CoreExp::Neg(part) | CoreExp::Not(part) => expression(at, part, walk),
        CoreExp::Bin(_, left, right) => both(at, left, right, walk),
        CoreExp::Cond(condition, this, that) => choice(at, condition, this, that, walk),
        CoreExp::Call(values, routine) => call(at, values, routine, walk),
        CoreExp::Valof(number) => valof(at, *number as usize, walk),
    }
}

/// Checks the operands of an operator.
#[cycle(walk)]
#[tactic(auto, using(crate::proofs::Tests::and_true))]
fn both(at: At<'_>, left: &CoreExp, right: &CoreExp, walk: &mut Walk) -> Result<(), NotTame>
    ensures { OnOk result ((tame_exp (env_at at.entry) (reads_at at.entry) (exp left.now) (at.entry.level + 1)
        && tame_exp (env_at at.entry) (reads_at at.entry) (exp right.now) (at.entry.level + 1)) ≡ true) }
{
    let level = walk.above(at.level, 1)?;
    let at = At { level, ..at };
    expression(at, left, walk)?;
    expression(at, right, walk)
}

/// Checks a conditional expression.
#[cycle(walk)]
#[tactic(auto, using(crate::proofs::Tests::and_true))]
fn choice(
    at: At<'_>,
    condition: &CoreExp,
    this: &CoreExp,
    that: &CoreExp,
    walk: &mut Walk,
) -> Result<(), NotTame>
    ensures { OnOk result (ExpPasses at.entry (tree.Cond (exp condition.now) (exp this.now) (exp that.now))) }
{
    expression(at, condition, walk)?;
    expression(at, this, walk)?;
    expression(at, that, walk)
}

/// Checks that there is room for a call of a routine that is known.
fn enters_known(
    at: At<'_>,
    routine: &CoreExp,
    known: Known,
    arguments: usize,
    walk: &mut Walk,
) -> Result<(), NotTame>
    ensures { OnOk result (tame.fits_call (Some (known_as known.arguments known.room)) arguments at.entry.level at.entry.around.size ≡ true) }
{
    if known.room == 0
        && let Some(unchecked) = routine_named(at, routine)
    {
        return Err(NotTame::Unchecked(unchecked, walk.spot));
    }
    walk.fits(known, arguments, at.level, at.around.size)
}

/// Checks that there is room for a call of a library routine that takes strings.
#[tactic(auto, using(crate::proofs::Calls::said_fits))]
fn enters_said(
    at: At<'_>,
    values: &[CoreExp],
    routine: &CoreExp,
    walk: &mut Walk,
) -> Result<(), NotTame>
    ensures { OnOk result (tame.fits_room (tame.spoken (env_at at.entry) (exp routine.now) (notes_in at.entry values.now))
        at.entry.level at.entry.around.size ≡ true) }
{
    let global = match global_of(routine) {
        Some(global) => global,
        None => return Err(NotTame::Unknown(Cause::Call, walk.spot)),
    };
    let room = match speaks(at, global, values) {
        Some(room) => room,
        None => return Err(NotTame::Unknown(said_cause(global), walk.spot)),
    };
    let cells = walk.above(at.level, room)?;
    walk.needs(cells, at.around.size)
}

/// Checks that a call's routine can be called with these arguments, and that there is room for it.
#[tactic(auto, using(crate::proofs::Calls::known_call, crate::proofs::Calls::said_call))]
fn enters(at: At<'_>, values: &[CoreExp], routine: &CoreExp, walk: &mut Walk) -> Result<(), NotTame>
    ensures { OnOk result (CallFits at.entry values.now (exp routine.now)) }
{
    match called(at, routine) {
        Some(known) => enters_known(at, routine, known, values.len(), walk),
        None => enters_said(at, values, routine, walk),
    }
}

/// Checks a call.
#[cycle(walk)]
#[tactic(auto, using(crate::proofs::Calls::call_true))]
fn call(at: At<'_>, values: &[CoreExp], routine: &CoreExp, walk: &mut Walk) -> Result<(), NotTame>
    ensures { OnOk result (ExpPasses at.entry (tree.Call (args values.now) (exp routine.now))) }
{
    let level = walk.above(at.level, 2)?;
    arguments(At { level, ..at }, values, walk)?;
    enters(at, values, routine, walk)
}

/// Checks the address of a place that is used as a value: only that of a string constant or of a table with words passes.
#[tactic(auto, using(crate::proofs::Strings::text_there, crate::proofs::Strings::table_there))]
fn place_value(at: At<'_>, label: usize, walk: &Walk) -> Result<(), NotTame>
    ensures { OnOk result ((env_at at.entry).place label ≡ true) }
{
    match text_of(at.around.places, label) {
        Some(_) => Ok(()),
        None => {
            if words_of(at.around.places, label) > 0 {
                Ok(())
            } else {
                walk.stop(Cause::Address)
            }
        }
    }
}

/// What is wrong with a call of this global that doesn't pass.
fn said_cause(global: u16) -> Cause {
    if global == 22 || global == 25 || global == 15 || global == 16 {
        Cause::Format
    } else {
        Cause::Call
    }
}

/// Checks arguments, each one level higher than the one before it.
#[cycle(walk)]
#[tactic(auto, using(crate::proofs::Tests::and_true))]
fn arguments(at: At<'_>, values: &[CoreExp], walk: &mut Walk) -> Result<(), NotTame>
    ensures { OnOk result (tame_args (env_at at.entry) (reads_at at.entry) (args values.now) at.entry.level ≡ true) }
{
    let mut level = at.level;
    let mut left = values;
    while let [first, rest @ ..] = left {
        expression(At { level, ..at }, first, walk)?;
        level = walk.above(level, 1)?;
        left = rest;
    }
    Ok(())
}

/// Checks the body of a VALOF, in which only RESULTIS is allowed.
#[cycle(walk)]
fn valof_body(at: At<'_>, body: &Block, walk: &mut Walk) -> Result<(), NotTame>
    ensures { OnOk result (ValofPasses (env_at at.entry) (reads_at at.entry) (block_of body.now) at.entry.level) }
{
    let inside = At {
        exits: Exits {
            in_loop: false,
            in_cases: false,
            in_valof: true,
            may_return: false,
            labels: &[],
        },
        ..at
    };
    block(inside, body, walk)
}

/// Checks the VALOF with this number.
#[cycle(walk)]
#[tactic(auto, using(crate::proofs::Valofs::valof_true))]
fn valof(at: At<'_>, number: usize, walk: &mut Walk) -> Result<(), NotTame>
    ensures { OnOk result (ExpPasses at.entry (tree.Valof number)) }
{
    if number < at.first {
        return walk.stop(Cause::Size);
    }
    let index = number - at.first;
    if index >= at.valofs.len() {
        return walk.stop(Cause::Size);
    }
    let first = walk.above(number, 1)?;
    let inside = At {
        first,
        valofs: &at.valofs[index + 1..],
        ..at
    };
    let outside = walk.enter(BodyOf::Valof(number));
    valof_body(inside, &at.valofs[index].body, walk)?;
    walk.spot = outside;
    Ok(())
}

/// Checks a whole expression or test.
#[cycle(walk)]
fn whole(at: At<'_>, e: &CoreExp, walk: &mut Walk) -> Result<(), NotTame>
    ensures { OnOk result (ExpPasses at.entry (exp e.now)) }
{
    expression(at, e, walk)?;
    walk.passed();
    Ok(())
}

/// The level at which the sides of an assignment to this address are computed. An error if it overflows.
fn level_of_sides(at: At<'_>, address: &CoreExp, walk: &Walk) -> Result<usize, NotTame>
    ensures { IfOk result (λ r. r ≡ side_level (exp address.now) at.entry.level) }
{
    match operand(address) {
        Some(_) => Ok(at.level),
        None => walk.above(at.level, 1),
    }
}

/// Checks an assignment.
#[cycle(walk)]
#[tactic(auto, using(crate::proofs::Tests::and_true))]
fn assign(at: At<'_>, value: &CoreExp, address: &CoreExp, walk: &mut Walk) -> Result<(), NotTame>
    ensures { OnOk result (CommandPasses at.entry (forms.Assign (exp value.now) (exp address.now))) }
{
    writing(at, address, walk)?;
    let level = level_of_sides(at, address, walk)?;
    whole(At { level, ..at }, value, walk)
}

/// Checks a test and the block that it controls.
#[cycle(walk)]
#[tactic(auto, using(crate::proofs::Tests::and_true))]
fn tested(at: At<'_>, test: &CoreExp, body: &Block, walk: &mut Walk) -> Result<(), NotTame>
    ensures { OnOk result ((exp_passes at.entry (exp test.now) && block_passes at.entry (block_of body.now)) ≡ true) }
{
    whole(at, test, walk)?;
    block(at, body, walk)
}

/// Checks the body of a REPEATWHILE and its test.
#[cycle(walk)]
#[tactic(auto, using(crate::proofs::Tests::and_true))]
fn repeated(at: At<'_>, body: &Block, test: &CoreExp, walk: &mut Walk) -> Result<(), NotTame>
    ensures { OnOk result ((exp_passes at.entry (exp test.now) && block_passes at.entry (block_of body.now)) ≡ true) }
{
    block(at, body, walk)?;
    whole(at, test, walk)
}

/// Checks a TEST.
#[cycle(walk)]
#[tactic(auto, using(crate::proofs::Tests::and_true))]
fn tested_both(
    at: At<'_>,
    test: &CoreExp,
    this: &Block,
    that: &Block,
    walk: &mut Walk,
) -> Result<(), NotTame>
    ensures { OnOk result (CommandPasses at.entry (forms.Test (exp test.now) (block_of this.now) (block_of that.now))) }
{
    whole(at, test, walk)?;
    block(at, this, walk)?;
    block(at, that, walk)
}

/// Checks the body of a FOR whose variable holds this.
#[cycle(walk)]
#[tactic(auto, using(crate::proofs::Loops::round_true, crate::proofs::Knowledge::one_pushed))]
fn round(at: At<'_>, holds: Held, body: &Block, walk: &mut Walk) -> Result<(), NotTame>
    ensures { OnOk result (round_passes at.entry (held_of holds) (block_of body.now) ≡ true) }
{
    let level = walk.above(at.level, 2)?;
    let mut reads = Vec::from_slice(at.around.alloc, at.reads)?;
    reads.push(Entry::One(at.level, holds))?;
    let inside = At {
        reads: reads.as_slice(),
        level,
        ..at
    };
    block(inside, body, walk)
}

/// Checks the limit of a FOR whose variable may be any word.
#[cycle(walk)]
#[tactic(auto, using(crate::proofs::Loops::limit_true, crate::proofs::Knowledge::one_pushed))]
fn limit(at: At<'_>, e: &CoreExp, walk: &mut Walk) -> Result<(), NotTame>
    ensures { OnOk result (tame_exp (env_at at.entry) (and_also at.entry.level AnyWord (reads_at at.entry)) (exp e.now) (at.entry.level + 2) ≡ true) }
{
    let level = walk.above(at.level, 2)?;
    let mut reads = Vec::from_slice(at.around.alloc, at.reads)?;
    reads.push(Entry::One(at.level, Held::Word))?;
    let inside = At {
        reads: reads.as_slice(),
        level,
        ..at
    };
    whole(inside, e, walk)
}

/// Checks the start, the limit and the body of a FOR whose variable may be any word.
#[cycle(walk)]
#[tactic(auto, using(crate::proofs::Loops::plain_true))]
fn plain_rounds(at: At<'_>, steps: Steps<'_>, body: &Block, walk: &mut Walk) -> Result<(), NotTame>
    ensures { OnOk result (plain_passes at.entry (exp steps.entry.start.now) (exp steps.entry.limit.now) (block_of body.now) ≡ true) }
{
    let level = walk.above(at.level, 2)?;
    whole(At { level, ..at }, steps.start, walk)?;
    limit(at, steps.limit, walk)?;
    round(at, Held::Word, body, walk)
}

/// Checks the body of a FOR whose variable is within bounds. Its start and limit are of constants and such variables.
#[cycle(walk)]
fn counted_rounds(at: At<'_>, all: Bounds, body: &Block, walk: &mut Walk) -> Result<(), NotTame>
    ensures { OnOk result (round_passes at.entry (tame.held_between (bounds_in all)) (block_of body.now) ≡ true) }
{
    walk.passed();
    walk.passed();
    round(at, Held::Between(all), body, walk)
}

/// Checks what remains of a FOR, if the bounds of its variable are found.
#[cycle(walk)]
#[tactic(auto, using(crate::proofs::Loops::counted_true, crate::proofs::Loops::uncounted_true))]
fn rounds(
    at: At<'_>,
    steps: Steps<'_>,
    counts: Option<Bounds>,
    body: &Block,
    walk: &mut Walk,
) -> Result<(), NotTame>
    ensures { OnOk result (rounds_pass at.entry (bounds_found counts) (exp steps.entry.start.now) (exp steps.entry.limit.now) (block_of body.now) ≡ true) }
{
    let Some(all) = counts else {
        return plain_rounds(at, steps, body, walk);
    };
    let began = walk.spot;
    match counted_rounds(at, all, body, walk) {
        Ok(()) => Ok(()),
        Err(stop) => {
            if !walk.goes_back(at.level, began) {
                return Err(stop);
            }
            plain_rounds(at, steps, body, walk)
        }
    }
}

/// The bounds of a FOR's variable.
#[tactic(auto, using(crate::proofs::Loops::counts_found))]
fn counts_of(at: At<'_>, steps: Steps<'_>) -> Result<Option<Bounds>, NotTame>
    ensures { IfOk result (λ b. bounds_found b
        ≡ tame.counted (tame.bounds_of (reads_at at.entry) (exp steps.entry.start.now))
        (tame.bounds_of (reads_at at.entry) (exp steps.entry.limit.now)) steps.entry.by) }
{
    let start = bounds_of(at, steps.start)?;
    let limit = bounds_of(at, steps.limit)?;
    Ok(counted(start, limit, steps.by)?)
}

/// Checks a FOR with this body.
#[cycle(walk)]
#[tactic(auto, using(crate::proofs::Loops::for_true))]
fn for_loop(at: At<'_>, steps: Steps<'_>, body: &Block, walk: &mut Walk) -> Result<(), NotTame>
    ensures { OnOk result (CommandPasses at.entry (forms.For (exp steps.entry.start.now) (exp steps.entry.limit.now) steps.entry.by (block_of body.now))) }
{
    let level = walk.above(at.level, 2)?;
    walk.needs(level, at.around.size)?;
    let _number = number(steps.by);
    let counts = counts_of(at, steps)?;
    let looped = At {
        exits: Exits {
            in_loop: true,
            ..at.exits
        },
        ..at
    };
    rounds(looped, steps, counts, body, walk)
}

/// Checks the body of a FOR that can't be left and whose variable is within bounds.
#[cycle(walk)]
#[tactic(auto, using(crate::proofs::Loops::closed_true))]
fn closed_rounds(at: At<'_>, all: Bounds, body: &Block, walk: &mut Walk) -> Result<(), NotTame>
    ensures { OnOk result (closed_passes at.entry (bounds_in all) (block_of body.now) ≡ true) }
{
    let level = walk.above(at.level, 2)?;
    walk.needs(level, at.around.size)?;
    let closed = At {
        exits: Exits {
            in_loop: false,
            in_cases: false,
            in_valof: false,
            may_return: false,
            labels: &[],
        },
        ..at
    };
    counted_rounds(closed, all, body, walk)
}

/// The cells of vectors that a FOR fills with a block that declares nothing, if its step is 1 and the bounds of its variable are these.
#[tactic(auto, using(crate::proofs::Loops::filled_found))]
fn filled_cells(at: At<'_>, steps: Steps<'_>, body: &Block) -> Result<Vec<Entry>, NotTame>
    ensures { IfOk result (λ more. FillsCells at.entry
        (forms.For (exp steps.entry.start.now) (exp steps.entry.limit.now) steps.entry.by (block_of body.now)) more.items) }
{
    let none = Vec::new(at.around.alloc);
    if !body.declarations.is_empty() {
        return Ok(none);
    }
    if !has_no_entry(&body.list) {
        return Ok(none);
    }
    let Some(first) = bounds_of(at, steps.start)? else {
        return Ok(none);
    };
    let Some(last) = bounds_of(at, steps.limit)? else {
        return Ok(none);
    };
    let rounds = Rounds {
        variable: at.level,
        first: first.greatest,
        last: last.least,
    };
    filled_by(at, rounds, &body.list)
}

/// Checks a FOR that fills cells of vectors. `None` if it doesn't, or may be left before its end.
#[cycle(walk)]
#[tactic(auto, using(crate::proofs::Loops::filling_true))]
fn filling_for(
    at: At<'_>,
    steps: Steps<'_>,
    body: &Block,
    walk: &mut Walk,
) -> Result<Option<Vec<Entry>>, NotTame>
    ensures { IfOk result (λ o. IfSome o (λ more. IsFilling at.entry
        (forms.For (exp steps.entry.start.now) (exp steps.entry.limit.now) steps.entry.by (block_of body.now)) more.items)) }
{
    if steps.by != 1 {
        return Ok(None);
    }
    let more = filled_cells(at, steps, body)?;
    if more.is_empty() {
        return Ok(None);
    }
    let Some(all) = counts_of(at, steps)? else {
        return Ok(None);
    };
    let began = walk.spot;
    match closed_rounds(at, all, body, walk) {
        Ok(()) => Ok(Some(more)),
        Err(stop) => {
            if !walk.gives_up_filling(at.level, began) {
                return Err(stop);
            }
            Ok(None)
        }
    }
}

/// Checks a command that fills cells of vectors. `None` if it doesn't.
#[cycle(walk)]
fn filling(at: At<'_>, form: &Command, walk: &mut Walk) -> Result<Option<Vec<Entry>>, NotTame>
    ensures { IfOk result (λ o. IfSome o (λ more. IsFilling at.entry (command_view form.now) more.items)) }
{
    match form {
        Command::For {
            start,
            limit,
            by,
            body,
        } => {
            let depth = walk.deeper(at.depth)?;
            let steps = Steps {
                start,
                limit,
                by: by.get(),
            };
            filling_for(At { depth, ..at }, steps, body, walk)
        }
        _ => Ok(None),
    }
}

/// Checks a SWITCHON.
#[cycle(walk)]
#[tactic(auto, using(crate::proofs::Tests::and_true))]
fn switch(at: At<'_>, value: &CoreExp, list: &[ListItem], walk: &mut Walk) -> Result<(), NotTame>
    ensures { OnOk result (CommandPasses at.entry (forms.SwitchOn (exp value.now) (items_view list.now))) }
{
    whole(at, value, walk)?;
    let cases = Exits {
        in_cases: true,
        ..at.exits
    };
    items(At { exits: cases, ..at }, list, walk)
}

/// Checks a command.
#[cycle(walk)]
fn command(at: At<'_>, form: &Command, walk: &mut Walk) -> Result<(), NotTame>
    ensures { OnOk result (CommandPasses at.entry (command_view form.now)) }
{
    let depth = walk.deeper(at.depth)?;
    let at = At { depth, ..at };
    let looped = At {
        exits: Exits {
            in_loop: true,
            ..at.exits
        },
        ..at
    };
    match form {
        Command::Call(e) => whole(at, e, walk),
        Command::Assign { value, address } => assign(at, value, address, walk),
        Command::If(condition, body) => tested(at, &condition.test, body, walk),
        Command::Test(test, this, that) => tested_both(at, test, this, that, walk),
        Command::While(condition, body) => tested(looped, &condition.test, body, walk),
        Command::Repeat(body) => block(looped, body, walk),
        Command::RepeatWhile(body, condition) => { repeated(looped, body, &condition.test, walk) }
        Command::For {
            start,
            limit,
            by,
            body,
        } => {
            let steps = Steps {
                start,
                limit,
                by: by.get(),
            };
            for_loop(at, steps, body, walk)
        }
        Command::SwitchOn(value, list) => switch(at, value, list, walk),
        Command::Break => jump(at.exits.in_loop, walk),
        Command::Loop => jump(at.exits.in_loop, walk),
        Command::EndCase => jump(at.exits.in_cases, walk),
        Command::Return => jump(at.exits.may_return, walk),
        Command::ResultIs(e) => result_is(at, e, walk),
        Command::Finish => Ok(()),
        Command::Goto(label) => goto(at, *label, walk),
        Command::Nested(body) => block(at, body, walk),
    }
}

/// Checks a RESULTIS.
#[cycle(walk)]
#[tactic(auto, using(crate::proofs::Tests::and_true))]
fn result_is(at: At<'_>, e: &CoreExp, walk: &mut Walk) -> Result<(), NotTame>
    ensures { OnOk result (CommandPasses at.entry (forms.ResultIs (exp e.now))) }
{
    jump(at.exits.in_valof, walk)?;
    whole(at, e, walk)
}

/// Checks a command of a list. Returns what is known after it, in addition to what was known before.
#[cycle(walk)]
#[tactic(auto, using(crate::proofs::Loops::plain_next))]
fn plain_command(
    at: At<'_>,
    form: &Command,
    rest: &[ListItem],
    walk: &mut Walk,
) -> Result<Vec<Entry>, NotTame>
    ensures { IfOk result (λ more. ItemPasses at.entry (forms.command (command_view form.now) (items_view rest.now)) (items_view rest.now) more.items) }
{
    command(at, form, walk)?;
    learned(at, form, rest)
}

/// Checks a command of a list, which may be a FOR that fills cells. Returns what is known after it, in addition to what was known before.
#[cycle(walk)]
#[tactic(auto, using(crate::proofs::Loops::filling_next))]
fn next_command(
    at: At<'_>,
    form: &Command,
    rest: &[ListItem],
    walk: &mut Walk,
) -> Result<Vec<Entry>, NotTame>
    ensures { IfOk result (λ more. ItemPasses at.entry (forms.command (command_view form.now) (items_view rest.now)) (items_view rest.now) more.items) }
{
    if has_no_entry(rest) {
        if let Some(more) = filling(at, form, walk)? {
            return Ok(more);
        }
    }
    plain_command(at, form, rest, walk)
}

/// Checks an item of a list. Returns what is known after it, in addition to what was known before.
#[cycle(walk)]
fn item(
    at: At<'_>,
    entry: &ListItem,
    rest: &[ListItem],
    walk: &mut Walk,
) -> Result<Vec<Entry>, NotTame>
    ensures { IfOk result (λ more. ItemPasses at.entry (items_before entry.now (items_view rest.now)) (items_view rest.now) more.items) }
{
    match entry {
        ListItem::Command(form) => next_command(at, form, rest, walk),
        ListItem::Case(_) => Ok(Vec::new(at.around.alloc)),
        ListItem::Default => Ok(Vec::new(at.around.alloc)),
        ListItem::Label(_) => Ok(Vec::new(at.around.alloc)),
    }
}

/// Checks a list, whose labels are added to those around it.
#[cycle(walk)]
#[tactic(auto, using(crate::proofs::Loops::list_true))]
fn items(at: At<'_>, list: &[ListItem], walk: &mut Walk) -> Result<(), NotTame>
    ensures { OnOk result (ListPasses at.entry (items_view list.now)) }
{
    let labels = labels_with(at.around.alloc, list, at.exits.labels)?;
    let inside = At {
        exits: Exits {
            labels: labels.as_slice(),
            ..at.exits
        },
        ..at
    };
    all_items(inside, list, walk)
}

/// Checks the items of a list.
#[cycle(walk)]
fn all_items(at: At<'_>, list: &[ListItem], walk: &mut Walk) -> Result<(), NotTame>
    ensures { OnOk result (ItemsPass at.entry (items_view list.now)) }
{
    let mut reads = Vec::from_slice(at.around.alloc, at.reads)?;
    let mut left = list;
    while let [first, rest @ ..] = left {
        let inside = At {
            reads: reads.as_slice(),
            ..at
        };
        let more = item(inside, first, rest, walk)?;
        reads.extend_from_slice(more.as_slice())?;
        left = rest;
    }
    Ok(())
}

/// Checks the initial values of a declaration.
#[cycle(walk)]
#[tactic(auto, using(crate::proofs::Tests::and_true))]
fn variables(at: At<'_>, all: &[Variable], walk: &mut Walk) -> Result<(), NotTame>
    ensures { OnOk result (tame_variables (env_at at.entry) (reads_at at.entry) (map variable all.now) at.entry.level ≡ true) }
{
    let mut left = all;
    while let [first, rest @ ..] = left {
        initial(at, first, walk)?;
        left = rest;
    }
    Ok(())
}

/// Checks the initial value of a variable.
#[cycle(walk)]
#[tactic(auto, using(crate::proofs::Tests::and_true))]
fn initial(at: At<'_>, declared: &Variable, walk: &mut Walk) -> Result<(), NotTame>
    ensures { OnOk result ((vs : List forms.Variable) → tame_variables (env_at at.entry) (reads_at at.entry) vs at.entry.level ≡ true
        → tame_variables (env_at at.entry) (reads_at at.entry) (variable declared.now ∷ vs) at.entry.level ≡ true) }
{
    match declared {
        Variable::Value(e) => whole(at, e, walk),
        Variable::Vector(_) => Ok(()),
    }
}

/// What is known after declarations, and the level then.
#[derive(Drop)]
struct Declared {
    reads: Vec<Entry>,
    level: usize,
}

/// Checks declarations, of which what holds a vector or a table is kept in the block or not.
#[cycle(walk)]
fn declarations(
    at: At<'_>,
    kept: bool,
    all: &[Declaration],
    walk: &mut Walk,
) -> Result<Declared, NotTame>
    ensures { IfOk result (λ d. AreDeclared at.entry kept (declarations_view all.now) d.reads.items d.level) }
{
    let mut reads = Vec::from_slice(at.around.alloc, at.reads)?;
    let mut level = at.level;
    let mut left = all;
    while let [first, rest @ ..] = left {
        let above = cells_of_all(&first.variables, level, walk)?;
        walk.needs(above, at.around.size)?;
        let inside = At {
            reads: reads.as_slice(),
            level: above,
            ..at
        };
        variables(inside, &first.variables, walk)?;
        set_all(&mut reads, at, kept, &first.variables, level)?;
        level = above;
        left = rest;
    }
    Ok(Declared { reads, level })
}

/// Checks a block, whose vectors and tables are kept or may be assigned.
#[cycle(walk)]
#[tactic(auto, using(crate::proofs::Loops::block_true))]
fn block_as(at: At<'_>, kept: bool, form: &Block, walk: &mut Walk) -> Result<(), NotTame>
    ensures { OnOk result (block_passes_as at.entry kept (block_of form.now) ≡ true) }
{
    let declared = declarations(at, kept, &form.declarations, walk)?;
    let inside = At {
        reads: declared.reads.as_slice(),
        level: declared.level,
        ..at
    };
    items(inside, &form.list, walk)
}

/// Checks a block: first as if its variables that hold vectors and tables were never assigned, and if one is, without that.
#[cycle(walk)]
#[tactic(auto, using(crate::proofs::Loops::kept_true, crate::proofs::Loops::assigned_true))]
pub(crate) fn block(at: At<'_>, form: &Block, walk: &mut Walk) -> Result<(), NotTame>
    ensures { OnOk result (BlockPasses at.entry (block_of form.now)) }
{
    let began = walk.spot;
    match block_as(at, true, form, walk) {
        Ok(()) => Ok(()),
        Err(stop) => {
            if !walk.goes_back(at.level, began) {
                return Err(stop);
            }
            block_as(at, false, form, walk)
        }
    }
}

/// Checks the body of a routine, in which only RETURN is allowed.
pub(crate) fn body(at: At<'_>, form: &Body, walk: &mut Walk) -> Result<(), NotTame>
    ensures { OnOk result (tame.tame_body (env_at at.entry) (reads_at at.entry) (body_of form.now) at.entry.level ≡ true) }
{
    let inside = At {
        exits: Exits {
            in_loop: false,
            in_cases: false,
            in_valof: false,
            may_return: true,
            labels: &[],
        },
        ..at
    };
    match form {
        Body::Value(e) => whole(inside, e, walk),
        Body::Commands(commands) => block(inside, commands, walk),
    }
}
