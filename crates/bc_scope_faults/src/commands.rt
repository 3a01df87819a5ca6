//! The first fault of a command, and the frame size that it needs. `blocks.rt` says what these functions take and return.
//!
//! Commands with several parts have one function each, whose contract names the parts: then a lemma puts them together.
ghost use Rattle.bc_parse_tree.specs.View.{exp_view, exps_view, command_view, block_view, items_view};
ghost use Rattle.bc_scope_faults.specs.Kept.{Keeps};
ghost use Rattle.bc_scope_faults.specs.Seen.{allowed_view};
ghost use Rattle.bc_scope_faults.specs.Walked.{Walks};
ghost use Rattle.bc_scope_faults.specs.Walk.{here};
ghost use Rattle.bc_scope_faults.specs.Parts.{of_command, of_guarded, of_repeated, of_assignment, of_test, of_counted, of_for, of_for_by, of_switch};

use crate::blocks::{block, items};
use crate::context::{CommandContext, ExpressionContext, ListContext};
use crate::expressions::{call, check_constant, expression, sides};
use crate::judging::{all_have_cells, all_held, check_goto, require_allowed, widest};
use crate::progress::Progress;
use bc_parse_tree::{Block, Command, Exp, Item};
use bc_scope_names::{Meant, Scope, ScopeError, declare_list, labels_in, side_levels, sum};

/// An expression and then a block: IF, UNLESS, WHILE, UNTIL.
#[cycle(faults)]
#[tactic(auto, using(crate::proofs::Frames::along, crate::proofs::Kept::keeping))]
fn guarded<'s>(
    scope: &mut Scope<'s>,
    progress: &mut Progress,
    context: CommandContext,
    test: &Exp<'s>,
    body: &Block<'s>,
) -> Result<u64, ScopeError<'s>>
    ensures answer { Walks result progress.old progress.new
        (of_guarded (allowed_view context.allowed) (exp_view test.now) (block_view body.now) context.level (here scope.old progress.old)) }
    ensures kept { Keeps result scope.old scope.new }
{
    let before = ExpressionContext {
        in_constant: false,
        level: context.level,
    };
    let test = expression(scope, progress, before, test)?;
    let body = block(scope, progress, context, body)?;
    Ok(test.max(body))
}

/// A loop that tests after its command: REPEATWHILE, REPEATUNTIL.
#[cycle(faults)]
#[tactic(auto, using(crate::proofs::Frames::along, crate::proofs::Kept::keeping))]
fn repeated<'s>(
    scope: &mut Scope<'s>,
    progress: &mut Progress,
    context: CommandContext,
    body: &Command<'s>,
    test: &Exp<'s>,
) -> Result<u64, ScopeError<'s>>
    ensures answer { Walks result progress.old progress.new
        (of_repeated (allowed_view context.allowed) (command_view body.now) (exp_view test.now) context.level (here scope.old progress.old)) }
    ensures kept { Keeps result scope.old scope.new }
{
    let inside = CommandContext {
        allowed: context.allowed.in_a_loop(),
        level: context.level,
    };
    let body = command(scope, progress, inside, body)?;
    let after = ExpressionContext {
        in_constant: false,
        level: context.level,
    };
    let test = expression(scope, progress, after, test)?;
    Ok(body.max(test))
}

/// An assignment: its addresses, then its values, then that each address has a cell.
#[inline(never)]
#[cycle(faults)]
#[tactic(auto, using(crate::proofs::Frames::along, crate::proofs::Kept::keeping))]
fn assignment<'s>(
    scope: &mut Scope<'s>,
    progress: &mut Progress,
    places: &[Exp<'s>],
    values: &[Exp<'s>],
    level: u64,
) -> Result<u64, ScopeError<'s>>
    ensures answer { Walks result progress.old progress.new (of_assignment (exps_view places.now) (exps_view values.now) level (here scope.old progress.old)) }
    ensures kept { Keeps result scope.old scope.new }
{
    let levels = side_levels(scope.alloc(), scope, places, level)?;
    let held = all_held(scope.alloc(), scope, places, level)?;
    let addresses = sides(scope, progress, places, &levels)?;
    let contents = sides(scope, progress, values, &levels)?;
    if all_have_cells(scope, places) {
        Ok(widest(&held, &addresses, &contents))
    } else {
        Err(ScopeError::NotAssignable)
    }
}

/// TEST.
#[inline(never)]
#[cycle(faults)]
#[tactic(auto, using(crate::proofs::Frames::frames_along, crate::proofs::Kept::keeping))]
fn tested<'s>(
    scope: &mut Scope<'s>,
    progress: &mut Progress,
    context: CommandContext,
    test: &Exp<'s>,
    this: &Block<'s>,
    that: &Block<'s>,
) -> Result<u64, ScopeError<'s>>
    ensures answer { Walks result progress.old progress.new
        (of_test (allowed_view context.allowed) (exp_view test.now) (block_view this.now) (block_view that.now) context.level (here scope.old progress.old)) }
    ensures kept { Keeps result scope.old scope.new }
{
    let before = ExpressionContext {
        in_constant: false,
        level: context.level,
    };
    let test = expression(scope, progress, before, test)?;
    let this = block(scope, progress, context, this)?;
    let that = block(scope, progress, context, that)?;
    Ok(test.max(this.max(that)))
}

/// The parts of a FOR except its BY.
#[derive(Clone, Copy)]
struct ForParts<'t, 's> {
    variable: &'s [u8],
    start: &'t Exp<'s>,
    limit: &'t Exp<'s>,
    body: &'t Block<'s>,
}

/// FOR without BY.
#[inline(never)]
#[cycle(faults)]
#[tactic(auto, using(crate::proofs::Frames::frames_along, crate::proofs::Kept::keeping))]
fn plain_for<'t, 's>(
    scope: &mut Scope<'s>,
    progress: &mut Progress,
    context: CommandContext,
    parts: ForParts<'t, 's>,
) -> Result<u64, ScopeError<'s>>
    ensures answer { Walks result progress.old progress.new
        (of_for (allowed_view context.allowed) parts.entry.variable.now (exp_view parts.entry.start.now) (exp_view parts.entry.limit.now)
        (block_view parts.entry.body.now) context.level (here scope.old progress.old)) }
    ensures kept { Keeps result scope.old scope.new }
{
    let above = sum(context.level, 2)?;
    let ends = ExpressionContext {
        in_constant: false,
        level: above,
    };
    let start = expression(scope, progress, ends, parts.start)?;
    let limit = expression(scope, progress, ends, parts.limit)?;
    let body = counted(scope, progress, context, parts.variable, parts.body)?;
    Ok(sum(above, 2)?.max(start.max(limit.max(body))))
}

/// FOR with BY.
#[inline(never)]
#[cycle(faults)]
#[tactic(auto, using(crate::proofs::Frames::frames_along, crate::proofs::Kept::keeping))]
fn stepped_for<'t, 's>(
    scope: &mut Scope<'s>,
    progress: &mut Progress,
    context: CommandContext,
    parts: ForParts<'t, 's>,
    by: &Exp<'s>,
) -> Result<u64, ScopeError<'s>>
    ensures answer { Walks result progress.old progress.new
        (of_for_by (allowed_view context.allowed) parts.entry.variable.now (exp_view parts.entry.start.now) (exp_view parts.entry.limit.now)
        (exp_view by.now) (block_view parts.entry.body.now) context.level (here scope.old progress.old)) }
    ensures kept { Keeps result scope.old scope.new }
{
    let above = sum(context.level, 2)?;
    let ends = ExpressionContext {
        in_constant: false,
        level: above,
    };
    let start = expression(scope, progress, ends, parts.start)?;
    let limit = expression(scope, progress, ends, parts.limit)?;
    check_constant(scope, *progress, by)?;
    let body = counted(scope, progress, context, parts.variable, parts.body)?;
    Ok(sum(above, 2)?.max(start.max(limit.max(body))))
}

/// The body of a FOR with this variable. The context is that of the FOR: the variable is at its level, and the limit is in the next
/// cell, so the body is two levels above.
#[cycle(faults)]
#[tactic(auto, using(crate::proofs::Frames::along, bc_scope_names::proofs::Extends::left, crate::proofs::Kept::keeping))]
fn counted<'s>(
    scope: &mut Scope<'s>,
    progress: &mut Progress,
    context: CommandContext,
    variable: &'s [u8],
    body: &Block<'s>,
) -> Result<u64, ScopeError<'s>>
    ensures answer { Walks result progress.old progress.new
        (of_counted (allowed_view context.allowed) variable.entry.now (block_view body.now) context.level (here scope.old progress.old)) }
    ensures kept { Keeps result scope.old scope.new }
{
    let mark = scope.mark();
    scope.declare(variable, Meant::Variable(context.level))?;
    let above = sum(context.level, 2)?;
    let inside = CommandContext {
        allowed: context.allowed.in_a_loop(),
        level: above,
    };
    let width = block(scope, progress, inside, body)?;
    scope.leave(mark);
    Ok(width)
}

/// SWITCHON.
#[inline(never)]
#[cycle(faults)]
#[tactic(auto, using(crate::proofs::Frames::along, crate::proofs::Numberless::numberless, bc_scope_names::proofs::Extends::left, crate::proofs::Kept::keeping))]
fn switch<'s>(
    scope: &mut Scope<'s>,
    progress: &mut Progress,
    context: CommandContext,
    value: &Exp<'s>,
    list: &[Item<'s>],
) -> Result<u64, ScopeError<'s>>
    ensures answer { Walks result progress.old progress.new
        (of_switch (allowed_view context.allowed) (exp_view value.now) (items_view list.now) context.level (here scope.old progress.old)) }
    ensures kept { Keeps result scope.old scope.new }
{
    let before = ExpressionContext {
        in_constant: false,
        level: context.level,
    };
    let value = expression(scope, progress, before, value)?;
    let mark = scope.mark();
    declare_list(scope, progress.at.label, list)?;
    progress.at = progress.at.after_labels(labels_in(list)?)?;
    let of_switch = ListContext {
        cases: true,
        commands: CommandContext {
            allowed: context.allowed.in_a_switch(),
            level: context.level,
        },
    };
    let list = items(scope, progress, of_switch, list)?;
    scope.leave(mark);
    Ok(value.max(list))
}

/// Walks a command.
#[cycle(faults)]
#[tactic(auto, using(crate::proofs::Frames::along, crate::proofs::Kept::keeping))]
pub fn command<'s>(
    scope: &mut Scope<'s>,
    progress: &mut Progress,
    context: CommandContext,
    tree: &Command<'s>,
) -> Result<u64, ScopeError<'s>>
    ensures answer { Walks result progress.old progress.new
        (of_command (allowed_view context.allowed) (command_view tree.now) context.level (here scope.old progress.old)) }
    ensures kept { Keeps result scope.old scope.new }
{
    match tree {
        Command::Assign(places, values) => assignment(
            scope,
            progress,
            places,
            values,
            context.level,
        ),
        Command::Call(routine, values) => {
            let value = ExpressionContext {
                in_constant: false,
                level: context.level,
            };
            call(scope, progress, value, routine, values)
        }
        Command::Block(body) => block(scope, progress, context, body),
        Command::Break | Command::Loop => {
            require_allowed(context.allowed.in_loop)?;
            Ok(0)
        }
        Command::EndCase => {
            require_allowed(context.allowed.in_cases)?;
            Ok(0)
        }
        Command::Return => {
            require_allowed(context.allowed.may_return)?;
            Ok(0)
        }
        Command::Finish => Ok(0),
        Command::ResultIs(value) => {
            let before = ExpressionContext {
                in_constant: false,
                level: context.level,
            };
            let width = expression(scope, progress, before, value)?;
            require_allowed(context.allowed.in_valof)?;
            Ok(width)
        }
        Command::Goto(name) => {
            check_goto(name, scope.meant_by(name))?;
            Ok(0)
        }
        Command::Repeat(body) => {
            let inside = CommandContext {
                allowed: context.allowed.in_a_loop(),
                level: context.level,
            };
            command(scope, progress, inside, body)
        }
        Command::RepeatWhile(body, test) | Command::RepeatUntil(body, test) => {
            repeated(scope, progress, context, body, test)
        }
        Command::If(test, body) | Command::Unless(test, body) => {
            guarded(scope, progress, context, test, body)
        }
        Command::While(test, body) | Command::Until(test, body) => {
            let inside = CommandContext {
                allowed: context.allowed.in_a_loop(),
                level: context.level,
            };
            guarded(scope, progress, inside, test, body)
        }
        Command::Test { test, this, that } => { tested(scope, progress, context, test, this, that) }
        Command::For {
            variable,
            start,
            limit,
            step,
            body,
        } => {
            let parts = ForParts {
                variable,
                start,
                limit,
                body,
            };
            match step {
                None => plain_for(scope, progress, context, parts),
                Some(by) => stepped_for(scope, progress, context, parts, by),
            }
        }
        Command::SwitchOn(value, list) => switch(scope, progress, context, value, list),
    }
}
