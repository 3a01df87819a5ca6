//! The first fault of an expression, and the frame size that it needs. `blocks.rt` says what these functions take and return.
ghost use Rattle.bc_parse_tree.specs.View.{exp_view, exps_view};
ghost use Rattle.bc_scope_defs.specs.FaultsAlong.{constants_fault};
ghost use Rattle.bc_scope_names.specs.View.{scope_view, numbers_view};
ghost use Rattle.bc_scope_faults.specs.Judged.{Passes};
ghost use Rattle.bc_scope_faults.specs.Kept.{Keeps};
ghost use Rattle.bc_scope_faults.specs.Walked.{Walks, Sided};
ghost use Rattle.bc_scope_faults.specs.Walk.{here};
ghost use Rattle.bc_scope_faults.specs.Parts.{of_exp, of_arguments, of_initials, of_operands, of_choice, of_call, constant_fault, of_sides};

use crate::blocks::block;
use crate::context::{CommandContext, ExpressionContext};
use crate::judging::{Allowed, check_address, check_name, level_at, push_width};
use crate::progress::Progress;
use bc_parse_tree::Exp;
use bc_scope_names::{Scope, ScopeError, constant_in, count, sum};

/// Walks an expression.
#[cycle(faults)]
#[tactic(auto, using(crate::proofs::Frames::along, bc_scope_names::proofs::Extends::left, crate::proofs::Kept::keeping))]
pub fn expression<'s>(
    scope: &mut Scope<'s>,
    progress: &mut Progress,
    context: ExpressionContext,
    e: &Exp<'s>,
) -> Result<u64, ScopeError<'s>>
    ensures answer { Walks result progress.old progress.new (of_exp context.in_constant (exp_view e.now) context.level (here scope.old progress.old)) }
    ensures kept { Keeps result scope.old scope.new }
{
    match e {
        Exp::Name(name) => {
            check_name(context.in_constant, name, scope.meant_by(name))?;
            Ok(0)
        }
        Exp::Num(_) | Exp::Character(_) | Exp::True | Exp::False => Ok(0),
        Exp::String(_) => {
            progress.at = progress.at.after_place()?;
            Ok(0)
        }
        Exp::Table(values) => {
            constants(scope, *progress, values)?;
            progress.at = progress.at.after_place()?;
            Ok(0)
        }
        Exp::Valof(body) => {
            let mark = scope.mark();
            scope.enter_valof()?;
            progress.at = progress.at.after_valof()?;
            let inside = CommandContext {
                allowed: Allowed::valof(),
                level: context.level,
            };
            let width = block(scope, progress, inside, body)?;
            scope.leave(mark);
            Ok(width)
        }
        Exp::Unary(sign, operand) => {
            let width = expression(scope, progress, context, operand)?;
            check_address(scope, context.in_constant, *sign, operand)?;
            Ok(width)
        }
        Exp::Bin(_, left, right) => operands(scope, progress, context, left, right),
        Exp::Cond { test, this, that } => choice(scope, progress, context, test, this, that),
        Exp::Call(routine, values) => call(scope, progress, context, routine, values),
    }
}

/// Both operands of an operator, each one level above it.
#[cycle(faults)]
#[tactic(auto, using(crate::proofs::Frames::frames_along, crate::proofs::Kept::keeping))]
fn operands<'s>(
    scope: &mut Scope<'s>,
    progress: &mut Progress,
    context: ExpressionContext,
    left: &Exp<'s>,
    right: &Exp<'s>,
) -> Result<u64, ScopeError<'s>>
    ensures answer { Walks result progress.old progress.new
        (of_operands context.in_constant (exp_view left.now) (exp_view right.now) context.level (here scope.old progress.old)) }
    ensures kept { Keeps result scope.old scope.new }
{
    let above = ExpressionContext {
        in_constant: context.in_constant,
        level: sum(context.level, 1)?,
    };
    let left = expression(scope, progress, above, left)?;
    let right = expression(scope, progress, above, right)?;
    Ok(sum(context.level, 2)?.max(left.max(right)))
}

/// `test -> this, that`, all at the same level.
#[cycle(faults)]
#[tactic(auto, using(crate::proofs::Frames::frames_along, crate::proofs::Kept::keeping))]
fn choice<'s>(
    scope: &mut Scope<'s>,
    progress: &mut Progress,
    context: ExpressionContext,
    test: &Exp<'s>,
    this: &Exp<'s>,
    that: &Exp<'s>,
) -> Result<u64, ScopeError<'s>>
    ensures answer { Walks result progress.old progress.new
        (of_choice context.in_constant (exp_view test.now) (exp_view this.now) (exp_view that.now) context.level (here scope.old progress.old)) }
    ensures kept { Keeps result scope.old scope.new }
{
    let test = expression(scope, progress, context, test)?;
    let this = expression(scope, progress, context, this)?;
    let that = expression(scope, progress, context, that)?;
    Ok(test.max(this.max(that)))
}

/// Walks a call, in an expression or as a command. Arguments begin two cells above the level, and the routine's value is
/// computed above them.
#[cycle(faults)]
#[tactic(auto, using(crate::proofs::Frames::along, crate::proofs::Kept::keeping))]
pub fn call<'s>(
    scope: &mut Scope<'s>,
    progress: &mut Progress,
    context: ExpressionContext,
    called: &Exp<'s>,
    values: &[Exp<'s>],
) -> Result<u64, ScopeError<'s>>
    ensures answer { Walks result progress.old progress.new
        (of_call context.in_constant (exp_view called.now) (exps_view values.now) context.level (here scope.old progress.old)) }
    ensures kept { Keeps result scope.old scope.new }
{
    let first = sum(context.level, 2)?;
    let above = sum(first, count(values))?;
    let called = expression(
        scope,
        progress,
        ExpressionContext {
            in_constant: context.in_constant,
            level: above,
        },
        called,
    )?;
    let values = arguments(
        scope,
        progress,
        ExpressionContext {
            in_constant: context.in_constant,
            level: first,
        },
        values,
    )?;
    Ok(above.max(values.max(called)))
}

/// Arguments, each one level above the one before it. The context is that of the first.
#[cycle(faults)]
#[tactic(auto, using(crate::proofs::Frames::along, crate::proofs::Kept::keeping))]
fn arguments<'s>(
    scope: &mut Scope<'s>,
    progress: &mut Progress,
    context: ExpressionContext,
    list: &[Exp<'s>],
) -> Result<u64, ScopeError<'s>>
    ensures answer { Walks result progress.old progress.new
        (of_arguments context.in_constant (exps_view list.now) context.level (here scope.old progress.old)) }
    ensures kept { Keeps result scope.old scope.new }
{
    let mut width = 0u64;
    let mut above = context.level;
    for e in list {
        let at = ExpressionContext {
            in_constant: context.in_constant,
            level: above,
        };
        width = width.max(expression(scope, progress, at, e)?);
        above = sum(above, 1)?;
    }
    Ok(width)
}

/// Walks a constant: first the faults inside it, then `NotConstant`. It takes no numbers, so it is walked with a copy of the
/// progress.
#[cycle(faults)]
#[tactic(auto, using(crate::proofs::Frames::along, crate::proofs::Kept::keeping))]
pub fn check_constant<'s>(
    scope: &mut Scope<'s>,
    progress: Progress,
    e: &Exp<'s>,
) -> Result<(), ScopeError<'s>>
    ensures answer { Passes result (constant_fault (exp_view e.now) (here scope.old progress)) }
    ensures kept { Keeps result scope.old scope.new }
{
    let mut apart = progress;
    let context = ExpressionContext {
        in_constant: true,
        level: 0,
    };
    expression(scope, &mut apart, context, e)?;
    match constant_in(scope, e) {
        Some(_) => Ok(()),
        None => Err(ScopeError::NotConstant),
    }
}

/// The constants of a TABLE.
#[inline(never)]
#[cycle(faults)]
#[tactic(auto, using(crate::proofs::Frames::along, crate::proofs::Kept::keeping))]
fn constants<'s>(
    scope: &mut Scope<'s>,
    progress: Progress,
    list: &[Exp<'s>],
) -> Result<(), ScopeError<'s>>
    ensures answer { Passes result (constants_fault (scope_view scope.old) (numbers_view progress.at) (exps_view list.now)) }
    ensures kept { Keeps result scope.old scope.new }
{
    for e in list {
        check_constant(scope, progress, e)?;
    }
    Ok(())
}

/// Walks one side of an assignment, each expression at its level in `levels`. Returns the frame size that each needs.
#[cycle(faults)]
#[tactic(auto, using(crate::proofs::Kept::keeping))]
pub fn sides<'s>(
    scope: &mut Scope<'s>,
    progress: &mut Progress,
    list: &[Exp<'s>],
    levels: &[u64],
) -> Result<Vec<u64>, ScopeError<'s>>
    ensures answer { Sided result progress.old progress.new (of_sides (exps_view list.now) levels.now (here scope.old progress.old)) }
    ensures kept { Keeps result scope.old scope.new }
{
    let mut widths = Vec::new(scope.alloc());
    let mut i = 0u64;
    for e in list {
        let context = ExpressionContext {
            in_constant: false,
            level: level_at(levels, i),
        };
        let width = expression(scope, progress, context, e)?;
        push_width(&mut widths, levels, i, width)?;
        i = sum(i, 1)?;
    }
    Ok(widths)
}

/// Walks the initial values of variables, all at the same level.
#[cycle(faults)]
#[tactic(auto, using(crate::proofs::Frames::along, crate::proofs::Kept::keeping))]
pub fn initials<'s>(
    scope: &mut Scope<'s>,
    progress: &mut Progress,
    list: &[Exp<'s>],
    level: u64,
) -> Result<u64, ScopeError<'s>>
    ensures answer { Walks result progress.old progress.new (of_initials (exps_view list.now) level (here scope.old progress.old)) }
    ensures kept { Keeps result scope.old scope.new }
{
    let context = ExpressionContext {
        in_constant: false,
        level,
    };
    let mut width = 0u64;
    for e in list {
        width = width.max(expression(scope, progress, context, e)?);
    }
    Ok(width)
}
