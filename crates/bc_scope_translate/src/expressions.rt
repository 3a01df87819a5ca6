//! The translation of expressions. The bodies of VALOFs are skipped: `places_and_valofs.rt` translates them.
ghost use Rattle.std.specs.Prelude.{◌≡◌, IfOk};
ghost use Rattle.bc_core.specs.Tree.{Call, Place, Valof};
ghost use Rattle.bc_core.specs.View.{exp, args};
ghost use Rattle.bc_parse_tree.specs.View.{exp_view, exps_view, block_view};
ghost use Rattle.bc_scope_defs.specs.Numbering.{following, after_all, after_block};
ghost use Rattle.bc_scope_defs.specs.Scope.{after_place, after_valof};
ghost use Rattle.bc_scope_defs.specs.Translation.{forms, core_arguments, plain};
ghost use Rattle.bc_scope_names.specs.View.{scope_view};
ghost use Rattle.bc_scope_translate.specs.Next.{next_numbers};
ghost use Rattle.bc_scope_translate.specs.Seen.{Translates, formed_view};

use crate::forms::{Formed, of_binary, of_name, of_unary};
use crate::numbering::NextNumbers;
use bc_core::CoreExp;
use bc_parse_tree::{Block, Exp};
use bc_scope_names::{Scope, operator, short};
use bc_word::{Memory, Word};

/// A call of `routine` with these arguments.
fn called(values: Vec<CoreExp>, routine: Box<CoreExp>) -> CoreExp
    ensures { exp result ≡ Call (args values.items) (exp routine.value) }
{
    CoreExp::Call(values, routine)
}

/// Translates a string or a TABLE, to the address of its place.
fn place(at: &mut NextNumbers<'_, '_>) -> Result<Formed, Memory>
    ensures { Translates formed_view result (plain (Place (next_numbers at.old).place)) at.new (after_place (next_numbers at.old)) }
{
    let numbers = at.count()?;
    *at = NextNumbers::new(numbers.after_place()?);
    Ok(Formed::Plain(CoreExp::Place(short(numbers.place)?)))
}

/// Translates a VALOF, to its number. Skips its body.
fn valof<'t, 's>(at: &mut NextNumbers<'t, 's>, body: &'t Block<'s>) -> Result<Formed, Memory>
    ensures { Translates formed_view result (plain (Valof (next_numbers at.old).valof)) at.new
        (after_block (after_valof (next_numbers at.old)) (block_view body.now)) }
{
    let numbers = at.count()?;
    *at = NextNumbers::after_body(numbers.after_valof()?, body);
    Ok(Formed::Plain(CoreExp::Valof(short(numbers.valof)?)))
}

/// Translates an expression, and moves the numbers past it. Fails with `Memory` when an allocation fails or a number exceeds
/// 65,535.
#[cycle(expressions)]
pub fn expression<'t, 's>(
    scope: &Scope<'s>,
    at: &mut NextNumbers<'t, 's>,
    e: &'t Exp<'s>,
) -> Result<Formed, Memory>
    ensures { Translates formed_view result (forms (scope_view scope.now) (next_numbers at.old) (exp_view e.now)) at.new
        (following (next_numbers at.old) (exp_view e.now)) }
{
    match e {
        Exp::Name(name) => of_name(scope.meant_by(name)),
        Exp::Num(number) | Exp::Character(number) => Ok(Formed::Plain(CoreExp::Num(*number))),
        Exp::True => Ok(Formed::Plain(CoreExp::Num(Word::new(65535)))),
        Exp::False => Ok(Formed::Plain(CoreExp::Num(Word::new(0)))),
        Exp::String(_) | Exp::Table(_) => place(at),
        Exp::Valof(body) => valof(at, body),
        Exp::Unary(sign, operand) => {
            let operand = expression(scope, at, operand)?;
            of_unary(scope.alloc(), *sign, operand)
        }
        Exp::Bin(sign, left, right) => {
            let left = boxed(scope, at, left)?;
            let right = boxed(scope, at, right)?;
            Ok(of_binary(operator(*sign), left, right))
        }
        Exp::Cond { test, this, that } => {
            let test = boxed(scope, at, test)?;
            let this = boxed(scope, at, this)?;
            let that = boxed(scope, at, that)?;
            Ok(Formed::Plain(CoreExp::Cond(test, this, that)))
        }
        Exp::Call(routine, values) => {
            let routine = boxed(scope, at, routine)?;
            let values = arguments(scope, at, values)?;
            Ok(Formed::Plain(called(values, routine)))
        }
    }
}

/// Translates an expression to its value, and moves the numbers past it. Fails with `Memory` when an allocation fails or a
/// number exceeds 65,535.
#[cycle(expressions)]
pub fn value<'t, 's>(
    scope: &Scope<'s>,
    at: &mut NextNumbers<'t, 's>,
    e: &'t Exp<'s>,
) -> Result<CoreExp, Memory>
    ensures { Translates exp result (forms (scope_view scope.now) (next_numbers at.old) (exp_view e.now)).content at.new
        (following (next_numbers at.old) (exp_view e.now)) }
{
    let formed = expression(scope, at, e)?;
    formed.content(scope.alloc())
}

/// The same in a box.
#[cycle(expressions)]
fn boxed<'t, 's>(
    scope: &Scope<'s>,
    at: &mut NextNumbers<'t, 's>,
    e: &'t Exp<'s>,
) -> Result<Box<CoreExp>, Memory>
    ensures { Translates (λ b. exp b.value) result (forms (scope_view scope.now) (next_numbers at.old) (exp_view e.now)).content at.new
        (following (next_numbers at.old) (exp_view e.now)) }
{
    let value = value(scope, at, e)?;
    Ok(Box::new(scope.alloc(), value)?)
}

/// Translates the arguments of a call.
#[cycle(expressions)]
fn arguments<'t, 's>(
    scope: &Scope<'s>,
    at: &mut NextNumbers<'t, 's>,
    list: &'t [Exp<'s>],
) -> Result<Vec<CoreExp>, Memory>
    ensures { Translates (λ es. args es.items) result (core_arguments (scope_view scope.now) (next_numbers at.old) (exps_view list.now)) at.new
        (after_all (next_numbers at.old) (exps_view list.now)) }
{
    let mut values = Vec::with_capacity(scope.alloc(), list.len())?;
    for e in list {
        values.push(value(scope, at, e)?)?;
    }
    Ok(values)
}

/// Translates a call, and moves the numbers past it. The routine is translated before the arguments. Fails with `Memory` when an
/// allocation fails or a number exceeds 65,535.
#[inline(never)]
pub fn call<'t, 's>(
    scope: &Scope<'s>,
    at: &mut NextNumbers<'t, 's>,
    routine: &'t Exp<'s>,
    values: &'t [Exp<'s>],
) -> Result<CoreExp, Memory>
    ensures { Translates exp result
        (Call (core_arguments (scope_view scope.now) (following (next_numbers at.old) (exp_view routine.now)) (exps_view values.now))
        (forms (scope_view scope.now) (next_numbers at.old) (exp_view routine.now)).content) at.new
        (after_all (following (next_numbers at.old) (exp_view routine.now)) (exps_view values.now)) }
{
    let routine = boxed(scope, at, routine)?;
    let values = arguments(scope, at, values)?;
    Ok(called(values, routine))
}
