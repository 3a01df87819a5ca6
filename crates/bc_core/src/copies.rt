//! Copies of trees.
ghost use Rattle.std.specs.Prelude.{◌≡◌, IfOk};
ghost use Rattle.bc_core.specs.View.{exp, args, root};

use crate::expression::{CoreExp, Root};
use bc_word::Memory;
use std::alloc::Global;

/// A copy of a root, with the same form, level, sense and trees. Returns `Memory` if an allocation fails.
pub fn copy(alloc: Global, from: &Root) -> Result<Root, Memory>
    ensures { IfOk result (λ new. root new ≡ root from.now) }
{
    match from {
        Root::Value { level, expression } => Ok(Root::Value {
            level: *level,
            expression: copy_expression(alloc, expression)?,
        }),
        Root::Test {
            level,
            sense,
            expression,
        } => Ok(Root::Test {
            level: *level,
            sense: *sense,
            expression: copy_expression(alloc, expression)?,
        }),
        Root::Assign {
            level,
            value,
            address,
        } => {
            let value = copy_expression(alloc, value)?;
            Ok(Root::Assign {
                level: *level,
                value,
                address: copy_expression(alloc, address)?,
            })
        }
    }
}

/// A copy of an expression, in a box.
#[cycle(copying)]
fn boxed(alloc: Global, from: &CoreExp) -> Result<Box<CoreExp>, Memory>
    ensures { IfOk result (λ new. exp new.value ≡ exp from.now) }
{
    let new = copy_expression(alloc, from)?;
    Ok(Box::new(alloc, new)?)
}

/// A copy of an expression. Returns `Memory` if an allocation fails.
#[cycle(copying)]
#[tactic(auto, using(crate::proofs::Rows::call_view))]
pub fn copy_expression(alloc: Global, from: &CoreExp) -> Result<CoreExp, Memory>
    ensures { IfOk result (λ new. exp new ≡ exp from.now) }
{
    match from {
        CoreExp::Num(n) => Ok(CoreExp::Num(*n)),
        CoreExp::Frame(offset) => Ok(CoreExp::Frame(*offset)),
        CoreExp::Glob(n) => Ok(CoreExp::Glob(*n)),
        CoreExp::Place(label) => Ok(CoreExp::Place(*label)),
        CoreExp::Load(e) => Ok(CoreExp::Load(boxed(alloc, e)?)),
        CoreExp::Neg(e) => Ok(CoreExp::Neg(boxed(alloc, e)?)),
        CoreExp::Not(e) => Ok(CoreExp::Not(boxed(alloc, e)?)),
        CoreExp::Bin(op, left, right) => {
            let left = boxed(alloc, left)?;
            Ok(CoreExp::Bin(*op, left, boxed(alloc, right)?))
        }
        CoreExp::Cond(condition, this, that) => {
            let condition = boxed(alloc, condition)?;
            let this = boxed(alloc, this)?;
            Ok(CoreExp::Cond(condition, this, boxed(alloc, that)?))
        }
        CoreExp::Call(arguments, routine) => {
            let arguments = copy_all(alloc, arguments)?;
            Ok(CoreExp::Call(arguments, boxed(alloc, routine)?))
        }
        CoreExp::Valof(number) => Ok(CoreExp::Valof(*number)),
    }
}

/// Copies of expressions, in their order.
#[cycle(copying)]
#[tactic(auto, using(crate::proofs::Rows::args_append, crate::proofs::Rows::args_take))]
fn copy_all(alloc: Global, from: &[CoreExp]) -> Result<Vec<CoreExp>, Memory>
    ensures { IfOk result (λ new. args new.items ≡ args from.now) }
{
    let mut new = Vec::new(alloc);
    for e in from {
        new.push(copy_expression(alloc, e)?)?;
    }
    Ok(new)
}
