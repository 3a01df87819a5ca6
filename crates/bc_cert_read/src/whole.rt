//! Builds the expression of a node from those of its parts.

ghost use Rattle.std.specs.Prelude.{◌≡◌, map, IfOk};
ghost use Rattle.bc_core.specs.View.{exp};
ghost use Rattle.bc_cert_read.specs.Wholes.{whole as whole_of, leaf as leaf_of, one_of, two_of, three_of, called_of};
ghost use Rattle.bc_cert_read.specs.TreeView.{found};

use crate::Form;
use bc_core::CoreExp;
use bc_word::{Memory, Op};
use std::alloc::Global;

/// The expression of a node with these parts, in the order of the tree. None if a node of this form has another number of parts; a
/// call may have any number but none. Returns `Memory` if an allocation fails.
pub fn whole(alloc: Global, form: Form, parts: Vec<CoreExp>) -> Result<Option<CoreExp>, Memory>
    ensures { IfOk result (λ e. found e ≡ whole_of form (map exp parts.items)) }
{
    match form {
        Form::Num(n) => Ok(leaf(parts, CoreExp::Num(n))),
        Form::Frame(offset) => Ok(leaf(parts, CoreExp::Frame(offset))),
        Form::Glob(n) => Ok(leaf(parts, CoreExp::Glob(n))),
        Form::Place(label) => Ok(leaf(parts, CoreExp::Place(label))),
        Form::Valof(number) => Ok(leaf(parts, CoreExp::Valof(number))),
        Form::Load => match single(parts) {
            Some(e) => Ok(Some(CoreExp::Load(Box::new(alloc, e)?))),
            None => Ok(None),
        },
        Form::Neg => match single(parts) {
            Some(e) => Ok(Some(CoreExp::Neg(Box::new(alloc, e)?))),
            None => Ok(None),
        },
        Form::Not => match single(parts) {
            Some(e) => Ok(Some(CoreExp::Not(Box::new(alloc, e)?))),
            None => Ok(None),
        },
        Form::Bin(op) => pair(alloc, op, parts),
        Form::Cond => choice(alloc, parts),
        Form::Call(_) => call(alloc, parts),
    }
}

/// An expression without parts.
fn leaf(parts: Vec<CoreExp>, e: CoreExp) -> Option<CoreExp>
    ensures { found result ≡ leaf_of (map exp parts.items) (exp e) }
{
    if parts.is_empty() { Some(e) } else { None }
}

/// The only part.
fn single(mut parts: Vec<CoreExp>) -> Option<CoreExp>
    ensures { found result ≡ one_of (map exp parts.items) }
{
    if parts.len() == 1 { parts.pop() } else { None }
}

/// A dyadic operator.
fn pair(alloc: Global, op: Op, mut parts: Vec<CoreExp>) -> Result<Option<CoreExp>, Memory>
    ensures { IfOk result (λ e. found e ≡ two_of op (map exp parts.items)) }
{
    if parts.len() != 2 {
        return Ok(None);
    }
    match (parts.pop(), parts.pop()) {
        (Some(right), Some(left)) => {
            let left = Box::new(alloc, left)?;
            Ok(Some(CoreExp::Bin(op, left, Box::new(alloc, right)?)))
        }
        _ => Ok(None),
    }
}

/// `condition -> this, that`.
fn choice(alloc: Global, mut parts: Vec<CoreExp>) -> Result<Option<CoreExp>, Memory>
    ensures { IfOk result (λ e. found e ≡ three_of (map exp parts.items)) }
{
    if parts.len() != 3 {
        return Ok(None);
    }
    match (parts.pop(), parts.pop(), parts.pop()) {
        (Some(that), Some(this), Some(condition)) => {
            let condition = Box::new(alloc, condition)?;
            let this = Box::new(alloc, this)?;
            Ok(Some(CoreExp::Cond(condition, this, Box::new(alloc, that)?)))
        }
        _ => Ok(None),
    }
}

/// A call: its routine is the last part.
#[tactic(auto, using(bc_core::proofs::Rows::call_view, crate::proofs::Pops::call_popped))]
fn call(alloc: Global, mut parts: Vec<CoreExp>) -> Result<Option<CoreExp>, Memory>
    ensures { IfOk result (λ e. found e ≡ called_of (map exp parts.items)) }
{
    match parts.pop() {
        Some(routine) => Ok(Some(CoreExp::Call(parts, Box::new(alloc, routine)?))),
        None => Ok(None),
    }
}
