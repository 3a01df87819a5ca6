//! Lays out the nodes of expressions in one table, parts before wholes, by two loops.
//!
//! The first loop lists the expressions, wholes before parts and the last part first. The second makes their nodes from the end of
//! that list. Neither uses stack in proportion to the depth of the tree.

ghost use Rattle.std.specs.Prelude.{◌≡◌, ◌≤◌, ◌+◌, ◌*◌, ◌^◌, ◌++◌, [], None, map, IfOk, OnOk};
ghost use Rattle.bc_core.specs.View.{exp, args};
ghost use Rattle.bc_core.specs.WellFormed.{nodes_of_args};
ghost use Rattle.bc_select.specs.Order.{Fits, AllFit, ArgumentsPut, PartsPut, listed, in_order_of, from_the_end, node_at, CanFollow};

use crate::node_of_parts::node;
use crate::table::Table;
use bc_core::CoreExp;
use bc_word::Memory;
use std::alloc::Global;

/// An expression at its level.
#[derive(Clone, Copy)]
pub struct AtLevel<'a> {
    /// The expression.
    pub e: &'a CoreExp,
    /// Its level.
    pub level: u64,
}

/// Makes an `AtLevel`.
#[inline(always)]
pub fn at_level<'a>(e: &'a CoreExp, level: u64) -> AtLevel<'a>
    ensures e { exp result.e.now ≡ exp e.now }
    ensures level { result.level ≡ level }
{
    AtLevel { e, level }
}

/// Appends the arguments of a call to the waiting expressions. The first argument is at this level.
fn put_arguments<'a>(
    arguments: &'a [CoreExp],
    level: u64,
    waiting: &mut Vec<AtLevel<'a>>,
) -> Result<(), Memory>
    requires { level + 2 * nodes_of_args (args arguments.now) ≤ 2 ^ 40 }
    ensures { OnOk result (ArgumentsPut waiting.old.items waiting.new.items (args arguments.now) level) }
{
    let Some((first, others)) = arguments.split_first() else {
        return Ok(());
    };
    waiting.push(at_level(first, level))?;
    put_arguments(others, level + 1, waiting)
}

/// Appends all parts of an expression but the last to the waiting expressions, and returns the last.
#[inline(always)]
#[tactic(auto, using(bc_core::proofs::Rows::call_view))]
fn put_parts<'a>(
    whole: AtLevel<'a>,
    waiting: &mut Vec<AtLevel<'a>>,
) -> Result<Option<AtLevel<'a>>, Memory>
    requires { Fits whole }
    ensures { IfOk result (λ last. PartsPut waiting.old.items waiting.new.items last whole.entry) }
{
    let level = whole.level;
    match whole.e {
        CoreExp::Num(_)
        | CoreExp::Frame(_)
        | CoreExp::Glob(_)
        | CoreExp::Place(_)
        | CoreExp::Valof(_) => Ok(None),
        CoreExp::Load(part) => Ok(Some(at_level(part, level))),
        CoreExp::Neg(part) => Ok(Some(at_level(part, level))),
        CoreExp::Not(part) => Ok(Some(at_level(part, level))),
        CoreExp::Bin(_, left, right) => {
            waiting.push(at_level(left, level + 1))?;
            Ok(Some(at_level(right, level + 1)))
        }
        CoreExp::Cond(condition, this, that) => {
            waiting.push(at_level(condition, level))?;
            waiting.push(at_level(this, level))?;
            Ok(Some(at_level(that, level)))
        }
        CoreExp::Call(arguments, routine) => {
            let following = level + 2 + arguments.len() as u64;
            put_arguments(arguments, level + 2, waiting)?;
            Ok(Some(at_level(routine, following)))
        }
    }
}

/// Takes `last` if there is one, else the last of the waiting expressions.
#[inline(always)]
fn take_next<'a>(last: Option<AtLevel<'a>>, waiting: &mut Vec<AtLevel<'a>>) -> Option<AtLevel<'a>>
    ensures same { waiting.old.items ++ listed last.entry ≡ waiting.new.items ++ listed result }
    ensures over { result ≡ None → waiting.new.items ≡ [] }
{
    match last {
        Some(at) => Some(at),
        None => waiting.pop(),
    }
}

/// The initial capacity of lists of expressions: enough for most roots.
pub const ROOM: usize = 16;

/// Lists the waiting expressions with all their parts, wholes before parts and the last part first.
fn ordered<'a>(alloc: Global, mut waiting: Vec<AtLevel<'a>>) -> Result<Vec<AtLevel<'a>>, Memory>
    requires { AllFit waiting.items }
    ensures { IfOk result (λ order. from_the_end order.items ≡ in_order_of waiting.entry.items) }
{
    let mut order = Vec::with_capacity(alloc, ROOM)?;
    let mut next = take_next(None, &mut waiting);
    while let Some(whole) = next {
        order.push(whole)?;
        let last = put_parts(whole, &mut waiting)?;
        next = take_next(last, &mut waiting);
    }
    Ok(order)
}

/// Makes the nodes of these expressions, from the last to the first.
fn filled(alloc: Global, mut order: Vec<AtLevel>) -> Result<Table, Memory>
    requires { CanFollow [] (from_the_end order.items) }
    ensures { IfOk result (λ nodes. nodes ≡ map node_at (from_the_end order.entry.items)) }
{
    let mut nodes = Table::with_capacity(alloc, order.len())?;
    while let Some(whole) = order.pop() {
        let node = node(whole.e, whole.level, &nodes.nodes());
        nodes.push(&node)?;
    }
    Ok(nodes)
}

/// The nodes of the waiting expressions and of all their parts, parts before wholes. Returns `Memory` if an allocation failed.
pub fn lay_out(alloc: Global, waiting: Vec<AtLevel>) -> Result<Table, Memory>
    requires { AllFit waiting.items }
    ensures { IfOk result (λ nodes. nodes ≡ map node_at (in_order_of waiting.entry.items)) }
{
    let order = ordered(alloc, waiting)?;
    filled(alloc, order)
}
