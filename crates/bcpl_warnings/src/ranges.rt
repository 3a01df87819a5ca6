//! Warnings on two relations of one variable that together are always true, or never.

use crate::arithmetic::signed;
use crate::found::Found;
use crate::known::Known;
use bc_parse_tree::BinaryOp;
use bcpl_catalogue::ids::{MEETS_BOTH, MEETS_ONE};
use bcpl_index::Form;

/// What a relation of a variable to a number allows: the numbers from a limit on, or those up to one.
#[derive(Clone, Copy)]
struct Bound {
    name: usize,
    limit: i32,
    is_least: bool,
}

/// What the relation at a node allows, if it compares a variable with a number that is written out.
fn bound_at(known: &Known<'_, '_>, at: usize) -> Option<Bound> {
    let (left, right) = (known.tree.first(at), known.tree.second(at));
    let Form::Bin(sign) = known.tree.form(at) else {
        return None;
    };
    if !known.is_written(right) {
        return None;
    }
    let name = known.kinds.names.index_at(left)?;
    let number = signed(known.kinds.value(right)?);
    let (limit, is_least) = match sign {
        BinaryOp::Greater => (number.saturating_add(1), true),
        BinaryOp::GreaterEqual => (number, true),
        BinaryOp::Less => (number.saturating_sub(1), false),
        BinaryOp::LessEqual => (number, false),
        _ => return None,
    };
    Some(Bound {
        name,
        limit,
        is_least,
    })
}

/// Whether two bounds on one variable exclude each other, or with `|` leave nothing out.
fn is_constant(one: &Bound, other: &Bound, is_or: bool) -> bool {
    let (least, most) = if one.is_least {
        (one.limit, other.limit)
    } else {
        (other.limit, one.limit)
    };
    if one.name != other.name || one.is_least == other.is_least {
        false
    } else if is_or {
        least <= most.saturating_add(1)
    } else {
        least > most
    }
}

/// `X < 5 & X > 10`, which is never true, and `X > 5 | X < 10`, which always is.
pub fn check_range(known: &Known<'_, '_>, at: usize, sign: BinaryOp) -> Option<Found> {
    let (first, second) = known.sides(at);
    let one = bound_at(known, first)?;
    let other = bound_at(known, second)?;
    let is_or = sign == BinaryOp::Or;
    if !is_constant(&one, &other, is_or) {
        return None;
    }
    let id = if is_or { MEETS_ONE } else { MEETS_BOTH };
    let variable = known.tree.first(first);
    Some(Found::new(id, at).with(first, second).and(variable, at))
}
