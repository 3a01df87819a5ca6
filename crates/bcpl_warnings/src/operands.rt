//! Warnings on relations that are operands of shifts, sums and products.

use crate::conditions::relation_at;
use crate::found::Found;
use crate::known::Known;
use bc_parse_tree::{BinaryOp, UnaryOp};
use bcpl_catalogue::ids::{COUNTED_TRUTH, RELATION_AFTER_SHIFT, RELATION_BEFORE_SHIFT};
use bcpl_index::Form;

/// Whether a node is a relation without parentheses of its own.
fn is_bare_relation(known: &Known<'_, '_>, at: usize) -> bool {
    relation_at(known, at).is_some() && !known.is_parenthesised(at)
}

/// A shift with a relation as an operand that has no parentheses: `X >> 2 > 4` or `A = 1 << 2`.
pub fn check_shifted_relation(known: &Known<'_, '_>, at: usize) -> Option<Found> {
    let (first, second) = known.sides(at);
    if is_bare_relation(known, second) {
        let (left, right) = known.sides(second);
        let found = Found::new(RELATION_AFTER_SHIFT, at).with(first, left);
        return Some(found.and(right, second));
    }
    if is_bare_relation(known, first) {
        let (left, right) = known.sides(first);
        let found = Found::new(RELATION_BEFORE_SHIFT, at).with(left, right);
        return Some(found.and(second, first));
    }
    None
}

/// How far up in a sum a minus is looked for.
const HIGHEST: usize = 100;

/// Whether a node is part of a sum under a minus, which turns -1 into 1.
fn is_negated(known: &Known<'_, '_>, at: usize) -> bool {
    let mut node = at;
    for _ in 0..HIGHEST {
        match known.tree.form_of_parent(node) {
            Form::Unary(UnaryOp::Neg) => return true,
            Form::Bin(BinaryOp::Add) => node = known.tree.parent(node),
            _ => return false,
        }
    }
    false
}

/// Whether a node is a relation whose value isn't negated.
fn is_truth(known: &Known<'_, '_>, at: usize) -> bool {
    relation_at(known, at).is_some() && !is_negated(known, at)
}

/// A sum or product with a relation as an operand.
pub fn check_counted_truth(known: &Known<'_, '_>, at: usize) -> Option<Found> {
    let (first, second) = known.sides(at);
    if is_truth(known, first) {
        Some(Found::new(COUNTED_TRUTH, first))
    } else if is_truth(known, second) {
        Some(Found::new(COUNTED_TRUTH, second))
    } else {
        None
    }
}
