//! Ranges of leaves. Leaves are the names, numbers, characters, strings and certain words, which trees and tokens have in the same
//! order; so counting them relates a tree to its tokens.

use bc_parse_tree::Exp;

/// The leaves of a construct, numbered from 0 in text order.
#[derive(Clone, Copy)]
pub struct Leaves {
    /// The first leaf.
    pub first: u64,
    /// The last leaf.
    pub last: u64,
    /// The number of unary operators before its first leaf.
    pub signs: u64,
    /// The number of empty argument lists after its last leaf.
    pub calls: u64,
}

impl Leaves {
    /// One leaf.
    pub fn one(leaf: u64) -> Leaves {
        Leaves::words(leaf, leaf)
    }

    /// Leaves without operators before them and argument lists after them.
    pub fn words(first: u64, last: u64) -> Leaves {
        Leaves {
            first,
            last,
            signs: 0,
            calls: 0,
        }
    }

    /// The leaves of an expression.
    pub fn expression(first: u64, last: u64, e: &Exp<'_>) -> Leaves {
        Leaves {
            first,
            last,
            signs: signs_before(e),
            calls: calls_after(e),
        }
    }
}

/// The number of unary operators before the first leaf of an expression.
fn signs_before(e: &Exp<'_>) -> u64 {
    match e {
        Exp::Unary(_, operand) => signs_before(operand).saturating_add(1),
        Exp::Bin(_, left, _) => signs_before(left),
        Exp::Cond { test, .. } => signs_before(test),
        Exp::Call(called, _) => signs_before(called),
        Exp::Name(_)
        | Exp::Num(_)
        | Exp::Character(_)
        | Exp::String(_)
        | Exp::True
        | Exp::False
        | Exp::Table(_)
        | Exp::Valof(_) => 0,
    }
}

/// The number of empty argument lists after the last leaf of an expression.
fn calls_after(e: &Exp<'_>) -> u64 {
    match e {
        Exp::Unary(_, operand) => calls_after(operand),
        Exp::Bin(_, _, right) => calls_after(right),
        Exp::Cond { that, .. } => calls_after(that),
        Exp::Call(called, values) => match values.last() {
            Some(value) => calls_after(value),
            None => calls_after(called).saturating_add(1),
        },
        Exp::Name(_)
        | Exp::Num(_)
        | Exp::Character(_)
        | Exp::String(_)
        | Exp::True
        | Exp::False
        | Exp::Table(_)
        | Exp::Valof(_) => 0,
    }
}
