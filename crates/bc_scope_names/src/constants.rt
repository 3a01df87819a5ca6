//! The values of constant expressions.
ghost use Rattle.std.specs.Prelude.{◌≡◌};
ghost use Rattle.bc_parse_tree.specs.View.{exp_view};
ghost use Rattle.bc_scope_defs.specs.Scoping.{operator, constant_name, constant_unary, constant_binary, constant_in, constant};
ghost use Rattle.bc_scope_names.specs.View.{meant_view, scope_view};

use crate::scope::{Meant, Scope};
use bc_parse_tree::{BinaryOp, Exp, UnaryOp};
use bc_word::{Op, Word, apply};

/// The operator on words that a binary operator of the source computes; `None` for `!`, which reads a cell.
pub fn operator(sign: BinaryOp) -> Option<Op>
    ensures { result ≡ operator sign }
{
    match sign {
        BinaryOp::Equivalent => Some(Op::Equivalent),
        BinaryOp::NotEquivalent => Some(Op::NotEquivalent),
        BinaryOp::Or => Some(Op::Or),
        BinaryOp::And => Some(Op::And),
        BinaryOp::ShiftLeft => Some(Op::ShiftLeft),
        BinaryOp::ShiftRight => Some(Op::ShiftRight),
        BinaryOp::Equal => Some(Op::Equal),
        BinaryOp::NotEqual => Some(Op::NotEqual),
        BinaryOp::Less => Some(Op::Less),
        BinaryOp::GreaterEqual => Some(Op::GreaterEqual),
        BinaryOp::Greater => Some(Op::Greater),
        BinaryOp::LessEqual => Some(Op::LessEqual),
        BinaryOp::Add => Some(Op::Add),
        BinaryOp::Subtract => Some(Op::Subtract),
        BinaryOp::Multiply => Some(Op::Multiply),
        BinaryOp::Divide => Some(Op::Divide),
        BinaryOp::Remainder => Some(Op::Remainder),
        BinaryOp::Index => None,
    }
}

/// The value of a name in a constant expression: only a manifest has one.
fn of_name(meant: Meant) -> Option<Word>
    ensures { result ≡ constant_name (meant_view meant) }
{
    match meant {
        Meant::Constant(n) => Some(Word::new(n)),
        _ => None,
    }
}

/// The value of a unary operator's constant; `None` where the operand has none, and for `!` and `@`.
fn of_unary(sign: UnaryOp, operand: Option<Word>) -> Option<Word>
    ensures { result ≡ constant_unary sign operand }
{
    let operand = operand?;
    match sign {
        UnaryOp::Neg => Some(operand.negated()),
        UnaryOp::Not => Some(operand.complemented()),
        UnaryOp::Load | UnaryOp::Address => None,
    }
}

/// The value of a binary operator's constant; `None` where an operand has none, or on division by zero.
fn of_binary(sign: Option<Op>, left: Option<Word>, right: Option<Word>) -> Option<Word>
    ensures { result ≡ constant_binary sign left right }
{
    apply(sign?, left?, right?)
}

/// The value of a constant expression, by the names in `scope`; `None` if the expression isn't constant.
pub fn constant_in(scope: &Scope<'_>, e: &Exp<'_>) -> Option<Word>
    ensures { result ≡ constant_in (scope_view scope.now) (exp_view e.now) }
{
    match e {
        Exp::Name(name) => of_name(scope.meant_by(name)),
        Exp::Num(number) => Some(*number),
        Exp::Character(byte) => Some(*byte),
        Exp::True => Some(Word::new(65535)),
        Exp::False => Some(Word::new(0)),
        Exp::Unary(sign, operand) => of_unary(*sign, constant_in(scope, operand)),
        Exp::Bin(sign, left, right) => {
            let left = constant_in(scope, left);
            let right = constant_in(scope, right);
            of_binary(operator(*sign), left, right)
        }
        Exp::String(_) | Exp::Table(_) | Exp::Valof(_) | Exp::Cond { .. } | Exp::Call(_, _) => None,
    }
}

/// The value of a constant expression; an expression that isn't constant counts as 0.
pub fn constant(scope: &Scope<'_>, e: &Exp<'_>) -> Word
    ensures { result ≡ constant (scope_view scope.now) (exp_view e.now) }
{
    match constant_in(scope, e) {
        Some(value) => value,
        None => Word::new(0),
    }
}
