//! The conditions of the rules on numbers, operands and expressions, and the words of an instruction.

ghost use Rattle.std.specs.Prelude.{◌≡◌, ◌≤◌};
ghost use Rattle.bc_core.specs.View.{exp};
ghost use Rattle.bc_rules_defs.specs.Piece.{w, operand_words as words_of_operand};
ghost use Rattle.bc_rules_defs.specs.Free.{direct_operand, is_plain_operator as is_plain_of, jumps_at, is_zero as is_zero_of};

use bc_core::{Base, CoreExp, Operand};
use bc_word::{Op, Word};

/// The number of words of an instruction with this number: one up to 511, two from 512 on.
#[inline(always)]
pub fn number_words(number: u64) -> u64
    ensures words { result ≡ w number }
    ensures few { result ≤ 2 }
{
    if number <= 511 { 1 } else { 2 }
}

/// The number of words of an instruction with this operand: one or two. With a label it is always two.
pub fn operand_words(operand: Operand) -> u64
    ensures words { result ≡ words_of_operand operand }
    ensures few { result ≤ 2 }
{
    match operand.base {
        Base::Label => 2,
        Base::Number | Base::P | Base::G => number_words(u64::from(operand.n.get())),
    }
}

/// Whether there is an operand and it is direct: a number or an address rather than the content of a cell.
pub fn is_direct(operand: Option<Operand>) -> bool
    ensures { result ≡ direct_operand operand }
{
    match operand {
        None => false,
        Some(operand) => operand.direct,
    }
}

/// Whether a test that jumps on the truth `sense` jumps if the tested expression is this number.
#[inline(always)]
pub fn jumps(sense: bool, number: Word) -> bool
    ensures { result ≡ jumps_at sense number }
{
    (number.get() != 0) == sense
}

/// Whether a test of an expression with this operator on top may test its value (rule J6). True of all operators but `&` and `|`.
#[inline(always)]
pub fn is_plain_operator(op: Op) -> bool
    ensures { result ≡ is_plain_of op }
{
    match op {
        Op::And | Op::Or => false,
        Op::Multiply | Op::Divide | Op::Remainder | Op::Add | Op::Subtract | Op::Equal => true,
        Op::NotEqual | Op::Less | Op::GreaterEqual | Op::Greater | Op::LessEqual => true,
        Op::ShiftLeft | Op::ShiftRight | Op::NotEquivalent | Op::Equivalent => true,
    }
}

/// Whether an expression is the number 0.
pub fn is_zero(e: &CoreExp) -> bool
    ensures { result ≡ is_zero_of (exp e.now) }
{
    match e {
        CoreExp::Num(number) => number.get() == 0,
        CoreExp::Frame(_)
        | CoreExp::Glob(_)
        | CoreExp::Place(_)
        | CoreExp::Load(_)
        | CoreExp::Neg(_)
        | CoreExp::Not(_)
        | CoreExp::Bin(_, _, _)
        | CoreExp::Cond(_, _, _)
        | CoreExp::Call(_, _)
        | CoreExp::Valof(_) => false,
    }
}
