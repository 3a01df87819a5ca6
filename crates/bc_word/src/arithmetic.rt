//! The values of operators, and operators with the same or the opposite value.
ghost use Rattle.std.specs.Prelude.{◌≡◌, ◌<◌, ◌↔◌, ℕ, not, Some, IfSome};
ghost use Rattle.bc_word.specs.Words.{value_of, truth as truth_of, holds};
ghost use Rattle.bc_word.specs.Mirror.{mirror_of, IsMirror};

use crate::operator::{Op, Rel};
use crate::word::Word;

/// The word for a truth value: 16 one bits for TRUE, 0 for FALSE.
#[inline(always)]
fn truth(value: bool) -> Word
    ensures { result ≡ truth_of value }
{
    Word::new(if value { 65535 } else { 0 })
}

/// The value of `b op a`, for any two words. Arithmetic wraps at 16 bits.
///
/// Returns `None` for `Op::Divide` and `Op::Remainder` with `a` = 0, and never otherwise.
#[inline(always)]
pub fn apply(op: Op, b: Word, a: Word) -> Option<Word>
    ensures { result ≡ value_of op b a }
{
    let (b, a) = (b.get(), a.get());
    match op {
        Op::Multiply => Some(Word::new(product(b, a))),
        Op::Divide => quotient(b, a),
        Op::Remainder => remainder(b, a),
        Op::Add => Some(Word::new(b.wrapping_add(a))),
        Op::Subtract => Some(Word::new(b.wrapping_sub(a))),
        Op::Equal => Some(truth(b == a)),
        Op::NotEqual => Some(truth(b != a)),
        Op::Less => Some(truth(b.cast_signed() < a.cast_signed())),
        Op::GreaterEqual => Some(truth(b.cast_signed() >= a.cast_signed())),
        Op::Greater => Some(truth(b.cast_signed() > a.cast_signed())),
        Op::LessEqual => Some(truth(b.cast_signed() <= a.cast_signed())),
        Op::ShiftLeft => Some(Word::new(if a > 15 { 0 } else { b.wrapping_shl(a as u32) })),
        Op::ShiftRight => Some(Word::new(if a > 15 { 0 } else { b >> a })),
        Op::And => Some(Word::new(b & a)),
        Op::Or => Some(Word::new(b | a)),
        Op::NotEquivalent => Some(Word::new(b ^ a)),
        Op::Equivalent => Some(Word::new(!(b ^ a))),
    }
}

/// The signed product, wrapped. The unsigned product has the same low 16 bits.
#[inline(always)]
#[tactic(auto, using(crate::proofs::Products::multiplied))]
fn product(b: u16, a: u16) -> u16
    ensures { Some result ≡ value_of Op.Multiply b a }
{
    b.wrapping_mul(a)
}

/// The signed quotient, truncated towards zero and wrapped; `None` for a zero divisor.
#[inline(always)]
fn quotient(dividend: u16, divisor: u16) -> Option<Word>
    ensures { result ≡ value_of Op.Divide dividend divisor }
{
    if divisor == 0 {
        return None;
    }
    let quotient = dividend.cast_signed().wrapping_div(divisor.cast_signed());
    Some(Word::new(quotient.cast_unsigned()))
}

/// The signed remainder, which has the sign of the dividend; `None` for a zero divisor.
#[inline(always)]
fn remainder(dividend: u16, divisor: u16) -> Option<Word>
    ensures { result ≡ value_of Op.Remainder dividend divisor }
{
    if divisor == 0 {
        return None;
    }
    let remainder = dividend.cast_signed().wrapping_rem(divisor.cast_signed());
    Some(Word::new(remainder.cast_unsigned()))
}

/// The operator that has the same value with the operands exchanged: `b op a` equals `a mirror(op) b` for all words.
///
/// Returns `None` for `/`, REM, `-` and the shifts, which have no mirror.
#[tactic(auto, using(crate::proofs::Mirrors::exchanged))]
pub fn mirror(op: Op) -> Option<Op>
    ensures which { result ≡ mirror_of op }
    ensures exchanged { IfSome result (IsMirror op) }
{
    match op {
        Op::Multiply
        | Op::Add
        | Op::Equal
        | Op::NotEqual
        | Op::And
        | Op::Or
        | Op::NotEquivalent
        | Op::Equivalent => Some(op),
        Op::Less => Some(Op::Greater),
        Op::Greater => Some(Op::Less),
        Op::GreaterEqual => Some(Op::LessEqual),
        Op::LessEqual => Some(Op::GreaterEqual),
        Op::Divide | Op::Remainder | Op::Subtract | Op::ShiftLeft | Op::ShiftRight => None,
    }
}

/// The relation that holds for exactly the words for which `rel` doesn't.
pub fn complement(rel: Rel) -> Rel
    ensures { (b : ℕ) → (a : ℕ) → b < 65536 → a < 65536 → holds result b a ≡ not (holds rel b a) }
{
    match rel {
        Rel::Equal => Rel::NotEqual,
        Rel::NotEqual => Rel::Equal,
        Rel::Less => Rel::GreaterEqual,
        Rel::GreaterEqual => Rel::Less,
        Rel::Greater => Rel::LessEqual,
        Rel::LessEqual => Rel::Greater,
    }
}
