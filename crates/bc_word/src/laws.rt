//! Laws of the arithmetic. Each is the contract of a function that does nothing: a proof cites it by the function's name, and a
//! program that calls it gets no code.

ghost use Rattle.std.specs.Prelude.{◌≢◌};
ghost use Rattle.bc_word.specs.Laws.{GivesBack, RemainderOf, ShiftsAre, NegationIs};

use crate::word::Word;

/// Quotient and remainder belong together: `(b / a) * a + b REM a` equals `b`, modulo 65,536.
#[tactic(auto, using(crate::proofs::Division::gives_back))]
pub fn quotient_and_remainder(b: Word, a: Word)
    requires { a ≢ 0 }
    ensures { GivesBack b a }
{}

/// The remainder of `b` by `a` is nearer to 0 than `a`, and is 0 or has the sign of `b`.
#[tactic(auto, using(crate::proofs::Division::remainder_lies))]
pub fn remainder_size_and_sign(b: Word, a: Word)
    requires { a ≢ 0 }
    ensures { RemainderOf b a }
{}

/// Shifts multiply and divide by powers of two. A shift by 16 or more results in 0.
#[tactic(auto, using(crate::proofs::Shifts::shifts))]
pub fn shifts_by_powers(b: Word, places: Word)
    ensures { ShiftsAre b places }
{}

/// A word and its negation add up to 0. The negation is the complement plus one.
#[tactic(auto, using(crate::proofs::Shifts::negation))]
pub fn negation_and_complement(word: Word)
    ensures { NegationIs word }
{}
