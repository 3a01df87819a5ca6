//! Operators, relations, and their numbers as operations of the machine.
ghost use Rattle.std.specs.Prelude.{◌≡◌};
ghost use Rattle.bc_word.specs.Words.{operator_of};

use crate::word::Word;
use thiserror::Error;

/// A dyadic operator of expressions. The order is that of the machine's operations X5 to X21.
#[derive(Clone, Copy, Debug, PartialEq, Eq, Hash, PartialOrd, Ord)]
pub enum Op {
    /// `*`, signed
    Multiply,
    /// `/`, signed, truncated towards zero
    Divide,
    /// `REM`, with the sign of the dividend
    Remainder,
    /// `+`
    Add,
    /// `-`
    Subtract,
    /// `=`
    Equal,
    /// `~=`
    NotEqual,
    /// `<`, signed
    Less,
    /// `>=`, signed
    GreaterEqual,
    /// `>`, signed
    Greater,
    /// `<=`, signed
    LessEqual,
    /// `<<`
    ShiftLeft,
    /// `>>`, which shifts in zeros
    ShiftRight,
    /// `&`, bit by bit
    And,
    /// `|`, bit by bit
    Or,
    /// `NEQV`: exclusive or, bit by bit
    NotEquivalent,
    /// `EQV`: the complement of NEQV
    Equivalent,
}

/// A relation of two words, read as signed numbers.
#[derive(Clone, Copy, Debug, PartialEq, Eq, Hash, PartialOrd, Ord)]
pub enum Rel {
    /// `=`
    Equal,
    /// `~=`
    NotEqual,
    /// `<`
    Less,
    /// `>=`
    GreaterEqual,
    /// `>`
    Greater,
    /// `<=`
    LessEqual,
}

/// A number is not that of an operator, 5 to 21.
#[derive(Clone, Copy, Debug, PartialEq, Eq, Hash, Error)]
#[error("no operator has this number")]
pub struct NotAnOperator;

impl From<Rel> for Op {
    ghost use Rattle.bc_word.specs.Words.{operator_of};

    ghost from_gives = { λ rel op. op ≡ operator_of rel };

    fn from(rel: Rel) -> Op {
        match rel {
            Rel::Equal => Op::Equal,
            Rel::NotEqual => Op::NotEqual,
            Rel::Less => Op::Less,
            Rel::GreaterEqual => Op::GreaterEqual,
            Rel::Greater => Op::Greater,
            Rel::LessEqual => Op::LessEqual,
        }
    }
}

/// The number of the machine's operation that computes an operator: 5 to 21.
impl From<Op> for Word {
    ghost use Rattle.bc_word.specs.Words.{number_of};

    ghost from_gives = { λ op number. number ≡ number_of op };

    fn from(op: Op) -> Word {
        Word::new(5 + op as u16)
    }
}

/// The operator that the machine's operation with this number computes. Fails with `NotAnOperator` for all numbers but 5 to 21.
impl TryFrom<Word> for Op {
    ghost use Rattle.std.specs.Prelude.{◌≡◌, Ok, Err};
    ghost use Rattle.bc_word.specs.Words.{IsOperatorOf};

    type Error = NotAnOperator;

    ghost try_from_gives = { λ number found. IsOperatorOf number found };

    fn try_from(number: Word) -> Result<Op, NotAnOperator> {
        match number.get() {
            5 => Ok(Op::Multiply),
            6 => Ok(Op::Divide),
            7 => Ok(Op::Remainder),
            8 => Ok(Op::Add),
            9 => Ok(Op::Subtract),
            10 => Ok(Op::Equal),
            11 => Ok(Op::NotEqual),
            12 => Ok(Op::Less),
            13 => Ok(Op::GreaterEqual),
            14 => Ok(Op::Greater),
            15 => Ok(Op::LessEqual),
            16 => Ok(Op::ShiftLeft),
            17 => Ok(Op::ShiftRight),
            18 => Ok(Op::And),
            19 => Ok(Op::Or),
            20 => Ok(Op::NotEquivalent),
            21 => Ok(Op::Equivalent),
            _ => Err(NotAnOperator),
        }
    }
}
