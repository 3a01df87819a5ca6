//! Resolved expressions, and the roots that code is chosen for.
use bc_word::{Op, Word};

/// An expression whose names are resolved. There is one type of value, the word.
#[derive(Debug, Drop, PartialEq, Eq)]
pub enum CoreExp {
    /// A number.
    Num(Word),
    /// The address of the cell at this offset of the routine's frame.
    Frame(u16),
    /// The address of the global with this number.
    Glob(u16),
    /// The address of the place with this label: a routine, a static, a table, or a string.
    Place(u16),
    /// The content of the cell at this address.
    Load(Box<CoreExp>),
    /// The negative, modulo 65,536.
    Neg(Box<CoreExp>),
    /// NOT: as a value every bit is inverted, in a test position the truth is.
    Not(Box<CoreExp>),
    /// An operator, the left operand, and the right operand.
    Bin(Op, Box<CoreExp>, Box<CoreExp>),
    /// `condition -> this, that`, in this order.
    Cond(Box<CoreExp>, Box<CoreExp>, Box<CoreExp>),
    /// A call: its arguments, and the routine, whose value is an address.
    Call(Vec<CoreExp>, Box<CoreExp>),
    /// The VALOF with this number, counted from 0 in text order.
    Valof(u16),
}

/// A whole expression, test or assignment, for which code is chosen, with its level. The level is the first offset of
/// the frame above everything that is held when the work on it begins.
#[derive(Debug, Drop, PartialEq, Eq)]
pub enum Root {
    /// An expression whose value is needed.
    Value {
        level: u16,
        expression: CoreExp,
    },
    /// A test: a jump if its truth is `sense`.
    Test {
        level: u16,
        sense: bool,
        expression: CoreExp,
    },
    /// An assignment: stores a value in the cell at an address.
    Assign {
        level: u16,
        value: CoreExp,
        address: CoreExp,
    },
}
