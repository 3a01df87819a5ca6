//! The levels that the readers ask for. The higher an expression's level, the more tightly it binds.

/// The level of a choice, which is that of any expression.
pub const CHOICE: usize = 1;

/// The level of a constant, which is any expression but a choice.
pub const CONSTANT: usize = 2;

/// The level of an operand that needs no parentheses anywhere: a name, a number, a call, an expression in parentheses.
pub const PRIMARY: usize = 12;
