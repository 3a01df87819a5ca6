//! Resolved expressions and roots as text.

use bc_core::{CoreExp, Root};
use bc_word::Op;
use std::fmt;

/// The signs of the operators, in the order of the enum.
const SIGNS: [&str; 17] = [
    "*", "/", "REM", "+", "-", "=", "NE", "<", ">=", ">", "<=", "<<", ">>", "&", "|", "NEQV", "EQV",
];

/// The sign of an operator.
pub fn sign(op: Op) -> &'static str {
    SIGNS.get(op as usize).copied().unwrap_or("")
}

/// Prints a resolved expression. `P2` is the address of offset 2 of the frame, `G14` the address of global 14, `L3`
/// the address of place 3, and `V0` the VALOF with number 0. `!` is the contents of the cell at the address that
/// follows. Other expressions are in parentheses, with the operator first: `(+ !P2 1)`, `(NEG 1)`, `(NOT 1)`, `(->
/// !P2 1 2)`. In a call the routine comes first: `(CALL !G14 65)`.
#[derive(Drop)]
pub struct ShownExpression<'e>(pub &'e CoreExp);

impl fmt::Display for ShownExpression<'_> {
    fn fmt<W: fmt::Write>(&self, f: &mut fmt::Formatter<W>) -> fmt::Result {
        write_expression(f, self.0)
    }
}

/// Prints a blank and an expression.
#[cycle(showing)]
fn write_part<W: fmt::Write>(f: &mut fmt::Formatter<W>, e: &CoreExp) -> fmt::Result {
    f.write_char(' ')?;
    write_expression(f, e)
}

/// Prints an expression without parts.
fn write_leaf<W: fmt::Write>(f: &mut fmt::Formatter<W>, e: &CoreExp) -> fmt::Result {
    match e {
        CoreExp::Num(number) => {
            let number = number.get();
            write!(f, "{number}")
        }
        CoreExp::Frame(offset) => write!(f, "P{offset}"),
        CoreExp::Glob(number) => write!(f, "G{number}"),
        CoreExp::Place(label) => write!(f, "L{label}"),
        CoreExp::Valof(number) => write!(f, "V{number}"),
        _ => Ok(()),
    }
}

/// Prints expressions, each after a blank.
#[cycle(showing)]
fn write_parts<W: fmt::Write>(f: &mut fmt::Formatter<W>, list: &[CoreExp]) -> fmt::Result {
    for e in list {
        write_part(f, e)?;
    }
    Ok(())
}

/// Prints an operator with its operand. `head` is the parenthesis and the operator.
#[cycle(showing)]
fn write_unary<W: fmt::Write>(
    f: &mut fmt::Formatter<W>,
    head: &str,
    operand: &CoreExp,
) -> fmt::Result {
    f.write_str(head)?;
    write_part(f, operand)?;
    f.write_char(')')
}

/// Prints an expression.
#[cycle(showing)]
fn write_expression<W: fmt::Write>(f: &mut fmt::Formatter<W>, e: &CoreExp) -> fmt::Result {
    match e {
        CoreExp::Load(e) => {
            f.write_char('!')?;
            write_expression(f, e)
        }
        CoreExp::Neg(e) => write_unary(f, "(NEG", e),
        CoreExp::Not(e) => write_unary(f, "(NOT", e),
        CoreExp::Bin(op, left, right) => {
            f.write_char('(')?;
            f.write_str(sign(*op))?;
            write_part(f, left)?;
            write_part(f, right)?;
            f.write_char(')')
        }
        CoreExp::Cond(condition, this, that) => {
            f.write_str("(->")?;
            write_part(f, condition)?;
            write_part(f, this)?;
            write_part(f, that)?;
            f.write_char(')')
        }
        CoreExp::Call(arguments, routine) => {
            f.write_str("(CALL")?;
            write_part(f, routine)?;
            write_parts(f, arguments)?;
            f.write_char(')')
        }
        _ => write_leaf(f, e),
    }
}

/// Prints a root with its level: `(VALUE 3 e)`; `(TRUE 3 e)` and `(FALSE 3 e)` for a jump if e is true or false; and
/// `(ASSIGN 3 address value)`.
#[derive(Drop)]
pub struct ShownRoot<'r>(pub &'r Root);

impl fmt::Display for ShownRoot<'_> {
    fn fmt<W: fmt::Write>(&self, f: &mut fmt::Formatter<W>) -> fmt::Result {
        match self.0 {
            Root::Value { level, expression } => {
                let expression = ShownExpression(expression);
                write!(f, "(VALUE {level} {expression})")
            }
            Root::Test {
                level,
                sense,
                expression,
            } => {
                let expression = ShownExpression(expression);
                let sense = if *sense { "TRUE" } else { "FALSE" };
                write!(f, "({sense} {level} {expression})")
            }
            Root::Assign {
                level,
                value,
                address,
            } => {
                let value = ShownExpression(value);
                let address = ShownExpression(address);
                write!(f, "(ASSIGN {level} {address} {value})")
            }
        }
    }
}
