//! The operations of the function X. Their numbers are in `specs/Operation.antt`.

use crate::streams::Side;
use bc_word::Op;

/// The operations of the machine's function X.
#[derive(Clone, Copy, Debug, PartialEq, Eq)]
pub enum Operation {
    /// Replaces A by the content of the cell whose address it is.
    Indirect,
    /// Negates A.
    Negate,
    /// Complements A.
    Complement,
    /// Returns to the caller, by the two links in the frame.
    Return,
    /// Replaces A by `B op A`.
    Operate(Op),
    /// Ends the run.
    Finish,
    /// Jumps to the address that the table after the instruction gives the value A.
    Switch,
    /// Selects the stream whose number is A.
    Select(Side),
    /// Reads a byte from the selected input into A, or 65,535 at its end.
    Read,
    /// Writes the low byte of A to the selected output.
    Write,
    /// Replaces A, the address of a name, by the number of the stream with that name, or 0.
    Find(Side),
    /// Ends the selected stream.
    EndStream(Side),
    /// No operation has this number.
    Bad,
}
