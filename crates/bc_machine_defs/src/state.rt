//! The registers of the machine, and how a run ends.

use bc_word::Word;

/// The registers that persist from one instruction to the next.
#[derive(Clone, Copy, Debug, PartialEq, Eq)]
pub struct Registers {
    /// The second accumulator: the value of A before the last load.
    pub b: u16,
    /// The accumulator.
    pub a: u16,
    /// The address of the next instruction.
    pub c: u16,
    /// The address of the current frame.
    pub p: u16,
}

/// How a run ended.
#[derive(Clone, Copy, Debug, PartialEq, Eq)]
pub enum End {
    /// The program executed FINISH.
    Finished,
    /// A division or remainder by 0.
    ZeroDivide,
    /// The word at this address isn't a valid instruction.
    BadInstruction(Word),
    /// The machine is still running after all instructions of its budget.
    BudgetSpent,
    /// A device failed.
    Device,
}
