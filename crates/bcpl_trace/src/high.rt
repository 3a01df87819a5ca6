//! How much of the store a run uses: the highest cell that it touches, and where its deepest frame begins.

use crate::change::{Change, cell};
use bc_machine::Machine;

/// The base G: the address of global 0.
const GLOBALS: u16 = 8;

/// One more than the largest address in the lower bits of an instruction word; its upper bits are the code.
const ADDRESSES: u16 = 512;

/// The function of operations, as the upper bits of a code.
const EXECUTE: u16 = 7;

/// The operand of the operation that reads the cell at A.
const INDIRECT: u16 = 1;

/// The operand of the operation that returns.
const RETURN: u16 = 4;

/// How much of the store a run has used. A cell is touched if an instruction in it is executed, or an instruction
/// reads or writes it. The cells of a switch's table and of a stream's name don't count.
#[derive(Clone, Copy, PartialEq, Eq)]
pub struct High {
    /// The highest address of a cell that was touched.
    pub cell: u16,
    /// The highest address at which a frame began.
    pub frame: u16,
}

/// The address that the operand of the instruction at C has before its cell is read.
fn operand_address(machine: &Machine, code: u16) -> u16 {
    let registers = machine.registers();
    let address = if code % 2 == 1 {
        cell(machine, registers.c.wrapping_add(1))
    } else {
        cell(machine, registers.c) % ADDRESSES
    };
    let framed = if code / 4 % 2 == 1 {
        address.wrapping_add(registers.p)
    } else {
        address
    };
    if code / 2 % 2 == 1 {
        framed.wrapping_add(GLOBALS)
    } else {
        framed
    }
}

/// The highest cell that this operation reads, or 0.
fn highest_read(machine: &Machine, operation: u16) -> u16 {
    let registers = machine.registers();
    if operation == INDIRECT {
        registers.a
    } else if operation == RETURN {
        registers.p.max(registers.p.wrapping_add(1))
    } else {
        0
    }
}

/// The highest cell of the instruction's words and of the cells that it reads.
pub fn highest_of(machine: &Machine) -> u16 {
    let address = machine.registers().c;
    let code = cell(machine, address) / ADDRESSES;
    let operand = operand_address(machine, code);
    let last = if code % 2 == 1 {
        address.max(address.wrapping_add(1))
    } else {
        address
    };
    let (operand, last) = if code / 8 % 2 == 1 {
        (cell(machine, operand), last.max(operand))
    } else {
        (operand, last)
    };
    if code / 16 == EXECUTE {
        last.max(highest_read(machine, operand))
    } else {
        last
    }
}

/// The highest cell that this change writes, or 0.
fn highest_written(change: Change) -> u16 {
    match change {
        Change::Cell(address) => address,
        Change::Links(address) => address.max(address.wrapping_add(1)),
        Change::Nothing | Change::Byte(_) => 0,
    }
}

impl High {
    /// Nothing is used yet.
    pub fn new() -> High {
        High { cell: 0, frame: 0 }
    }

    /// The use with an instruction that touched `cell` and made this change; `frame` is P after it.
    pub fn with(self, cell: u16, change: Change, frame: u16) -> High {
        High {
            cell: self.cell.max(cell).max(highest_written(change)),
            frame: self.frame.max(frame),
        }
    }
}
