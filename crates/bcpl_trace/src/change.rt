//! What an instruction writes to the store, or to the selected output.

ghost use Rattle.std.specs.Prelude.{◌≡◌, slice_index};
ghost use Rattle.bc_machine_defs.specs.Instruction.{code_of};
ghost use Rattle.bc_machine_defs.specs.Operand.{operand_of};
ghost use Rattle.bcpl_trace.specs.Changes.{written_at, IsChangeOf};
ghost use Rattle.bcpl_trace.specs.Told.{told};

use bc_machine::Machine;
use bc_machine_defs::Registers;
use bc_word::Word;

/// The base G: the address of global 0.
const GLOBALS: u16 = 8;

/// One more than the largest address in the lower bits of an instruction word; its upper bits are the code.
const ADDRESSES: u16 = 512;

/// The operand of the operation that writes a byte.
const WRITE: u16 = 27;

/// What an instruction writes to the store, or to the selected output.
#[derive(Clone, Copy, PartialEq, Eq)]
pub enum Change {
    /// No cell. An input or output may be selected, read or ended.
    Nothing,
    /// The cell at this address.
    Cell(u16),
    /// The cell at this address and the next one: the links of a frame.
    Links(u16),
    /// No cell. This byte is written to the selected output.
    Byte(u8),
}

/// The word at this address of the store.
pub fn cell(machine: &Machine, address: u16) -> u16
    ensures { result ≡ slice_index machine.now.store address }
{
    machine.word(Word::new(address)).get()
}

/// D, the operand of the instruction at C.
fn operand(machine: &Machine) -> u16
    ensures { let word = slice_index machine.now.store machine.now.registers.c in
        result ≡ operand_of (code_of word) word machine.now.registers machine.now.store }
{
    let registers = machine.registers();
    let word = cell(machine, registers.c);
    let code = word / ADDRESSES;
    let address = if code % 2 == 1 {
        cell(machine, registers.c.wrapping_add(1))
    } else {
        word % ADDRESSES
    };
    let framed = if code / 4 % 2 == 1 {
        address.wrapping_add(registers.p)
    } else {
        address
    };
    let based = if code / 2 % 2 == 1 {
        framed.wrapping_add(GLOBALS)
    } else {
        framed
    };
    if code / 8 % 2 == 1 {
        cell(machine, based)
    } else {
        based
    }
}

/// What an instruction with this function and operand writes, if `registers` are the registers before it.
fn told(function: u16, operand: u16, registers: Registers) -> Change
    ensures { result ≡ told function operand registers }
{
    match function {
        1 => Change::Cell(operand),
        6 => Change::Links(registers.p.wrapping_add(operand)),
        7 if operand == WRITE => Change::Byte((registers.a % 256) as u8),
        _ => Change::Nothing,
    }
}

/// What the instruction at C writes: exactly the cells that it sets, or the byte that it writes, and `Nothing` if there is neither. An
/// instruction that ends the run writes nothing. A cell counts as written even if it already has the word, and a byte even if no output
/// is selected.
pub fn change_of(machine: &Machine) -> Change
    ensures written { result ≡ written_at machine.now }
    ensures step { IsChangeOf machine.now result }
{
    let registers = machine.registers();
    let word = cell(machine, registers.c);
    let operand = operand(machine);
    told(word / ADDRESSES / 16, operand, registers)
}
