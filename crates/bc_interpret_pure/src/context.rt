//! The context of an evaluation, the causes of a wild access, and the address of a cell of the frame.

ghost use Rattle.std.specs.Prelude.{◌≡◌, ◌+◌, ◌%◌, IfOk};

use bc_interpret_store::Store;
use bc_word::Memory;

/// All that a pure expression depends on.
#[derive(Clone, Copy)]
pub struct Sight<'c> {
    /// The cells of the run.
    pub store: &'c Store,
    /// The address of each label of the section, indexed by the label's number.
    pub addresses: &'c [u16],
    /// The address of the first cell of the frame.
    pub frame: usize,
}

/// Why a step is wild.
#[derive(Clone, Copy, Debug, PartialEq, Eq)]
pub enum Cause {
    /// The cell at this address was read; it is live, but was never set.
    Unset(u16),
    /// The cell at this address was read, but isn't live.
    Dead(u16),
    /// The cell at this address was written, but isn't live.
    NoCell(u16),
    /// This value was called, but isn't the address of a routine.
    NotRoutine(u16),
    /// A routine was called whose frame would begin at this address and extend past address 65,535.
    FrameTooLarge(usize),
    /// The program has a form that no source produces, such as a VALOF that doesn't exist or a jump out of a routine.
    Malformed,
}

/// The address of the cell at this offset of the frame at address `frame`, modulo 65,536.
#[inline(always)]
pub fn cell_in(frame: usize, offset: usize) -> u16
    ensures { result ≡ (frame + offset) % 65536 }
{
    ((frame % 65536 + offset % 65536) % 65536) as u16
}

/// `cell_in` as a `Result`, for callers that return one. Never fails.
#[inline(always)]
pub fn cell_of(frame: usize, offset: usize) -> Result<u16, Memory>
    ensures { IfOk result (λ a. a ≡ (frame + offset) % 65536) }
{
    Ok(cell_in(frame, offset))
}
