//! The sections of a program as the interpreter sees them, and the table of its routines.

ghost use Rattle.std.specs.Prelude.{◌≡◌, ℕ};
ghost use Rattle.bc_interpret_steps.specs.Sections.{IsFound};

use bc_core::{Place, Routine, Valof};

/// A section of the program.
#[derive(Clone, Copy)]
pub struct Section<'c> {
    /// Its routines, statics, tables and strings.
    pub places: &'c [Place],
    /// Its VALOFs, indexed by their numbers.
    pub valofs: &'c [Valof],
    /// The address of each of its labels, indexed by the label's number.
    pub addresses: &'c [u16],
}

/// An entry of the table of routines.
#[derive(Clone, Copy)]
pub struct Callable<'c> {
    /// The address by which the routine is called.
    pub address: u16,
    /// The section that contains the routine.
    pub section: &'c Section<'c>,
    /// The routine itself.
    pub routine: &'c Routine,
    /// The size of its frame in cells.
    pub frame: usize,
}

/// The first routine of the table with this address.
#[tactic(auto, using(crate::proofs::Entries::found_here, crate::proofs::Entries::found_after))]
pub(crate) fn routine_at<'c>(table: &[Callable<'c>], address: u16) -> Option<Callable<'c>>
    ensures { IsFound table.now address result }
{
    let mut left = table;
    while let [first, rest @ ..] = left {
        if first.address == address {
            return Some(*first);
        }
        left = rest;
    }
    None
}
