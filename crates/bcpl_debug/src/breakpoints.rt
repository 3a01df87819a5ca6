//! Breakpoints and watches.

use bc_interpret_record::Frame;

/// What a breakpoint stops at.
#[derive(Drop)]
pub enum Target {
    /// The first command on a line: the numbers of its sites.
    Line {
        file: usize,
        line: usize,
        sites: Vec<u32>,
    },
    /// The start of a routine, by its address.
    Routine(u16),
    /// A change of the cell at this address, while the run is in a call of this routine with this frame if there is one.
    Cell {
        address: u16,
        owner: Option<Frame>,
    },
}

/// A breakpoint or a watch.
#[derive(Drop)]
pub struct Breakpoint {
    /// Its number.
    pub number: usize,
    /// What it stops at.
    pub target: Target,
    /// How it was asked for.
    pub text: String,
    /// The expression that must be true; empty if there is none.
    pub condition: String,
}
