//! The state of a walk over a section, and the frame cells that declarations take.
ghost use Rattle.std.specs.Prelude.{◌≡◌, ◌&&◌, nat_le};

use bc_scope_names::Numbers;

/// How far a walk has come.
#[derive(Clone, Copy, Debug, PartialEq, Eq)]
pub struct Progress {
    /// The numbers of the next place, VALOF and label.
    pub at: Numbers,
    /// Whether each frame up to here has at most 32,768 cells.
    pub fits: bool,
}

/// The frame cells that declarations take.
#[derive(Clone, Copy, Debug, PartialEq, Eq)]
pub struct Extent {
    /// The first free offset after them.
    pub level: u64,
    /// The frame size that they need, in cells.
    pub width: u64,
}

/// Whether the frames up to here fit, and one of `frame` cells too.
pub fn also_fits(fits: bool, frame: u64) -> bool
    ensures { result ≡ fits && nat_le frame 32768 }
{
    fits && frame <= 32768
}
