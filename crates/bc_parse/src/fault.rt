//! The fault of reading a closed list.
ghost use Rattle.std.specs.Prelude.{◌≡◌};
ghost use Rattle.bc_parse.specs.declared.fault.ReadFault.TheVariants.{Memory};

use std::alloc::{AllocError, AllocFailed};

/// Why a closed list is no section. A place is given by the number of parts from there to the end.
#[derive(Clone, Copy, Debug, PartialEq, Eq)]
pub enum ReadFault {
    /// The part at this place can't continue what is being read.
    Expected(usize),
    /// At this place a bound on nesting is exceeded.
    TooDeep(usize),
    /// An allocation failed.
    Memory,
}

impl From<AllocError> for ReadFault {
    ghost from_gives = { λ _ e. e ≡ Memory };

    fn from(_refused: AllocError) -> ReadFault {
        ReadFault::Memory
    }
}

impl<T: Drop> From<AllocFailed<T>> for ReadFault {
    ghost from_gives = { λ _ e. e ≡ Memory };

    fn from(_refused: AllocFailed<T>) -> ReadFault {
        ReadFault::Memory
    }
}
