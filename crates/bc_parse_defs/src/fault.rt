//! The errors of `close`.
ghost use Rattle.std.specs.Prelude.{◌≡◌};
ghost use Rattle.bc_parse_defs.specs.declared.fault.CloseFault.TheVariants.{Memory};

use std::alloc::{AllocError, AllocFailed};

/// Why tokens have no closed list.
#[derive(Clone, Copy, Debug, PartialEq, Eq)]
pub enum CloseFault {
    /// The `$)` with this index among the tokens closes no section.
    NotOpen(usize),
    /// A section is still open at the end.
    Unclosed,
    /// Memory ran out.
    Memory,
}

impl From<AllocError> for CloseFault {
    ghost from_gives = { λ _ e. e ≡ Memory };

    fn from(_refused: AllocError) -> CloseFault {
        CloseFault::Memory
    }
}

impl<T: Drop> From<AllocFailed<T>> for CloseFault {
    ghost from_gives = { λ _ e. e ≡ Memory };

    fn from(_refused: AllocFailed<T>) -> CloseFault {
        CloseFault::Memory
    }
}
