//! The error of `code_with_labels`.

use bc_word::Memory;
use thiserror::Error;

/// Why the code of a derivation couldn't be written.
#[derive(Clone, Copy, Debug, PartialEq, Eq, Hash, Error)]
pub enum CodeFault {
    /// An allocation failed.
    #[error("out of memory")]
    Memory,
    /// An offset of the frame or a label of the code would be over 65,535.
    #[error("an offset of the frame or a label over 65,535")]
    NoRoom,
}

impl From<Memory> for CodeFault {
    ghost use Rattle.std.specs.Prelude.{◌≡◌};
    ghost use Rattle.bc_rules.specs.declared.code_fault.CodeFault.TheVariants as faults;

    ghost from_gives = { λ _ fault. fault ≡ faults.Memory };

    fn from(_refused: Memory) -> CodeFault {
        CodeFault::Memory
    }
}
