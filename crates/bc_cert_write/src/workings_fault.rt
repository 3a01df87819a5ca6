//! Why the workings of an entry can't be computed.

use bc_rules::CodeFault;
use bc_word::Memory;
use thiserror::Error;

/// Why the workings of an entry can't be computed.
#[derive(Clone, Copy, Debug, PartialEq, Eq, Error)]
pub enum WorkingsFault {
    /// An allocation failed.
    #[error("out of memory")]
    Memory,
    /// The root has more than 2^32 nodes, or an offset in the frame or a label of the code would be over 65,535.
    #[error("a root of more than 2^32 nodes, or an offset of the frame or a label over 65,535")]
    NoRoom,
}

impl From<Memory> for WorkingsFault {
    ghost use Rattle.std.specs.Prelude.{◌≡◌};
    ghost use Rattle.bc_cert_write.specs.declared.workings_fault.WorkingsFault.TheVariants as faults;

    ghost from_gives = { λ _ fault. fault ≡ faults.Memory };

    fn from(_refused: Memory) -> WorkingsFault {
        WorkingsFault::Memory
    }
}

impl From<CodeFault> for WorkingsFault {
    ghost use Rattle.std.specs.Prelude.{◌≡◌};
    ghost use Rattle.bc_rules.specs.declared.code_fault.CodeFault.TheVariants as code_faults;
    ghost use Rattle.bc_cert_write.specs.declared.workings_fault.WorkingsFault.TheVariants as faults;

    ghost from_gives = { λ given fault. fault ≡ faults.NoRoom → given ≡ code_faults.NoRoom };

    fn from(fault: CodeFault) -> WorkingsFault {
        match fault {
            CodeFault::Memory => WorkingsFault::Memory,
            CodeFault::NoRoom => WorkingsFault::NoRoom,
        }
    }
}
