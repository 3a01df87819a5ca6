//! Why a certificate isn't written.

use crate::workings_fault::WorkingsFault;
use bc_word::Memory;
use std::alloc::{AllocError, AllocFailed};
use thiserror::Error;

/// Why a certificate isn't written.
#[derive(Clone, Copy, Debug, PartialEq, Eq, Hash, Error)]
pub enum CertFault {
    /// The writer returned an error, or took none of the remaining bytes.
    #[error("the certificate could not be written")]
    Write,
    /// An allocation failed, or `workings_of` returned `NoRoom` for an entry.
    #[error("out of memory")]
    Memory,
}

impl From<AllocError> for CertFault {
    ghost use Rattle.std.specs.Prelude.{◌≡◌};
    ghost use Rattle.bc_cert_write.specs.declared.cert_fault.CertFault.TheVariants as faults;

    ghost from_gives = { λ _ e. e ≡ faults.Memory };

    fn from(_refused: AllocError) -> CertFault {
        CertFault::Memory
    }
}

impl<T: Drop> From<AllocFailed<T>> for CertFault {
    ghost use Rattle.std.specs.Prelude.{◌≡◌};
    ghost use Rattle.bc_cert_write.specs.declared.cert_fault.CertFault.TheVariants as faults;

    ghost from_gives = { λ _ e. e ≡ faults.Memory };

    fn from(_refused: AllocFailed<T>) -> CertFault {
        CertFault::Memory
    }
}

impl From<Memory> for CertFault {
    ghost use Rattle.std.specs.Prelude.{◌≡◌};
    ghost use Rattle.bc_cert_write.specs.declared.cert_fault.CertFault.TheVariants as faults;

    ghost from_gives = { λ _ e. e ≡ faults.Memory };

    fn from(_refused: Memory) -> CertFault {
        CertFault::Memory
    }
}

impl From<WorkingsFault> for CertFault {
    ghost use Rattle.std.specs.Prelude.{◌≡◌};
    ghost use Rattle.bc_cert_write.specs.declared.cert_fault.CertFault.TheVariants as faults;

    ghost from_gives = { λ _ e. e ≡ faults.Memory };

    fn from(_fault: WorkingsFault) -> CertFault {
        CertFault::Memory
    }
}
