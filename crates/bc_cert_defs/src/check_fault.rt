//! Why a certificate is refused.

use bc_word::Memory;
use std::alloc::{AllocError, AllocFailed};
use thiserror::Error;

/// Why a certificate is refused: its first fault. Lines are counted from 1, entries and the nodes of an entry from 0.
#[derive(Clone, Copy, Debug, PartialEq, Eq, Hash, Error)]
pub enum CheckFault {
    /// The first line isn't a header, or the input ends before it does.
    #[error("the first line is not that of a certificate")]
    Header,
    /// The line has none of the forms that are allowed here, or it doesn't fit the lines before it.
    #[error("line {0} is malformed")]
    Line(u64),
    /// The input ends without an end line, or with a line that lacks its LF.
    #[error("the certificate ends before its last line")]
    Truncated,
    /// Entry and node: one of the four numbers of the node isn't its least number of words.
    #[error("entry {0}, node {1}: a number is not the least number of words")]
    WrongCost(u64, u64),
    /// Entry and node: the named rules don't make a derivation with the stated words. At a root line the node is the number of nodes.
    #[error("entry {0}, node {1}: no rule gives a derivation with this number of words")]
    WrongRule(u64, u64),
    /// The entry's code isn't that of its derivation, or a label of the derivation would be over 65,535.
    #[error("entry {0}: the code is not that of its derivation")]
    WrongCode(u64),
    /// The entry states another number of words than its code has.
    #[error("entry {0}: the code has a different number of words")]
    WrongWords(u64),
    /// With the node of this line the tree is more than 400 nodes deep.
    #[error("line {0}: nodes are nested more than 400 deep")]
    TooDeep(u64),
    /// The reader failed, or gave more than 2^30 bytes.
    #[error("the certificate could not be read")]
    Read,
    /// An allocation failed.
    #[error("out of memory")]
    Memory,
}

impl From<AllocError> for CheckFault {
    ghost use Rattle.std.specs.Prelude.{◌≡◌};
    ghost use Rattle.bc_cert_defs.specs.declared.check_fault.CheckFault.TheVariants as faults;

    ghost from_gives = { λ _ e. e ≡ faults.Memory };

    fn from(_refused: AllocError) -> CheckFault {
        CheckFault::Memory
    }
}

impl<T: Drop> From<AllocFailed<T>> for CheckFault {
    ghost use Rattle.std.specs.Prelude.{◌≡◌};
    ghost use Rattle.bc_cert_defs.specs.declared.check_fault.CheckFault.TheVariants as faults;

    ghost from_gives = { λ _ e. e ≡ faults.Memory };

    fn from(_refused: AllocFailed<T>) -> CheckFault {
        CheckFault::Memory
    }
}

impl From<Memory> for CheckFault {
    ghost use Rattle.std.specs.Prelude.{◌≡◌};
    ghost use Rattle.bc_cert_defs.specs.declared.check_fault.CheckFault.TheVariants as faults;

    ghost from_gives = { λ _ e. e ≡ faults.Memory };

    fn from(_refused: Memory) -> CheckFault {
        CheckFault::Memory
    }
}
