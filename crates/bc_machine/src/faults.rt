//! The errors of streams.

use bc_word::Memory;
use thiserror::Error;

/// A device has failed: a reader, a writer, or the room for output.
#[derive(Clone, Copy, Debug, PartialEq, Eq, Error)]
#[error("a device failed")]
pub struct DeviceFault;

/// Why streams can't be created.
#[derive(Clone, Copy, Debug, PartialEq, Eq, Error)]
pub enum StreamsError {
    /// Two streams of one table have the same name.
    #[error("a table of streams has a name twice")]
    NameTwice,
    /// A name has more than 255 bytes.
    #[error("the name of a stream has more than 255 bytes")]
    NameTooLong,
    /// An allocation failed.
    #[error("out of memory")]
    Memory,
}

impl From<Memory> for StreamsError {
    ghost use Rattle.std.specs.Prelude.{◌≡◌};
    ghost use Rattle.bc_machine.specs.declared.faults.StreamsError.TheVariants as faults;

    ghost from_gives = { λ _ e. e ≡ faults.Memory };

    fn from(_refused: Memory) -> StreamsError {
        StreamsError::Memory
    }
}
