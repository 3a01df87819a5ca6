//! What a run needs of its streams after it: that they are closed, and what it lost.

use bc_machine::DeviceFault;
use bc_word::Memory;
use std::alloc::Global;

/// Streams that are closed after a run and say what it lost.
pub trait ClosableStreams {
    /// Flushes every output, even after one has failed.
    ///
    /// # Errors
    ///
    /// `DeviceFault` if one fails.
    fn close(&mut self) -> Result<(), DeviceFault>;

    /// What the run lost: for each kind a line, and one with help, which begins with blanks. Empty if it lost nothing.
    ///
    /// # Errors
    ///
    /// `Memory` if an allocation failed.
    fn lost_lines(&self, alloc: Global) -> Result<String, Memory>;
}
