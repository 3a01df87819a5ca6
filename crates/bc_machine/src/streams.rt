//! The streams that a run needs, as a trait.

ghost use Rattle.std.specs.Prelude.{◌≡◌, ◌≤◌, ℕ, OnOk, OnErr, IfOk};
ghost use Rattle.bc_machine_defs.specs.StreamCalls.{find_stream, select_stream, read_byte, after_read, after_write, end_stream};
ghost use Rattle.bc_machine_defs.specs.Streams.{Content, HoldBytes};
ghost use Rattle.bc_machine.specs.Rose.{Rose};

use crate::faults::DeviceFault;
use bc_machine_defs::Side;
use bc_word::Word;

/// The streams of a run: a table of named inputs and one of named outputs, each numbered from 1, with one input and one output selected.
///
/// In contracts they have a content, which may be known or not, and a count of device failures, which saturates at 2^64 - 1. Where the
/// content is known, the inputs hold bytes.
pub trait Streams {
    ghost content: { Self → Content };

    ghost known: { Self → Type 0 };

    ghost failures: { Self → ℕ };

    ghost holds_bytes: { (streams : Self) → known streams → HoldBytes (content streams).inputs };

    /// The number of the stream with this name, or 0 if there is none.
    fn find(&self, side: Side, name: &[u8]) -> Word
        ensures { known self.now → result ≡ find_stream side name.now (content self.now) };

    /// Selects the stream with this number. A number that no stream has selects nothing.
    fn select(&mut self, side: Side, number: Word)
        ensures content { known self.old → content self.new ≡ select_stream side number (content self.old) }
        ensures known { known self.old → known self.new }
        ensures counted { failures self.new ≡ failures self.old };

    /// The next byte of the selected input. `None` if it is at its end or has been ended, or if no input is selected.
    ///
    /// `DeviceFault` if the device fails; nothing has been read then.
    fn read(&mut self) -> Result<Option<u8>, DeviceFault>
        ensures byte { IfOk result (λ byte. known self.old → byte ≡ read_byte (content self.old)) }
        ensures ok { OnOk result (known self.old → content self.new ≡ after_read (content self.old)) }
        ensures err { OnErr result (known self.old → content self.new ≡ content self.old) }
        ensures known { known self.old → known self.new }
        ensures failed { OnErr result (Rose (failures self.old) (failures self.new)) }
        ensures counted { failures self.old ≤ failures self.new };

    /// Writes a byte to the selected output. It is dropped if no output is selected or the output has been ended.
    ///
    /// `DeviceFault` if the device fails; nothing has been written then.
    fn write(&mut self, byte: u8) -> Result<(), DeviceFault>
        ensures ok { OnOk result (known self.old → content self.new ≡ after_write byte (content self.old)) }
        ensures err { OnErr result (known self.old → content self.new ≡ content self.old) }
        ensures known { known self.old → known self.new }
        ensures failed { OnErr result (Rose (failures self.old) (failures self.new)) }
        ensures counted { failures self.old ≤ failures self.new };

    /// Ends the selected stream for good, and selects nothing.
    ///
    /// `DeviceFault` if the device fails; the stream is still selected then.
    fn end(&mut self, side: Side) -> Result<(), DeviceFault>
        ensures ok { OnOk result (known self.old → content self.new ≡ end_stream side (content self.old)) }
        ensures err { OnErr result (known self.old → content self.new ≡ content self.old) }
        ensures known { known self.old → known self.new }
        ensures failed { OnErr result (Rose (failures self.old) (failures self.new)) }
        ensures counted { failures self.old ≤ failures self.new };
}
