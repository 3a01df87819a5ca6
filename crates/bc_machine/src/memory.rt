//! Streams in memory.

ghost use Rattle.std.specs.Prelude.{◌≡◌, ◌≤◌, [], IfOk, vec_len, vec_capacity};

use crate::faults::{DeviceFault, StreamsError};
use crate::names::{HasName, Named, NamedOutput, chosen, number_of, number_of_first, refusal};
use crate::streams::Streams;
use bc_machine_defs::Side;
use bc_word::{Memory, Word};
use std::alloc::Global;

/// An input in memory: its bytes, and how many of them have been read.
#[derive(Drop)]
struct MemoryInput {
    name: Vec<u8>,
    bytes: Vec<u8>,
    at: usize,
    ended: bool,
}

impl HasName for MemoryInput {
    ghost name_of = { λ i. i.name.items };

    fn name(&self) -> &[u8] {
        self.name.as_slice()
    }
}

impl MemoryInput {
    ghost use Rattle.std.specs.Prelude.{◌≡◌};
    ghost use Rattle.bc_machine_defs.specs.StreamCalls.{next_byte, after_byte};
    ghost use Rattle.bc_machine.specs.MemoryContent.{memory_input};

    /// The next byte, or `None` at the end and once the input has been ended.
    fn next_byte(&mut self) -> Option<u8>
        ensures byte { result ≡ next_byte self.old.ended (memory_input self.old).rest }
        ensures after { memory_input self.new ≡ record (memory_input self.old) { rest = after_byte self.old.ended (memory_input self.old).rest } }
    {
        if self.ended || self.at >= self.bytes.len() {
            return None;
        }
        let byte = self.bytes[self.at];
        self.at += 1;
        Some(byte)
    }
}

impl MemoryInput {
    ghost use Rattle.std.specs.Prelude.{◌≡◌, IfOk, map};
    ghost use Rattle.bc_machine_defs.specs.StreamStart.{fresh_input};
    ghost use Rattle.bc_machine_defs.specs.Streams.{AreBytes, HoldBytes};
    ghost use Rattle.bc_machine.specs.MemoryContent.{memory_input};
    ghost use Rattle.bc_machine.specs.Names.{named_bytes};

    /// An input before anything has been read.
    fn fresh(name: Vec<u8>, bytes: Vec<u8>) -> MemoryInput
        ensures content { memory_input result ≡ fresh_input name.items bytes.items }
        ensures bytes { AreBytes (memory_input result).rest }
    {
        MemoryInput {
            name,
            bytes,
            at: 0,
            ended: false,
        }
    }

    /// The table of these inputs, before anything has been read.
    #[tactic(auto, using(crate::proofs::Held::held_more))]
    fn table(alloc: Global, inputs: Vec<Named<Vec<u8>>>) -> Result<Vec<MemoryInput>, Memory>
        ensures content { IfOk result (λ table. map memory_input table.items ≡ map (λ i. fresh_input i.0 i.1) (named_bytes inputs.items)) }
        ensures bytes { IfOk result (λ table. HoldBytes (map memory_input table.items)) }
    {
        let mut table = Vec::with_capacity(alloc, inputs.len())?;
        for input in inputs {
            let Named { name, device } = input;
            table.push(MemoryInput::fresh(name, device))?;
        }
        Ok(table)
    }
}

impl NamedOutput {
    ghost use Rattle.std.specs.Prelude.{◌≡◌, [], IfOk, map};
    ghost use Rattle.bc_machine_defs.specs.StreamStart.{fresh_output};
    ghost use Rattle.bc_machine.specs.MemoryContent.{memory_outputs};
    ghost use Rattle.bc_machine.specs.Names.{bytes_of};

    /// The table of outputs with these names, before anything has been written.
    fn table(alloc: Global, names: Vec<Vec<u8>>) -> Result<Vec<NamedOutput>, Memory>
        ensures { IfOk result (λ table. memory_outputs 1 [] table.items ≡ map fresh_output (bytes_of names.items)) }
    {
        let mut table = Vec::with_capacity(alloc, names.len())?;
        for name in names {
            table.push(NamedOutput { name, ended: false })?;
        }
        Ok(table)
    }
}

/// A buffer with room for this many bytes of output.
fn room_for(alloc: Global, room: usize) -> Result<Vec<(Word, u8)>, Memory>
    ensures empty { IfOk result (λ written. written.items ≡ []) }
    ensures room { IfOk result (λ written. room ≤ vec_capacity written) }
{
    Ok(Vec::with_capacity(alloc, room)?)
}

/// Streams in memory. The bytes of all outputs share one buffer, whose size is fixed at the start.
#[derive(Drop)]
pub struct MemoryStreams {
    inputs: Vec<MemoryInput>,
    outputs: Vec<NamedOutput>,
    /// The bytes that have been written, each with the number of its output.
    written: Vec<(Word, u8)>,
    /// The greatest number of bytes in `written`.
    room: usize,
    /// The numbers of the selected input and output, 0 if none is selected.
    input: u16,
    output: u16,
    /// How often no room was left; saturates at 2^64 - 1.
    failures: u64,
    ghost input_exists: { input ≤ vec_len inputs },
    ghost output_exists: { output ≤ vec_len outputs },
    ghost room_is_there: { room ≤ vec_capacity written },
    ghost in_room: { vec_len written ≤ room },
}

impl MemoryStreams {
    ghost use Rattle.std.specs.Prelude.{◌≡◌, ◌≢◌, ◌≤◌, ℕ, List, map, Some, None, IfOk, IfErr, OnOk, length};
    ghost use Rattle.bc_machine_defs.specs.StreamStart.{start_streams};
    ghost use Rattle.bc_machine.specs.Refusal.{refusal_of};
    ghost use Rattle.bc_machine.specs.declared.faults.StreamsError.TheVariants as faults;
    ghost use Rattle.bc_machine.specs.Names.{given_names, bytes_of, named_bytes};
    ghost use Rattle.bc_machine.specs.MemoryContent.{memory_content, memory_written, memory_room, memory_failures, IsKnown};

    /// The streams with inputs of these names and bytes and outputs of these names. Input 1 and output 1 are selected if they exist.
    /// There is room for `room` bytes of output in all.
    ///
    /// The names are checked in order, the inputs first: `NameTooLong` for a name of more than 255 bytes, `NameTwice` for one that
    /// already occurred in its table. `Memory` if an allocation fails.
    pub fn new(
        alloc: Global,
        inputs: Vec<Named<Vec<u8>>>,
        outputs: Vec<Vec<u8>>,
        room: usize,
    ) -> Result<MemoryStreams, StreamsError>
        ensures refused { IfErr result (λ fault. fault ≢ faults.Memory → refusal_of (given_names inputs.items) (bytes_of outputs.items) ≡ Some fault) }
        ensures accepted { OnOk result (refusal_of (given_names inputs.items) (bytes_of outputs.items) ≡ None) }
        ensures content { IfOk result (λ streams. memory_content streams ≡ start_streams (named_bytes inputs.items) (bytes_of outputs.items)) }
        ensures known { IfOk result (λ streams. IsKnown streams) }
        ensures room { IfOk result (λ streams. memory_room streams ≡ room) }
        ensures unfailed { IfOk result (λ streams. memory_failures streams ≡ 0) }
    {
        if let Some(fault) = refusal(inputs.as_slice()) {
            return Err(fault);
        }
        if let Some(fault) = refusal(outputs.as_slice()) {
            return Err(fault);
        }
        let inputs = MemoryInput::table(alloc, inputs)?;
        let outputs = NamedOutput::table(alloc, outputs)?;
        let written = room_for(alloc, room)?;
        let input = number_of_first(inputs.as_slice());
        let output = number_of_first(outputs.as_slice());
        Ok(MemoryStreams {
            inputs,
            outputs,
            written,
            room,
            input,
            output,
            failures: 0,
        })
    }

    /// The bytes that have been written, in order, each with the number of its output.
    pub fn written(&self) -> &[(Word, u8)]
        ensures { result.now ≡ memory_written self.now }
    {
        self.written.as_slice()
    }
}

impl Streams for MemoryStreams {
    ghost use Rattle.std.specs.Prelude.{◌≡◌, ◌≤◌, OnOk, OnErr, Ok};
    ghost use Rattle.bc_machine_defs.specs.StreamCalls.{select_stream, read_byte, after_read, after_write, end_stream};
    ghost use Rattle.bc_machine.specs.Rose.{Rose};
    ghost use Rattle.bc_machine.specs.MemoryContent.{memory_content, memory_failures, memory_written, memory_room, written_after, StaysAsRoom, WritesNothing, IsSpent, IsKnown};

    ghost content = { memory_content };

    ghost known = { IsKnown };

    ghost failures = { memory_failures };

    ghost holds_bytes = { λ streams known. known };

    fn find(&self, side: Side, name: &[u8]) -> Word {
        match side {
            Side::Input => number_of(self.inputs.as_slice(), name),
            Side::Output => number_of(self.outputs.as_slice(), name),
        }
    }

    fn select(&mut self, side: Side, number: Word)
        ensures content { memory_content self.new ≡ select_stream side number (memory_content self.old) }
        ensures known { IsKnown self.old → IsKnown self.new }
        ensures stays { WritesNothing self.old self.new }
    {
        match side {
            Side::Input => self.input = chosen(number, self.inputs.len()),
            Side::Output => self.output = chosen(number, self.outputs.len()),
        }
    }

    /// Never fails.
    fn read(&mut self) -> Result<Option<u8>, DeviceFault>
        ensures byte { result ≡ Ok (read_byte (memory_content self.old)) }
        ensures content { memory_content self.new ≡ after_read (memory_content self.old) }
        ensures known { IsKnown self.old → IsKnown self.new }
        ensures stays { WritesNothing self.old self.new }
    {
        if self.input == 0 {
            return Ok(None);
        }
        let input = &mut self.inputs[self.input as usize - 1];
        Ok(input.next_byte())
    }

    /// A byte that is dropped needs no room. For any other, `DeviceFault` comes exactly if no room is left.
    #[tactic(auto, unfolding(crate::specs::Rose::Rose))]
    fn write(&mut self, byte: u8) -> Result<(), DeviceFault>
        ensures ok { OnOk result (memory_content self.new ≡ after_write byte (memory_content self.old)) }
        ensures err { OnErr result (memory_content self.new ≡ memory_content self.old) }
        ensures known { IsKnown self.old → IsKnown self.new }
        ensures failed { OnErr result (Rose (memory_failures self.old) (memory_failures self.new)) }
        ensures counted { memory_failures self.old ≤ memory_failures self.new }
        ensures written { OnOk result (memory_written self.new ≡ written_after byte self.old) }
        ensures kept { OnErr result (memory_written self.new ≡ memory_written self.old) }
        ensures room { memory_room self.new ≡ memory_room self.old }
        ensures unfailed { OnOk result (memory_failures self.new ≡ memory_failures self.old) }
        // It fails exactly if no room is left.
        ensures spent { OnErr result (IsSpent self.old) }
        ensures given { OnOk result (IsSpent self.old → ⊥) }
    {
        if self.output == 0 {
            return Ok(());
        }
        if self.outputs[self.output as usize - 1].ended {
            return Ok(());
        }
        let written = (Word::new(self.output), byte);
        if self.written.len() < self.room && self.written.push(written).is_ok() {
            return Ok(());
        }
        self.failures = self.failures.saturating_add(1);
        Err(DeviceFault)
    }

    /// Never fails.
    fn end(&mut self, side: Side) -> Result<(), DeviceFault>
        ensures ended { result ≡ Ok tt }
        ensures content { memory_content self.new ≡ end_stream side (memory_content self.old) }
        ensures known { IsKnown self.old → IsKnown self.new }
        ensures stays { WritesNothing self.old self.new }
    {
        match side {
            Side::Input => if self.input > 0 {
                let input = &mut self.inputs[self.input as usize - 1];
                input.ended = true;
                self.input = 0;
            },
            Side::Output => if self.output > 0 {
                let output = &mut self.outputs[self.output as usize - 1];
                output.ended = true;
                self.output = 0;
            },
        }
        Ok(())
    }
}
