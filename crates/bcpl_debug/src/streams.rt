//! What a recorded program reads and writes.

use bc_machine::{MemoryStreams, Named, StreamsError};
use bc_word::Memory;
use std::alloc::Global;

/// The greatest number of bytes that a recorded run writes, to all its outputs together.
const MOST_OUTPUT: usize = 1_000_000;

/// The number of the first output that isn't SYSPRINT.
const SECOND: u16 = 2;

/// What a program reads, and the outputs that it has besides SYSPRINT.
pub struct RunInput {
    /// The bytes of SYSIN.
    pub standard: Vec<u8>,
    /// The further inputs, with their bytes.
    pub inputs: Vec<Named<Vec<u8>>>,
    /// The names of the further outputs.
    pub outputs: Vec<Vec<u8>>,
}

impl Drop for RunInput {
    fn drop(self) {
        let RunInput {
            standard: _,
            inputs: _,
            outputs: _,
        } = self;
    }
}

/// A copy of these bytes.
fn copied(alloc: Global, bytes: &[u8]) -> Result<Vec<u8>, Memory> {
    let mut copy = Vec::new(alloc);
    copy.extend_from_slice(bytes)?;
    Ok(copy)
}

/// An input with copies of this name and these bytes.
fn input_of(alloc: Global, name: &[u8], bytes: &[u8]) -> Result<Named<Vec<u8>>, Memory> {
    let name = copied(alloc, name)?;
    let device = copied(alloc, bytes)?;
    Ok(Named { name, device })
}

/// The inputs, SYSIN first.
fn inputs_of(alloc: Global, given: &RunInput) -> Result<Vec<Named<Vec<u8>>>, Memory> {
    let mut inputs = Vec::new(alloc);
    inputs.push(input_of(alloc, b"SYSIN", given.standard.as_slice())?)?;
    for input in &given.inputs {
        inputs.push(input_of(alloc, input.name.as_slice(), input.device.as_slice())?)?;
    }
    Ok(inputs)
}

/// The names of the outputs, SYSPRINT first.
fn outputs_of(alloc: Global, given: &RunInput) -> Result<Vec<Vec<u8>>, Memory> {
    let mut outputs = Vec::new(alloc);
    outputs.push(copied(alloc, b"SYSPRINT")?)?;
    for name in &given.outputs {
        outputs.push(copied(alloc, name.as_slice())?)?;
    }
    Ok(outputs)
}

/// The streams of a run that has read and written nothing.
///
/// `NameTwice` or `NameTooLong` if the names can't be those of streams; `Memory` if an allocation fails.
pub(crate) fn streams_of(alloc: Global, given: &RunInput) -> Result<MemoryStreams, StreamsError> {
    let inputs = inputs_of(alloc, given)?;
    let outputs = outputs_of(alloc, given)?;
    MemoryStreams::new(alloc, inputs, outputs, MOST_OUTPUT)
}

/// What was written to the output with this number.
fn written_to(alloc: Global, streams: &MemoryStreams, number: u16) -> Result<Vec<u8>, Memory> {
    let mut bytes = Vec::new(alloc);
    for (output, byte) in streams.written() {
        if output.get() == number {
            bytes.push(*byte)?;
        }
    }
    Ok(bytes)
}

/// What was written to each of the further outputs.
pub(crate) fn further_outputs(
    alloc: Global,
    given: &RunInput,
    streams: &MemoryStreams,
) -> Result<Vec<Vec<u8>>, Memory> {
    let mut written = Vec::new(alloc);
    let mut number = SECOND;
    for _each in &given.outputs {
        written.push(written_to(alloc, streams, number)?)?;
        number = number.saturating_add(1);
    }
    Ok(written)
}
