//! Streams over readers and writers.

ghost use Rattle.std.specs.Prelude.{◌≡◌, ◌≤◌, [], ◌∷◌, map, vec_len, OnOk, OnErr};
ghost use Rattle.std.specs.Io.KnownBytes.{Appends, Keeps};
ghost use Rattle.bc_machine.specs.Known.{AllKnown};

use crate::faults::{DeviceFault, StreamsError};
use crate::names::{HasName, Named, NamedOutput, chosen, number_of, number_of_first, refusal};
use crate::streams::Streams;
use bc_machine_defs::Side;
use bc_word::{Memory, Word};
use std::alloc::Global;
use std::io::{Read, Write};

/// An input that is read from a reader.
#[derive(Drop)]
struct FileInput<R> {
    name: Vec<u8>,
    reader: R,
    at_end: bool,
    ended: bool,
}

impl<R> HasName for FileInput<R> {
    ghost name_of = { λ i. i.name.items };

    fn name(&self) -> &[u8] {
        self.name.as_slice()
    }
}

impl<R: Read> FileInput<R> {
    ghost use Rattle.std.specs.Prelude.{◌≡◌, IsSome, IfOk, OnOk, OnErr};
    ghost use Rattle.bc_machine_defs.specs.StreamCalls.{next_byte, after_byte};
    ghost use Rattle.bc_machine.specs.FileContent.{file_input};

    /// The next byte, or `None` at the end and once the input has been ended. A reader that returned nothing once stays at its end.
    fn next_byte(&mut self) -> Result<Option<u8>, DeviceFault>
        ensures byte { IsSome (R.remaining self.old.reader) → IfOk result (λ byte. byte ≡ next_byte self.old.ended (file_input R.remaining self.old).rest) }
        ensures ok { IsSome (R.remaining self.old.reader)
            → OnOk result (file_input R.remaining self.new
            ≡ record (file_input R.remaining self.old) { rest = after_byte self.old.ended (file_input R.remaining self.old).rest }) }
        ensures err { IsSome (R.remaining self.old.reader) → OnErr result (file_input R.remaining self.new ≡ file_input R.remaining self.old) }
        ensures known { IsSome (R.remaining self.old.reader) → IsSome (R.remaining self.new.reader) }
    {
        if self.ended || self.at_end {
            return Ok(None);
        }
        let mut byte = [0u8];
        match self.reader.read(&mut byte) {
            Ok(0) => {
                self.at_end = true;
                Ok(None)
            }
            Ok(_) => Ok(Some(byte[0])),
            Err(_) => Err(DeviceFault),
        }
    }
}

/// Writes one byte. A writer that takes nothing counts as failed.
fn write_byte<W: Write>(writer: &mut W, byte: u8) -> Result<(), DeviceFault>
    ensures ok { OnOk result (Appends (W.contents writer.old) (W.contents writer.new) (byte ∷ [])) }
    ensures err { OnErr result (Keeps (W.contents writer.old) (W.contents writer.new)) }
{
    match writer.write(&[byte]) {
        Ok(0) => Err(DeviceFault),
        Ok(_) => Ok(()),
        Err(_) => Err(DeviceFault),
    }
}

/// Flushes a writer.
fn flush<W: Write>(writer: &mut W) -> Result<(), DeviceFault>
    ensures { Keeps (W.contents writer.old) (W.contents writer.new) }
{
    match writer.flush() {
        Ok(()) => Ok(()),
        Err(_) => Err(DeviceFault),
    }
}

/// Flushes every writer, even after one has failed; `DeviceFault` if one fails.
fn flush_all<W: Write>(writers: &mut [W]) -> Result<(), DeviceFault>
    ensures { AllKnown (map W.contents writers.old) → map W.contents writers.new ≡ map W.contents writers.old }
{
    let mut flushed = Ok(());
    for writer in writers.iter_mut() {
        if flush(writer).is_err() {
            flushed = Err(DeviceFault);
        }
    }
    flushed
}

/// Streams over readers and writers, which are the devices.
#[derive(Drop)]
pub struct FileStreams<R, W> {
    inputs: Vec<FileInput<R>>,
    outputs: Vec<NamedOutput>,
    writers: Vec<W>,
    /// The numbers of the selected input and output, 0 if none is selected.
    input: u16,
    output: u16,
    /// How often a device has failed; saturates at 2^64 - 1.
    failures: u64,
    ghost input_exists: { input ≤ vec_len inputs },
    ghost output_exists: { output ≤ vec_len outputs },
    ghost same_length: { vec_len writers ≡ vec_len outputs },
}

impl<R: Read> FileInput<R> {
    ghost use Rattle.std.specs.Prelude.{◌≡◌, IfOk, map};
    ghost use Rattle.bc_machine.specs.FileContent.{file_input, fresh_inputs};

    /// The table of these inputs, before anything has been read.
    fn table(alloc: Global, inputs: Vec<Named<R>>) -> Result<Vec<FileInput<R>>, Memory>
    where
        R: Drop,
        ensures content { IfOk result (λ table. map (file_input R.remaining) table.items ≡ fresh_inputs R.remaining inputs.items) }
        ensures told { IfOk result (λ table. map (λ i. R.remaining i.reader) table.items ≡ map (λ n. R.remaining n.device) inputs.items) }
    {
        let mut table = Vec::with_capacity(alloc, inputs.len())?;
        for input in inputs {
            let Named { name, device } = input;
            table.push(FileInput {
                name,
                reader: device,
                at_end: false,
                ended: false,
            })?;
        }
        Ok(table)
    }
}

/// The names of the outputs and their writers, both in order.
#[derive(Drop)]
struct Outputs<W> {
    names: Vec<NamedOutput>,
    writers: Vec<W>,
    ghost same_length: { vec_len writers ≡ vec_len names },
}

impl<W: Write> Outputs<W> {
    ghost use Rattle.std.specs.Prelude.{◌≡◌, IfOk, map};
    ghost use Rattle.bc_machine.specs.FileContent.{file_outputs, fresh_outputs, devices};

    /// The tables of these outputs, before anything has been written.
    fn tables(alloc: Global, outputs: Vec<Named<W>>) -> Result<Outputs<W>, Memory>
    where
        W: Drop,
        ensures content { IfOk result (λ tables. file_outputs tables.names.items (map W.contents tables.writers.items)
            ≡ fresh_outputs W.contents outputs.items) }
        ensures writers { IfOk result (λ tables. tables.writers.items ≡ devices outputs.items) }
    {
        let mut names = Vec::with_capacity(alloc, outputs.len())?;
        let mut writers = Vec::with_capacity(alloc, outputs.len())?;
        for output in outputs {
            let Named { name, device } = output;
            names.push(NamedOutput { name, ended: false })?;
            writers.push(device)?;
        }
        Ok(Outputs { names, writers })
    }
}

impl<R: Read, W: Write> FileStreams<R, W> {
    ghost use Rattle.std.specs.Prelude.{◌≡◌, ◌≢◌, ◌≤◌, ℕ, List, map, Option, Some, None, IfOk, IfErr, OnOk, OnErr};
    ghost use Rattle.bc_machine_defs.specs.StreamStart.{opened};
    ghost use Rattle.bc_machine.specs.Rose.{Rose};
    ghost use Rattle.bc_machine.specs.Refusal.{refusal_of};
    ghost use Rattle.bc_machine.specs.declared.faults.StreamsError.TheVariants as faults;
    ghost use Rattle.bc_machine.specs.Names.{given_names};
    ghost use Rattle.bc_machine.specs.FileContent.{file_content, file_writers, file_failures, fresh_inputs, fresh_outputs, devices, AllTell, AllTold, IsKnown};
    ghost use Rattle.bc_machine_defs.specs.Streams.{HoldBytes};

    /// The streams over these named readers and writers, with input 1 and output 1 selected if they exist.
    ///
    /// The names are checked in order, the inputs first: `NameTooLong` for a name of more than 255 bytes, `NameTwice` for one that
    /// already occurred in its table. `Memory` if an allocation fails.
    pub fn new(
        alloc: Global,
        inputs: Vec<Named<R>>,
        outputs: Vec<Named<W>>,
    ) -> Result<FileStreams<R, W>, StreamsError>
    where
        R: Drop,
        W: Drop,
        ensures refused { IfErr result (λ fault. fault ≢ faults.Memory → refusal_of (given_names inputs.items) (given_names outputs.items) ≡ Some fault) }
        ensures accepted { OnOk result (refusal_of (given_names inputs.items) (given_names outputs.items) ≡ None) }
        ensures content { IfOk result (λ streams. file_content R.remaining W.contents streams ≡ opened (fresh_inputs R.remaining inputs.items)
            (fresh_outputs W.contents outputs.items)) }
        ensures told { IfOk result (λ streams. AllTell R.remaining inputs.items → AllTell W.contents outputs.items → AllTold R.remaining W.contents streams) }
        // If the readers say what they hold, and it consists of bytes, and the writers say what they hold, the content is known.
        ensures known { IfOk result (λ streams. AllTell R.remaining inputs.items → HoldBytes (fresh_inputs R.remaining inputs.items)
            → AllTell W.contents outputs.items → IsKnown R.remaining W.contents streams) }
        ensures writers { IfOk result (λ streams. file_writers streams ≡ devices outputs.items) }
        ensures unfailed { IfOk result (λ streams. file_failures streams ≡ 0) }
    {
        if let Some(fault) = refusal(inputs.as_slice()) {
            return Err(fault);
        }
        if let Some(fault) = refusal(outputs.as_slice()) {
            return Err(fault);
        }
        let inputs = FileInput::table(alloc, inputs)?;
        let Outputs { names, writers } = Outputs::tables(alloc, outputs)?;
        let input = number_of_first(inputs.as_slice());
        let output = number_of_first(names.as_slice());
        Ok(FileStreams {
            inputs,
            outputs: names,
            writers,
            input,
            output,
            failures: 0,
        })
    }

    /// The writers of the outputs, in order.
    pub fn writers(&self) -> &[W]
        ensures { result.now ≡ file_writers self.now }
    {
        self.writers.as_slice()
    }

    /// Flushes every output, even after one has failed.
    ///
    /// `DeviceFault` if one fails.
    #[tactic(auto, unfolding(crate::specs::Rose::Rose))]
    pub fn close(&mut self) -> Result<(), DeviceFault>
        ensures content { AllTold R.remaining W.contents self.old → file_content R.remaining W.contents self.new
            ≡ file_content R.remaining W.contents self.old }
        ensures known { AllTold R.remaining W.contents self.old → AllTold R.remaining W.contents self.new }
        ensures failed { OnErr result (Rose (file_failures self.old) (file_failures self.new)) }
        ensures counted { file_failures self.old ≤ file_failures self.new }
    {
        let flushed = flush_all(self.writers.as_mut_slice());
        if flushed.is_err() {
            self.failures = self.failures.saturating_add(1);
        }
        flushed
    }
}

impl<R: Read, W: Write> Streams for FileStreams<R, W> {
    ghost use Rattle.bc_machine.specs.FileContent.{file_content, IsKnown, file_failures};

    ghost content = { file_content R.remaining W.contents };

    ghost known = { IsKnown R.remaining W.contents };

    ghost failures = { file_failures };

    ghost holds_bytes = { λ streams known. known.1 };

    fn find(&self, side: Side, name: &[u8]) -> Word {
        match side {
            Side::Input => number_of(self.inputs.as_slice(), name),
            Side::Output => number_of(self.outputs.as_slice(), name),
        }
    }

    fn select(&mut self, side: Side, number: Word) {
        match side {
            Side::Input => self.input = chosen(number, self.inputs.len()),
            Side::Output => self.output = chosen(number, self.outputs.len()),
        }
    }

    #[tactic(auto, unfolding(crate::specs::Rose::Rose))]
    fn read(&mut self) -> Result<Option<u8>, DeviceFault> {
        if self.input == 0 {
            return Ok(None);
        }
        let input = &mut self.inputs[self.input as usize - 1];
        match input.next_byte() {
            Ok(byte) => Ok(byte),
            Err(fault) => {
                self.failures = self.failures.saturating_add(1);
                Err(fault)
            }
        }
    }

    #[tactic(auto, unfolding(crate::specs::Rose::Rose))]
    fn write(&mut self, byte: u8) -> Result<(), DeviceFault> {
        if self.output == 0 {
            return Ok(());
        }
        if self.outputs[self.output as usize - 1].ended {
            return Ok(());
        }
        let writer = &mut self.writers[self.output as usize - 1];
        match write_byte(writer, byte) {
            Ok(()) => Ok(()),
            Err(fault) => {
                self.failures = self.failures.saturating_add(1);
                Err(fault)
            }
        }
    }

    #[tactic(auto, unfolding(crate::specs::Rose::Rose))]
    fn end(&mut self, side: Side) -> Result<(), DeviceFault> {
        match side {
            Side::Input => {
                if self.input > 0 {
                    let input = &mut self.inputs[self.input as usize - 1];
                    input.ended = true;
                    self.input = 0;
                }
                Ok(())
            }
            Side::Output => {
                if self.output == 0 {
                    return Ok(());
                }
                let writer = &mut self.writers[self.output as usize - 1];
                if let Err(fault) = flush(writer) {
                    self.failures = self.failures.saturating_add(1);
                    return Err(fault);
                }
                let output = &mut self.outputs[self.output as usize - 1];
                output.ended = true;
                self.output = 0;
                Ok(())
            }
        }
    }
}
