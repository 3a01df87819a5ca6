//! The streams of a run over readers and writers, with notes on what it loses.

ghost use Rattle.std.specs.Prelude.{◌≡◌, ◌≢◌, None, Some, IfOk, IfErr, OnOk, OnErr};
ghost use Rattle.bc_machine.specs.FileContent.{file_content, IsKnown, file_failures};

use crate::closable::ClosableStreams;
use crate::lost::Lost;
use crate::stream_name::StreamName;
use bc_machine::{DeviceFault, FileStreams, Named, Streams, StreamsError};
use bc_machine_defs::Side;
use bc_word::{Memory, Word};
use std::alloc::Global;
use std::cell::Cell;
use std::io::{Read, Write};

/// What is known of the streams of one side while a run goes on.
#[derive(Drop)]
struct SideNotes {
    /// The number of the selected stream, 0 if none is selected.
    selected: u16,
    /// The name that was asked for before nothing was selected.
    unknown: StreamName,
    /// The last name that wasn't found, and the last one whose stream had been ended.
    missed: Cell<StreamName>,
    again: Cell<StreamName>,
    /// Bit N-1 says whether stream N was ended. Streams past the 64th aren't noted.
    ended: u64,
    lost: Lost,
}

/// The bit of the stream with this number.
fn bit_of(number: u16) -> u64 {
    if 1 <= number && number <= 64 {
        1u64 << (number - 1)
    } else {
        0
    }
}

impl SideNotes {
    /// The notes before a run. Stream 1 is selected.
    fn new() -> SideNotes {
        SideNotes {
            selected: 1,
            unknown: StreamName::none(),
            missed: Cell::new(StreamName::none()),
            again: Cell::new(StreamName::none()),
            ended: 0,
            lost: Lost::nothing(),
        }
    }

    /// Notes that a name was asked for, which has this number.
    fn note_name(&self, name: &[u8], number: u16) {
        if number == 0 {
            self.missed.set(StreamName::of(name));
        } else if self.ended & bit_of(number) != 0 {
            self.again.set(StreamName::of(name));
        }
    }

    /// Notes that the stream with this number was selected.
    fn note_selected(&mut self, number: u16) {
        self.selected = number;
        self.unknown = if number == 0 {
            self.missed.get()
        } else {
            StreamName::none()
        };
    }

    /// Notes that the selected stream was ended.
    fn note_ended(&mut self) {
        self.ended |= bit_of(self.selected);
        self.selected = 0;
        self.unknown = StreamName::none();
    }

    /// Notes that a byte went to no stream or an ended one, or that nothing was read, if it is because of that.
    fn note_lost(&mut self) {
        if self.selected == 0 {
            self.lost.nowhere = self.lost.nowhere.saturating_add(1);
            if self.unknown.is_some() {
                self.lost.unknown = self.unknown;
            }
        } else if self.ended & bit_of(self.selected) != 0 {
            self.lost.ended = self.lost.ended.saturating_add(1);
            self.lost.again = self.again.get();
        }
    }
}

/// The streams of a run over readers and writers, with notes on what it loses: what it reads or writes where no stream
/// is selected, as after FINDINPUT or FINDOUTPUT gave 0, and what it reads or writes after the stream was ended.
///
/// As streams they are those over the readers and writers. The notes change nothing.
pub struct NotedStreams<R, W> {
    streams: FileStreams<R, W>,
    input: SideNotes,
    output: SideNotes,
}

impl<R: Drop, W: Drop> Drop for NotedStreams<R, W> {
    fn drop(self) {
        let NotedStreams {
            streams: _,
            input: _,
            output: _,
        } = self;
    }
}

impl<R: Read, W: Write> NotedStreams<R, W> {
    /// The streams over these named readers and writers, with input 1 and output 1 selected if they exist.
    ///
    /// # Errors
    ///
    /// The names are checked in order, the inputs first: `NameTooLong` for a name of more than 255 bytes, `NameTwice`
    /// for one that already occurred in its table. `Memory` if an allocation fails.
    pub fn new(
        alloc: Global,
        inputs: Vec<Named<R>>,
        outputs: Vec<Named<W>>,
    ) -> Result<NotedStreams<R, W>, StreamsError>
    where
        R: Drop,
        W: Drop,
    {
        Ok(NotedStreams {
            streams: FileStreams::new(alloc, inputs, outputs)?,
            input: SideNotes::new(),
            output: SideNotes::new(),
        })
    }
}

impl<R: Read, W: Write> ClosableStreams for NotedStreams<R, W> {
    fn close(&mut self) -> Result<(), DeviceFault> {
        self.streams.close()
    }

    fn lost_lines(&self, alloc: Global) -> Result<String, Memory> {
        let mut lines = String::new(alloc);
        let (input, output) = (self.input.lost, self.output.lost);
        input.add_lines(alloc, &mut lines, Side::Input)?;
        output.add_lines(alloc, &mut lines, Side::Output)?;
        Ok(lines)
    }
}

impl<R: Read, W: Write> Streams for NotedStreams<R, W> {
    ghost content = { λ s. file_content R.remaining W.contents s.streams };

    ghost known = { λ s. IsKnown R.remaining W.contents s.streams };

    ghost failures = { λ s. file_failures s.streams };

    ghost holds_bytes = { λ streams known. known.1 };

    fn find(&self, side: Side, name: &[u8]) -> Word {
        let number = self.streams.find(side, name);
        match side {
            Side::Input => self.input.note_name(name, number.get()),
            Side::Output => self.output.note_name(name, number.get()),
        }
        number
    }

    fn select(&mut self, side: Side, number: Word) {
        self.streams.select(side, number);
        match side {
            Side::Input => self.input.note_selected(number.get()),
            Side::Output => self.output.note_selected(number.get()),
        }
    }

    fn read(&mut self) -> Result<Option<u8>, DeviceFault> {
        let read = self.streams.read();
        if matches!(read, Ok(None)) {
            self.input.note_lost();
        }
        read
    }

    fn write(&mut self, byte: u8) -> Result<(), DeviceFault> {
        let written = self.streams.write(byte);
        if written.is_ok() {
            self.output.note_lost();
        }
        written
    }

    fn end(&mut self, side: Side) -> Result<(), DeviceFault> {
        let done = self.streams.end(side);
        if done.is_ok() {
            match side {
                Side::Input => self.input.note_ended(),
                Side::Output => self.output.note_ended(),
            }
        }
        done
    }
}
