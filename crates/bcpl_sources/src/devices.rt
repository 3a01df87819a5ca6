//! The devices that the streams of a run read from and write to.

ghost use Rattle.bcpl_sources.specs.Devices.{source_remaining, sink_contents};

use bcpl_cli::Failure;
use std::alloc::Global;
use std::io;
use std::io::{BufReader, BufWriter, Read, Write};

/// The device of an input.
#[derive(Drop)]
pub enum Source<R: Read + Drop, F: Read + Drop> {
    /// Standard input.
    Standard(R),
    /// A file.
    File(F),
    /// Nothing: the input is empty.
    Empty,
}

impl<R: Read + Drop, F: Read + Drop> Source<R, F> {
    /// A buffered reader of this source. A failure names it by `name`.
    pub fn buffered(self, alloc: Global, name: &str) -> Result<BufReader<Source<R, F>>, Failure> {
        match BufReader::new(alloc, self) {
            Ok(reader) => Ok(reader),
            Err(error) => Err(Failure::io(alloc, &error, name)),
        }
    }
}

impl<R: Read + Drop, F: Read + Drop> Read for Source<R, F> {
    ghost remaining = { source_remaining R.remaining F.remaining };

    fn read(&mut self, buf: &mut [u8]) -> io::Result<usize> {
        match self {
            Source::Standard(reader) => reader.read(buf),
            Source::File(reader) => reader.read(buf),
            Source::Empty => Ok(0),
        }
    }
}

/// The device of an output.
#[derive(Drop)]
pub enum Sink<O: Write + Drop, F: Write + Drop> {
    /// Standard output.
    Standard(O),
    /// A file.
    File(F),
}

impl<O: Write + Drop, F: Write + Drop> Sink<O, F> {
    /// A buffered writer to this sink. A failure names it by `name`.
    pub fn buffered(self, alloc: Global, name: &str) -> Result<BufWriter<Sink<O, F>>, Failure> {
        match BufWriter::new(alloc, self) {
            Ok(writer) => Ok(writer),
            Err(error) => Err(Failure::io(alloc, &error, name)),
        }
    }

    /// A writer to this sink without a buffer, so that each byte is written at once. A failure names it by `name`.
    pub fn direct(self, alloc: Global, name: &str) -> Result<BufWriter<Sink<O, F>>, Failure> {
        match BufWriter::with_capacity(alloc, 0, self) {
            Ok(writer) => Ok(writer),
            Err(error) => Err(Failure::io(alloc, &error, name)),
        }
    }
}

impl<O: Write + Drop, F: Write + Drop> Write for Sink<O, F> {
    ghost contents = { sink_contents O.contents F.contents };

    fn write(&mut self, buf: &[u8]) -> io::Result<usize> {
        match self {
            Sink::Standard(writer) => writer.write(buf),
            Sink::File(writer) => writer.write(buf),
        }
    }

    fn flush(&mut self) -> io::Result<()> {
        match self {
            Sink::Standard(writer) => writer.flush(),
            Sink::File(writer) => writer.flush(),
        }
    }
}
