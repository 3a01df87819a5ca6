//! A reader and a writer that fail at a given call, and streams in memory.

ghost use Rattle.std.specs.Prelude.{◌≤◌, length};

use bc_machine::{MemoryStreams, Named, StreamsError};
use bc_word::Memory;
use std::alloc::Global;
use std::io;
use std::io::{ErrorKind, Read, Write};

/// A reader that returns one byte for each call, and fails after `left` calls.
#[derive(Drop)]
pub struct Source<'a> {
    /// The remaining bytes.
    pub bytes: &'a [u8],
    /// The number of calls before it fails.
    pub left: usize,
    /// The error with which it fails.
    pub failure: ErrorKind,
}

/// Moves the first of these bytes into a buffer, and returns how many it moved.
fn take(bytes: &mut &[u8], buf: &mut [u8]) -> usize
    ensures { result ≤ length buf.old }
{
    match *bytes {
        [first, rest @ ..] if !buf.is_empty() => {
            buf[0] = *first;
            *bytes = rest;
            1
        }
        _ => 0,
    }
}

impl Read for Source<'_> {
    fn read(&mut self, buf: &mut [u8]) -> io::Result<usize> {
        if self.left == 0 {
            return Err(io::Error::from(self.failure));
        }
        self.left -= 1;
        Ok(take(&mut self.bytes, buf))
    }
}

/// A writer that keeps the bytes that it takes, and gets stuck at one call.
#[derive(Drop)]
pub struct Sink {
    /// The bytes that it took.
    pub taken: Vec<u8>,
    /// The greatest number of bytes that it takes at a call.
    pub most: usize,
    /// The number of calls of `write` up to here.
    pub calls: u32,
    /// The number of the call, counted from 1, at which it gets stuck; 0 for none.
    pub fails: u32,
    /// The error that it returns at that call. None if it takes nothing instead.
    pub failure: Option<ErrorKind>,
    /// Whether it can be flushed, and was.
    pub flushing: Flushing,
}

/// Whether a writer can be flushed, and was.
#[derive(Clone, Copy, PartialEq)]
pub enum Flushing {
    /// Flushing fails.
    Fails,
    /// It can be flushed and wasn't yet.
    Waits,
    /// It was flushed.
    Done,
}

impl Sink {
    ghost use Rattle.std.specs.Prelude.{◌≤◌, IfOk, length};

    /// A writer that takes one byte at a call and never gets stuck.
    pub fn new(alloc: Global) -> Sink {
        Sink {
            taken: Vec::new(alloc),
            most: 1,
            calls: 0,
            fails: 0,
            failure: None,
            flushing: Flushing::Waits,
        }
    }

    /// Takes the first of these bytes.
    fn take(&mut self, buf: &[u8]) -> io::Result<usize>
        ensures { IfOk result (λ count. count ≤ length buf.now) }
    {
        let count = buf.len().min(self.most);
        self.taken.extend_from_slice(&buf[..count])?;
        Ok(count)
    }

    /// What the call at which it gets stuck returns.
    fn fail(&self) -> io::Result<usize>
        ensures { IfOk result (λ count. count ≤ 0) }
    {
        match self.failure {
            Some(kind) => Err(io::Error::from(kind)),
            None => Ok(0),
        }
    }
}

impl Write for Sink {
    fn write(&mut self, buf: &[u8]) -> io::Result<usize> {
        self.calls = self.calls.wrapping_add(1);
        if self.calls == self.fails {
            self.fail()
        } else {
            self.take(buf)
        }
    }

    fn flush(&mut self) -> io::Result<()> {
        if self.flushing == Flushing::Fails {
            return Err(io::Error::from(ErrorKind::BrokenPipe));
        }
        self.flushing = Flushing::Done;
        Ok(())
    }
}

/// A table of one device with this name. Returns `Memory` if an allocation fails.
pub fn named<T: Drop>(alloc: Global, name: &[u8], device: T) -> Result<Vec<Named<T>>, Memory> {
    let name = Vec::from_slice(alloc, name)?;
    let mut table = Vec::new(alloc);
    table.push(Named { name, device })?;
    Ok(table)
}

/// The input SYSIN with these bytes.
fn inputs(alloc: Global, input: &[u8]) -> Result<Vec<Named<Vec<u8>>>, Memory> {
    named(alloc, b"SYSIN", Vec::from_slice(alloc, input)?)
}

/// The name of the output SYSPRINT.
fn outputs(alloc: Global) -> Result<Vec<Vec<u8>>, Memory> {
    let mut names = Vec::new(alloc);
    names.push(Vec::from_slice(alloc, b"SYSPRINT")?)?;
    Ok(names)
}

/// Streams in memory with the input SYSIN and the output SYSPRINT, which has room for this number of bytes.
pub fn memory(alloc: Global, input: &[u8], room: usize) -> Result<MemoryStreams, StreamsError> {
    let outputs = outputs(alloc)?;
    MemoryStreams::new(alloc, inputs(alloc, input)?, outputs, room)
}
