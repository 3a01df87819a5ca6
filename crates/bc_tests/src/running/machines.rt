//! The machine and its streams, with devices and allocations that fail.

use crate::running::devices::{Flushing, Sink, Source, memory, named};
use bc_link::link;
use bc_machine::{
    DeviceFault, End, FileStreams, Image, Machine, MemoryStreams, Places, Side, Streams,
    StreamsError, Words,
};
use bc_run::after_primitives;
use bc_text::read_all;
use bc_word::{Memory, Word};
use std::alloc::Global;
use std::io::ErrorKind;

/// Writes an A.
const PRINTS: &[u8] = b"1 L65 SP4 LIG14 K2 X4 G1L1 Z";

/// Copies one byte of the input to the output.
const ECHOES: &[u8] = b"1 LIG13 K2 SP4 LIG14 K2 X4 G1L1 Z";

/// The image of a text, linked after the primitives.
fn image(alloc: Global, text: &[u8]) -> Option<Image> {
    let segments = read_all(alloc, &[text]).ok()?;
    let all = after_primitives(alloc, segments).ok()?;
    link(alloc, all.as_slice()).ok()
}

/// A machine with that image.
fn machine(alloc: Global, text: &[u8]) -> Option<Machine> {
    let image = image(alloc, text)?;
    Machine::new(alloc, &image).ok()
}

/// A reader of these bytes, which fails at once if `fails` is set.
fn source(bytes: &[u8], fails: bool) -> Source<'_> {
    Source {
        bytes,
        left: if fails { 0 } else { 1000 },
        failure: ErrorKind::BrokenPipe,
    }
}

/// A writer that takes nothing.
fn full(alloc: Global) -> Sink {
    let mut sink = Sink::new(alloc);
    sink.fails = 1;
    sink
}

/// A writer that can't be flushed.
fn unflushed(alloc: Global) -> Sink {
    let mut sink = Sink::new(alloc);
    sink.flushing = Flushing::Fails;
    sink
}

/// Streams over a reader and a writer.
fn files<'a>(
    alloc: Global,
    source: Source<'a>,
    sink: Sink,
) -> Result<FileStreams<Source<'a>, Sink>, StreamsError> {
    let inputs = named(alloc, b"SYSIN", source)?;
    FileStreams::new(alloc, inputs, named(alloc, b"SYSPRINT", sink)?)
}

/// The bytes that the writer of output 1 took.
fn taken<'a>(streams: &'a FileStreams<Source<'_>, Sink>) -> &'a [u8] {
    match streams.writers() {
        [] => &[],
        [sink, ..] => sink.taken.as_slice(),
    }
}

/// Whether a run with these streams ends because of a device, with nothing written.
fn fails_over(machine: &mut Machine, streams: &mut MemoryStreams) -> bool {
    machine.run(streams, 1000) == End::Device && streams.written().is_empty()
}

/// Whether a run with a full output ends because of the device, and the same machine then also with an output that has room.
fn ends_for_good(alloc: Global) -> Option<bool> {
    let mut machine = machine(alloc, PRINTS)?;
    for room in [0, 10] {
        let mut streams = memory(alloc, b"", room).ok()?;
        if !fails_over(&mut machine, &mut streams) {
            return Some(false);
        }
    }
    Some(true)
}

/// Whether a run with this reader and writer ends because of a device, with nothing taken.
fn ends_over(alloc: Global, text: &[u8], source: Source<'_>, sink: Sink) -> Option<bool> {
    let mut machine = machine(alloc, text)?;
    let mut streams = files(alloc, source, sink).ok()?;
    Some(machine.run(&mut streams, 1000) == End::Device && taken(&streams).is_empty())
}

#[test]
fn a_full_memory_ends_the_run(rt: HostRuntime) {
    assert_eq!(rt; ends_for_good(rt.alloc()), Some(true));
}

#[test]
fn a_full_device_ends_the_run(rt: HostRuntime) {
    let ended = ends_over(rt.alloc(), PRINTS, source(b"", false), full(rt.alloc()));
    assert_eq!(rt; ended, Some(true));
}

#[test]
fn a_failing_reader_ends_the_run(rt: HostRuntime) {
    let ended = ends_over(
        rt.alloc(),
        ECHOES,
        source(b"h", true),
        Sink::new(rt.alloc()),
    );
    assert_eq!(rt; ended, Some(true));
}

/// A call to streams.
#[derive(Clone, Copy)]
enum Call {
    /// `find` with a name.
    Find(Side, &'static [u8]),
    /// `select` with a number.
    Select(Side, u16),
    /// `write`.
    Write(u8),
    /// `read`.
    Read,
    /// `end`.
    End(Side),
}

/// What a call to streams returns.
#[derive(Clone, Copy, PartialEq)]
enum Told {
    /// The number that `find` returns.
    Number(u16),
    /// Success.
    Done,
    /// `DeviceFault`.
    Failed,
    /// What `read` returns.
    Byte(Option<u8>),
}

/// What `read` returns.
fn read<S: Streams>(streams: &mut S) -> Told {
    match streams.read() {
        Ok(byte) => Told::Byte(byte),
        Err(DeviceFault) => Told::Failed,
    }
}

/// What a call without a value returns.
fn done(answer: Result<(), DeviceFault>) -> Told {
    match answer {
        Ok(()) => Told::Done,
        Err(DeviceFault) => Told::Failed,
    }
}

/// What `select` returns.
fn select<S: Streams>(streams: &mut S, side: Side, number: u16) -> Told {
    streams.select(side, Word::new(number));
    Told::Done
}

/// Makes a call.
fn called<S: Streams>(streams: &mut S, call: Call) -> Told {
    match call {
        Call::Find(side, name) => Told::Number(streams.find(side, name).get()),
        Call::Select(side, number) => select(streams, side, number),
        Call::Write(byte) => done(streams.write(byte)),
        Call::Read => read(streams),
        Call::End(side) => done(streams.end(side)),
    }
}

/// Calls to streams with a reader of two bytes and a writer that can't be flushed, each with what it must return.
const CALLS: [(Call, Told); 10] = [
    (Call::Find(Side::Output, b"SYSPRINT"), Told::Number(1)),
    (Call::Find(Side::Output, b"SYSIN"), Told::Number(0)),
    (Call::End(Side::Output), Told::Failed),
    (Call::Write(b'x'), Told::Done),
    (Call::Read, Told::Byte(Some(b'a'))),
    (Call::End(Side::Input), Told::Done),
    (Call::Select(Side::Input, 1), Told::Done),
    (Call::Read, Told::Byte(None)),
    (Call::Select(Side::Output, 2), Told::Done),
    (Call::Write(b'y'), Told::Done),
];

/// The first of the calls that returns something else.
fn differing<S: Streams>(streams: &mut S) -> Option<usize> {
    for (number, (call, told)) in CALLS.iter().enumerate() {
        if called(streams, *call) != *told {
            return Some(number);
        }
    }
    None
}

/// Whether each call returns what it must, and the writer took the one byte that was written to it.
fn answers_calls(alloc: Global) -> Option<bool> {
    let mut streams = files(alloc, source(b"ab", false), unflushed(alloc)).ok()?;
    Some(differing(&mut streams).is_none() && taken(&streams) == b"x".as_slice())
}

#[test]
fn streams_are_found_selected_and_ended(rt: HostRuntime) {
    assert_eq!(rt; answers_calls(rt.alloc()), Some(true));
}

/// Streams with two writers, of which the first can't be flushed.
fn two_outputs(alloc: Global) -> Result<FileStreams<Source<'static>, Sink>, StreamsError> {
    let mut outputs = named(alloc, b"A", unflushed(alloc))?;
    let second = named(alloc, b"B", Sink::new(alloc))?;
    for output in second {
        outputs.push(output).map_err(Memory::from)?;
    }
    FileStreams::new(alloc, Vec::new(alloc), outputs)
}

/// Whether only the second of two writers was flushed.
fn is_second_flushed(writers: &[Sink]) -> bool {
    match writers {
        [first, second] => {
            first.flushing == Flushing::Fails && second.flushing == Flushing::Done
        }
        _ => false,
    }
}

/// Whether closing reports that the first writer failed, and still flushes the second.
fn closes_all(alloc: Global) -> Option<bool> {
    let mut streams = two_outputs(alloc).ok()?;
    Some(streams.close() == Err(DeviceFault) && is_second_flushed(streams.writers()))
}

#[test]
fn close_flushes_every_output(rt: HostRuntime) {
    assert_eq!(rt; closes_all(rt.alloc()), Some(true));
}

/// An image of zeros.
fn blank(alloc: Global) -> Result<Image, Memory> {
    let words = vec![in alloc; Word::new(0); 65536]?;
    Ok(Image {
        words: Words::new(words),
        stack_base: Word::new(520),
        places: Places::new(Vec::new(alloc)),
    })
}

/// Runs a machine with streams in memory, and returns the next byte of their input.
fn over_memory(alloc: Global) -> Result<Option<u8>, StreamsError> {
    let mut machine = Machine::new(alloc, &blank(alloc)?)?;
    let mut memory = memory(alloc, b"h", 10)?;
    let _spent = machine.run(&mut memory, 10);
    Ok(memory.read().unwrap_or(None))
}

/// The next byte of the input of streams with a reader and a writer.
fn over_files(alloc: Global) -> Result<Option<u8>, StreamsError> {
    let mut files = files(alloc, source(b"h", false), Sink::new(alloc))?;
    Ok(files.read().unwrap_or(None))
}

/// Makes a machine and both kinds of streams, and reads a byte from each.
fn makes_all(alloc: Global) -> Result<[Option<u8>; 2], StreamsError> {
    Ok([over_memory(alloc)?, over_files(alloc)?])
}

#[test]
fn growth_is_given(rt: HostRuntime) {
    assert_eq!(rt; makes_all(rt.alloc()), Ok([Some(b'h'), Some(b'h')]));
}

/// Under `tests/stress/failed-allocations` each allocation fails in turn. The result must be right, or a failed allocation.
#[test]
fn refused_growth_is_memory(rt: HostRuntime) {
    let got = makes_all(rt.alloc());
    assert!(rt; got == Ok([Some(b'h'), Some(b'h')]) || got == Err(StreamsError::Memory));
}
