//! Cases about streams in memory: a call for each line.

use crate::answer::Answer;
use crate::escapes::expanded;
use crate::growth::Growth;
use crate::machines::add_written;
use crate::number::word;
use bc_machine::{MemoryStreams, Named, Side, Streams};

/// The input that `NAME=CONTENT` describes.
fn input_of(growth: &mut Growth, binding: &str) -> Named<Vec<u8>> {
    let (name, content) = binding.split_once('=').unwrap_or((binding, ""));
    let device = expanded(growth, content);
    Named {
        name: expanded(growth, name),
        device,
    }
}

/// The inputs that a line of `NAME=CONTENT` fields describes.
fn inputs(growth: &mut Growth, line: &str) -> Vec<Named<Vec<u8>>> {
    let mut inputs = Vec::new(growth.alloc());
    for binding in line.split_whitespace() {
        let input = input_of(growth, binding);
        growth.push(&mut inputs, input);
    }
    inputs
}

/// The outputs with the names in a line.
fn outputs(growth: &mut Growth, line: &str) -> Vec<Vec<u8>> {
    let mut outputs = Vec::new(growth.alloc());
    for name in line.split_whitespace() {
        let name = expanded(growth, name);
        growth.push(&mut outputs, name);
    }
    outputs
}

/// The side with this name; anything but `input` is the output side.
fn side_of(word: &str) -> Side {
    if word == "input" {
        Side::Input
    } else {
        Side::Output
    }
}

/// Appends a byte that was read.
fn add_byte(answer: &mut Answer, byte: u8) {
    answer.say("read ");
    answer.bytes(&[byte]);
}

/// Reads a byte, and appends the result.
fn add_read(answer: &mut Answer, streams: &mut MemoryStreams) {
    match streams.read() {
        Ok(Some(byte)) => add_byte(answer, byte),
        Ok(None) => answer.say("read nothing"),
        Err(_) => add_done(answer, false),
    }
}

/// Appends whether a call succeeded.
fn add_done(answer: &mut Answer, done: bool) {
    answer.say(if done { "done" } else { "the device failed" });
}

/// Selects the stream with this number.
fn add_selected(answer: &mut Answer, streams: &mut MemoryStreams, side: Side, number: &str) {
    streams.select(side, word(number));
    add_done(answer, true);
}

/// Appends the number of the stream with this name.
fn add_found(answer: &mut Answer, streams: &MemoryStreams, side: Side, name: &str) {
    let number = streams.find(side, name.as_bytes()).get();
    answer.numbered("number ", u64::from(number));
}

/// Writes the first of these bytes, if there is one, and appends whether it succeeded.
fn add_sent(answer: &mut Answer, streams: &mut MemoryStreams, bytes: &[u8]) {
    if let Some(byte) = bytes.first() {
        add_done(answer, streams.write(*byte).is_ok());
    }
}

/// Makes the call that a line describes, and appends its result.
fn act(answer: &mut Answer, streams: &mut MemoryStreams, line: &str) {
    let (action, rest) = line.split_once(' ').unwrap_or((line, ""));
    let (side, value) = rest.split_once(' ').unwrap_or((rest, ""));
    let side = side_of(side);
    match action {
        "find" => add_found(answer, streams, side, value),
        "select" => add_selected(answer, streams, side, value),
        "write" => add_sent(answer, streams, rest.as_bytes()),
        "end" => add_done(answer, streams.end(side).is_ok()),
        _ => add_read(answer, streams),
    }
}

/// The first line of a text, and the rest.
fn front(text: &str) -> (&str, &str) {
    text.split_once('\n').unwrap_or((text, ""))
}

/// Appends the results of calls to streams in memory. The first line of the input has the inputs, the second the outputs, the third the
/// number of bytes that may be written; then comes a line for each call.
pub fn add_streams(answer: &mut Answer, input: &str) {
    let (first, input) = front(input);
    let (second, input) = front(input);
    let (third, lines) = front(input);
    let inputs = inputs(&mut answer.growth, first);
    let outputs = outputs(&mut answer.growth, second);
    let room = usize::from(word(third).get());
    match MemoryStreams::new(answer.alloc(), inputs, outputs, room) {
        Ok(mut streams) => add_acts(answer, &mut streams, lines),
        Err(fault) => answer.name(&fault),
    }
}

/// Makes the calls that these lines describe, and appends their results.
fn act_all(answer: &mut Answer, streams: &mut MemoryStreams, lines: &str) {
    for line in lines.lines() {
        answer.say("\n");
        act(answer, streams, line);
    }
}

/// Makes the calls that these lines describe, and appends their results and what was written.
fn add_acts(answer: &mut Answer, streams: &mut MemoryStreams, lines: &str) {
    answer.say("made");
    act_all(answer, streams, lines);
    answer.say("\nwritten");
    add_written(answer, streams);
}
