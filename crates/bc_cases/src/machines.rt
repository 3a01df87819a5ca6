//! Cases about the machine: runs from a text or from words, with one input and one output in memory.

use crate::answer::Answer;
use crate::growth::Growth;
use crate::number::{number, short, word};
use bc_link::link;
use bc_machine::{End, Machine, MemoryStreams, Named, Streams};
use bc_machine_defs::{Image, Places, Words};
use bc_run::after_primitives;
use bc_text::read_all;
use bc_text_items::Segment;
use bc_word::Word;
use std::alloc::Global;
use std::mem;

/// Stores words as a line `ADDRESS: WORD ..` says.
fn put(store: &mut Vec<Word>, line: &str) {
    let (address, words) = line.split_once(':').unwrap_or((line, ""));
    let mut at = usize::from(short(address));
    for text in words.split_whitespace() {
        if let Some(cell) = store.get_mut(at) {
            *cell = word(text);
        }
        at = at.saturating_add(1);
    }
}

/// The image with these 65,536 words.
fn image_of(alloc: Global, store: Vec<Word>) -> Option<Image> {
    if store.len() != 65536 {
        return None;
    }
    Some(Image {
        words: Words::new(store),
        stack_base: Word::new(520),
        places: Places::new(Vec::new(alloc)),
    })
}

/// A list of these bytes.
fn bytes_of(growth: &mut Growth, bytes: &[u8]) -> Vec<u8> {
    let bytes = Vec::from_slice(growth.alloc(), bytes);
    growth.list(bytes)
}

/// One input, SYSIN, with these bytes.
fn inputs(growth: &mut Growth, bytes: &[u8]) -> Vec<Named<Vec<u8>>> {
    let mut inputs = Vec::new(growth.alloc());
    let name = bytes_of(growth, b"SYSIN");
    let device = bytes_of(growth, bytes);
    growth.push(&mut inputs, Named { name, device });
    inputs
}

/// One output, SYSPRINT.
fn outputs(growth: &mut Growth) -> Vec<Vec<u8>> {
    let mut outputs = Vec::new(growth.alloc());
    let name = bytes_of(growth, b"SYSPRINT");
    growth.push(&mut outputs, name);
    outputs
}

/// What the lines of a case say about the machine and its streams.
#[derive(Drop)]
struct Setting {
    /// The words of the store.
    store: Vec<Word>,
    /// The bytes of the input.
    input: String,
    /// The number of bytes that may be written.
    room: usize,
    /// The number of instructions of each run.
    budgets: Vec<u64>,
}

impl Setting {
    /// Copies the words of an image into the store.
    fn take(&mut self, image: &Image) {
        for (cell, word) in self.store.iter_mut().zip(image.words.as_slice()) {
            *cell = *word;
        }
    }

    /// Sets each cell of the store to 0.
    fn clear(&mut self) {
        for cell in &mut self.store {
            *cell = Word::new(0);
        }
    }

    /// Links segments after the primitives, and copies the image into the store, if there is one.
    fn link_after(&mut self, growth: &mut Growth, segments: Vec<Segment>) {
        match after_primitives(growth.alloc(), segments) {
            Ok(all) => self.link_all(growth.alloc(), all.as_slice()),
            Err(_) => growth.refuse(),
        }
    }

    /// Links segments, and copies the image into the store, if there is one.
    fn link_all(&mut self, alloc: Global, segments: &[Segment]) {
        if let Ok(image) = link(alloc, segments) {
            self.take(&image);
        }
    }

    /// Reads and links a text after the primitives, and copies the image into the store; the store is 0 if there is none.
    fn read_text(&mut self, growth: &mut Growth, text: &str) {
        self.clear();
        if let Ok(segments) = read_all(growth.alloc(), &[text.as_bytes()]) {
            self.link_after(growth, segments);
        }
    }

    /// Takes a line about the words of the store or the room of the output.
    fn set(&mut self, what: &str, rest: &str) {
        match what {
            "words" => put(&mut self.store, rest),
            "room" => self.room = usize::from(short(rest)),
            _ => {}
        }
    }

    /// Takes a line of the case.
    fn read(&mut self, growth: &mut Growth, line: &str) {
        let (what, rest) = line.split_once(' ').unwrap_or(("", ""));
        match what {
            "text" => self.read_text(growth, rest),
            "input" => growth.replace(&mut self.input, rest),
            "run" => growth.push(&mut self.budgets, number(rest)),
            _ => self.set(what, rest),
        }
    }

    /// Takes all lines of the case.
    fn read_all(&mut self, growth: &mut Growth, lines: &str) {
        for line in lines.lines() {
            self.read(growth, line);
        }
    }

    /// Makes the runs, one after another, and appends how each ends and what is written by then.
    fn add_runs(&self, answer: &mut Answer, machine: &mut Machine, streams: &mut MemoryStreams) {
        for budget in &self.budgets {
            let end = machine.run(streams, *budget);
            add_run(answer, end, streams);
        }
    }

    /// Makes the streams and the runs with them.
    fn add_all(&self, answer: &mut Answer, machine: &mut Machine) {
        let inputs = inputs(&mut answer.growth, self.input.as_bytes());
        let outputs = outputs(&mut answer.growth);
        match MemoryStreams::new(answer.alloc(), inputs, outputs, self.room) {
            Ok(mut streams) => self.add_runs(answer, machine, &mut streams),
            Err(_) => answer.refuse(),
        }
    }

    /// Makes the machine with this image, the streams and the runs.
    fn add_of_image(&self, answer: &mut Answer, image: &Image) {
        match Machine::new(answer.alloc(), image) {
            Ok(mut machine) => self.add_all(answer, &mut machine),
            Err(_) => answer.refuse(),
        }
    }

    /// Moves the store out.
    fn take_store(&mut self, alloc: Global) -> Vec<Word> {
        mem::replace(&mut self.store, Vec::new(alloc))
    }
}

/// Appends how a run ended.
fn add_end(answer: &mut Answer, end: End) {
    match end {
        End::BadInstruction(address) => {
            answer.numbered("BadInstruction ", u64::from(address.get()));
        }
        _ => answer.name(&end),
    }
}

/// Appends the line of a run.
fn add_run(answer: &mut Answer, end: End, streams: &MemoryStreams) {
    answer.go_on("\n");
    add_end(answer, end);
    add_written(answer, streams);
}

/// Appends a byte after the number of its output.
fn add_byte(answer: &mut Answer, output: Word, byte: u8) {
    answer.numbered(" ", u64::from(output.get()));
    answer.say(":");
    answer.bytes(&[byte]);
}

/// Appends the bytes that were written, each after the number of its output.
pub fn add_written(answer: &mut Answer, streams: &MemoryStreams) {
    for (output, byte) in streams.written() {
        add_byte(answer, *output, *byte);
    }
}

/// Appends how each run of a case's machine ends, and what is written by then.
pub fn add_steps(answer: &mut Answer, lines: &str) {
    let alloc = answer.alloc();
    let store = vec![in alloc; Word::new(0); 65536];
    let mut setting = Setting {
        store: answer.growth.list(store),
        input: String::new(alloc),
        room: 1000,
        budgets: Vec::new(alloc),
    };
    setting.read_all(&mut answer.growth, lines);
    if let Some(image) = image_of(alloc, setting.take_store(alloc)) {
        setting.add_of_image(answer, &image);
    }
}
