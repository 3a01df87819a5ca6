//! Cases that replace each byte of an input by every other one in turn, and count the answers.

use crate::answer::Answer;
use crate::escapes::expanded;
use crate::growth::Growth;
use crate::linking::text_of;
use crate::number::{count, next, short};
use bc_cert::{Judged, check};
use bc_lex::{Source, lex};
use bc_library::{BLIB, LIBHDR};
use bc_text::{TextError, read_all};
use bc_text_items::Segment;
use std::alloc::Global;

/// How often each answer occurs, the sum of the places of faults, and the numbers of segments and items.
#[derive(Drop)]
struct Tally {
    lawful: u64,
    segments: u64,
    items: u64,
    characters: u64,
    numbers: u64,
    labels: u64,
    unended: u64,
    places: u64,
}

impl Tally {
    /// Counts an answer.
    fn add(&mut self, got: Result<Vec<Segment>, TextError>) {
        match got {
            Ok(segments) => self.add_lawful(segments.as_slice()),
            Err(fault) => self.add_fault(&fault),
        }
    }

    /// Counts a text that was read.
    fn add_lawful(&mut self, segments: &[Segment]) {
        count(&mut self.lawful);
        for segment in segments {
            count(&mut self.segments);
            self.items = self.items.wrapping_add(segment.items().len() as u64);
        }
    }

    /// Counts a fault.
    fn add_fault(&mut self, fault: &TextError) {
        match fault {
            TextError::BadCharacter(_) => count(&mut self.characters),
            TextError::BadNumber(_) => count(&mut self.numbers),
            TextError::MissingLabel(_) => count(&mut self.labels),
            TextError::Unended => count(&mut self.unended),
            _ => {}
        }
        self.places = self.places.wrapping_add(place_of(fault));
    }
}

/// The place of a fault, or 0 if it has none.
fn place_of(fault: &TextError) -> u64 {
    match fault {
        TextError::BadCharacter(at) | TextError::BadNumber(at) | TextError::MissingLabel(at) => *at,
        _ => 0,
    }
}

/// Replaces the byte at an index, and returns the old one.
fn put(bytes: &mut Vec<u8>, at: usize, byte: u8) -> u8 {
    match bytes.get_mut(at) {
        Some(cell) => {
            let old = *cell;
            *cell = byte;
            old
        }
        None => byte,
    }
}

/// Counts the answers to all texts that differ from this one only in the byte at this index.
fn try_texts_at(alloc: Global, tally: &mut Tally, bytes: &mut Vec<u8>, at: usize) {
    for byte in 0..=u8::MAX {
        let old = put(bytes, at, byte);
        if byte != old {
            tally.add(read_all(alloc, &[bytes.as_slice()]));
        }
        put(bytes, at, old);
    }
}

/// Appends how often each answer occurs among all texts that differ from the input in one byte.
pub fn add_texts(answer: &mut Answer, input: &str) {
    let mut bytes = text_of(&mut answer.growth, input);
    let mut tally = Tally {
        lawful: 0,
        segments: 0,
        items: 0,
        characters: 0,
        numbers: 0,
        labels: 0,
        unended: 0,
        places: 0,
    };
    for at in 0..bytes.len() {
        try_texts_at(answer.alloc(), &mut tally, &mut bytes, at);
    }
    add_tally(answer, &tally);
}

/// Appends the counts.
fn add_tally(answer: &mut Answer, tally: &Tally) {
    answer.sentence(
        "{} lawful, with {} segments and {} items\n",
        &[tally.lawful, tally.segments, tally.items],
    );
    answer.sentence(
        "{} BadCharacter, {} BadNumber, {} MissingLabel, the sum of their places {}\n{} Unended",
        &[
            tally.characters,
            tally.numbers,
            tally.labels,
            tally.places,
            tally.unended,
        ],
    );
}

/// The number of entries and the sum of their words.
#[derive(Clone, Copy)]
struct Sum {
    entries: usize,
    words: u64,
}

/// The number of these entries and the sum of their words.
fn sum_of(entries: &[Judged]) -> Sum {
    let mut words: u64 = 0;
    for entry in entries {
        words = words.wrapping_add(entry.words);
    }
    Sum {
        entries: entries.len(),
        words,
    }
}

/// The same for an accepted certificate. None if it is refused.
fn verdict(alloc: Global, bytes: &[u8]) -> Option<Sum> {
    match check(alloc, bytes) {
        Ok(verdict) => Some(sum_of(verdict.entries.as_slice())),
        Err(_) => None,
    }
}

/// Whether a certificate is accepted with this number of entries and words.
fn has_verdict(alloc: Global, bytes: &[u8], wanted: Sum) -> bool {
    match verdict(alloc, bytes) {
        Some(sum) => sum.entries == wanted.entries && sum.words == wanted.words,
        None => false,
    }
}

/// How many certificates that differ from this one only in the byte at this index are accepted with as many entries and words.
fn count_accepted_at(alloc: Global, bytes: &mut Vec<u8>, at: usize, wanted: Sum) -> u64 {
    let mut accepted: u64 = 0;
    for byte in 0..=u8::MAX {
        let old = put(bytes, at, byte);
        if byte != old && has_verdict(alloc, bytes.as_slice(), wanted) {
            count(&mut accepted);
        }
        put(bytes, at, old);
    }
    accepted
}

/// Appends how many certificates that differ from this one in one byte are accepted with as many entries and words.
fn add_accepted(answer: &mut Answer, bytes: &mut Vec<u8>, wanted: Sum) {
    let mut accepted: u64 = 0;
    for at in 0..bytes.len() {
        accepted = accepted.wrapping_add(count_accepted_at(answer.alloc(), bytes, at, wanted));
    }
    answer.sentence("{} accepted", &[accepted]);
}

/// Appends the same for the certificate in an input, or that it is refused.
pub fn add_certificates(answer: &mut Answer, input: &str) {
    let mut bytes = expanded(&mut answer.growth, input);
    match verdict(answer.alloc(), bytes.as_slice()) {
        Some(wanted) => add_accepted(answer, &mut bytes, wanted),
        None => answer.say("refused"),
    }
}

/// Whether this text, as BLIB, has tokens.
fn has_tokens(alloc: Global, text: &[u8]) -> bool {
    let sources = [
        Source {
            name: b"BLIB",
            text,
        },
        Source {
            name: b"LIBHDR",
            text: LIBHDR.as_bytes(),
        },
    ];
    lex(alloc, &sources, 0).is_ok()
}

/// How many of the 256 texts that are BLIB with any byte at this index have tokens.
fn count_texts_at(alloc: Global, bytes: &mut Vec<u8>, at: usize) -> u64 {
    let mut accepted: u64 = 0;
    for byte in 0..=u8::MAX {
        let old = put(bytes, at, byte);
        if has_tokens(alloc, bytes.as_slice()) {
            count(&mut accepted);
        }
        put(bytes, at, old);
    }
    accepted
}

/// The same for all indexes from `from` to before `to`.
fn count_texts(growth: &mut Growth, from: usize, to: usize) -> u64 {
    let bytes = Vec::from_slice(growth.alloc(), BLIB.as_bytes());
    let mut bytes = growth.list(bytes);
    let mut accepted: u64 = 0;
    for at in from..to {
        accepted = accepted.wrapping_add(count_texts_at(growth.alloc(), &mut bytes, at));
    }
    accepted
}

/// Appends whether more than 10,000 of these texts have tokens. The two indexes are in the input.
pub fn add_sources(answer: &mut Answer, input: &str) {
    let mut places = input.split_whitespace();
    let from = usize::from(short(next(&mut places)));
    let to = usize::from(short(next(&mut places)));
    let accepted = count_texts(&mut answer.growth, from, to);
    if accepted > 10_000 {
        answer.say("over 10000 have tokens");
    } else {
        answer.sentence("{} have tokens", &[accepted]);
    }
}
