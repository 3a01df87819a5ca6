//! Cases about texts of INTCODE: the items or the fault of a text however it is cut, and its words.

use crate::answer::Answer;
use crate::escapes::expanded;
use crate::growth::Growth;
use bc_rules::words;
use bc_rules_defs::Piece;
use bc_text::{Reader, TextError, read_all};
use bc_text_items::{Item, Segment};
use bcpl_show::ShownItem;
use std::alloc::Global;

/// The bytes of an input with escapes and repetitions expanded, without its last line feed.
pub fn text_of(growth: &mut Growth, input: &str) -> Vec<u8> {
    expanded(growth, input.strip_suffix('\n').unwrap_or(input))
}

/// Appends an item and a blank.
fn add_item(answer: &mut Answer, item: &Item) {
    let item = ShownItem(item);
    answer.show(&item);
    answer.say(" ");
}

/// Appends the items of a segment and its end.
fn add_segment(answer: &mut Answer, segment: &Segment) {
    for item in segment.items() {
        add_item(answer, item);
    }
    answer.say("Z ");
}

/// Appends the items of segments.
fn add_items(answer: &mut Answer, segments: &[Segment]) {
    for segment in segments {
        add_segment(answer, segment);
    }
}

/// Appends the items of a segment to pieces of code.
fn add_pieces(growth: &mut Growth, pieces: &mut Vec<Piece>, segment: &Segment) {
    for item in segment.items() {
        growth.push(pieces, Piece::Item(*item));
    }
}

/// Appends the number of words of these pieces of code.
fn add_count(answer: &mut Answer, pieces: &[Piece]) {
    if pieces.len() < 1 << 32 {
        answer.number(words(pieces));
    } else {
        answer.say("too many");
    }
}

/// Appends the number of words of segments.
fn add_words(answer: &mut Answer, segments: &[Segment]) {
    let mut pieces = Vec::new(answer.alloc());
    for segment in segments {
        add_pieces(&mut answer.growth, &mut pieces, segment);
    }
    add_count(answer, pieces.as_slice());
}

/// Appends the number of words of the segments, or 0 for an error.
fn add_read_words(answer: &mut Answer, read: Result<Vec<Segment>, TextError>) {
    match read {
        Ok(segments) => add_words(answer, segments.as_slice()),
        Err(_) => answer.number(0),
    }
}

/// Appends the number of words of a text.
pub fn add_text_words(answer: &mut Answer, input: &str) {
    let text = text_of(&mut answer.growth, input);
    let read = read_all(answer.alloc(), &[text.as_slice()]);
    add_read_words(answer, read);
}

/// Appends the items of the segments, or the error.
fn add_read(answer: &mut Answer, read: Result<Vec<Segment>, TextError>) {
    match read {
        Ok(segments) => add_items(answer, segments.as_slice()),
        Err(fault) => answer.name(&fault),
    }
}

/// The items of the segments, or the error, as text.
fn items_of(growth: &mut Growth, read: Result<Vec<Segment>, TextError>) -> String {
    let mut items = Answer::new(growth.alloc());
    add_read(&mut items, read);
    items.into_text(growth)
}

/// Whether the items of the segments, or the error, are the expected text.
fn is_same(growth: &mut Growth, read: Result<Vec<Segment>, TextError>, wanted: &str) -> bool {
    let items = items_of(growth, read);
    items.as_str() == wanted
}

/// Reads a text one byte at a time. Returns its fault if it has one.
fn read_slowly(alloc: Global, text: &[u8]) -> Result<Vec<Segment>, TextError> {
    let mut reader = Reader::new(alloc);
    for byte in text {
        reader.feed(&[*byte])?;
    }
    reader.finish()
}

/// The first index at which the text, cut in two there, has another answer than this one.
fn differing_cut(growth: &mut Growth, text: &[u8], whole: &str) -> Option<usize> {
    for at in 0..text.len() {
        let read = read_all(growth.alloc(), &[&text[..at], &text[at..]]);
        if !is_same(growth, read, whole) {
            return Some(at);
        }
    }
    None
}

/// Appends the answer to the whole text, if it is the same for the text cut in two anywhere.
fn add_uncut(answer: &mut Answer, text: &[u8], whole: &str) {
    match differing_cut(&mut answer.growth, text, whole) {
        Some(at) => answer.numbered("another answer when cut at ", at as u64),
        None => answer.say(whole.strip_suffix(' ').unwrap_or(whole)),
    }
}

/// Appends the answer to the whole text, if it is the same byte by byte and for the text cut in two anywhere.
fn add_agreed(answer: &mut Answer, text: &[u8], whole: &str) {
    let slowly = read_slowly(answer.alloc(), text);
    if is_same(&mut answer.growth, slowly, whole) {
        add_uncut(answer, text, whole);
    } else {
        answer.say("another answer byte by byte");
    }
}

/// Appends the answer to a text, if it is the same in one piece, byte by byte, and cut in two anywhere.
pub fn add_text(answer: &mut Answer, input: &str) {
    let text = text_of(&mut answer.growth, input);
    let read = read_all(answer.alloc(), &[text.as_slice()]);
    let whole = items_of(&mut answer.growth, read);
    add_agreed(answer, text.as_slice(), whole.as_str());
}
