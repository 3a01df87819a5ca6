//! The kinds of cases, and which function computes the answer of each.

use crate::answer::Answer;
use crate::escapes::expanded;
use crate::rules::OfRoot;
use crate::{arithmetic, linking, machines, rules, streams, sweeps, tokens};
use std::str;

/// A kind of cases about roots and their code. Escapes and repetitions in its inputs are expanded first.
#[derive(Clone, Copy)]
enum OfRoots {
    Root(OfRoot),
    Operand,
    Free,
    AlteredCertificates,
}

/// The names of these kinds.
const OF_ROOTS: [(&str, OfRoots); 5] = [
    ("derivation", OfRoots::Root(OfRoot::Derivation)),
    ("copy", OfRoots::Root(OfRoot::Copied)),
    ("operand", OfRoots::Operand),
    ("free", OfRoots::Free),
    ("altered certificates", OfRoots::AlteredCertificates),
];

/// Any other kind of cases: about the library, words, texts and machines.
#[derive(Clone, Copy)]
enum Other {
    Library,
    Rendered,
    AlteredSources,
    Arithmetic,
    Word,
    Operator,
    Symbol,
    Text,
    TextWords,
    Steps,
    Streams,
    AlteredTexts,
}

/// The names of these kinds.
const OTHERS: [(&str, Other); 12] = [
    ("library", Other::Library),
    ("rendered", Other::Rendered),
    ("altered sources", Other::AlteredSources),
    ("arithmetic", Other::Arithmetic),
    ("word", Other::Word),
    ("operator", Other::Operator),
    ("symbol", Other::Symbol),
    ("text", Other::Text),
    ("words of a text", Other::TextWords),
    ("steps", Other::Steps),
    ("streams", Other::Streams),
    ("altered texts", Other::AlteredTexts),
];

/// The value that a list has for a name.
fn named<T: Copy>(list: &[(&str, T)], name: &str) -> Option<T> {
    for (known, found) in list {
        if *known == name {
            return Some(*found);
        }
    }
    None
}

/// Appends the answer to an expanded input about roots.
fn of_roots(answer: &mut Answer, kind: OfRoots, input: &str) {
    match kind {
        OfRoots::Root(what) => rules::add_told(answer, what, input),
        OfRoots::Operand => rules::add_operands(answer, input),
        OfRoots::Free => rules::add_freedom(answer, input),
        OfRoots::AlteredCertificates => sweeps::add_certificates(answer, input),
    }
}

/// Appends the answer to an input of another kind.
fn of_others(answer: &mut Answer, kind: Other, input: &str) {
    match kind {
        Other::Library => tokens::add_library(answer, input),
        Other::Rendered => tokens::add_text(answer, input),
        Other::AlteredSources => sweeps::add_sources(answer, input),
        Other::Arithmetic => arithmetic::add_applied(answer, input),
        Other::Word => arithmetic::add_word(answer, input),
        Other::Operator => arithmetic::add_operator(answer, input),
        Other::Symbol => arithmetic::add_symbol(answer, input),
        Other::Text => linking::add_text(answer, input),
        Other::TextWords => linking::add_text_words(answer, input),
        Other::Steps => machines::add_steps(answer, input),
        Other::Streams => streams::add_streams(answer, input),
        Other::AlteredTexts => sweeps::add_texts(answer, input),
    }
}

/// Expands an input about roots, and appends the answer.
fn of_expanded(answer: &mut Answer, kind: OfRoots, input: &str) {
    let bytes = expanded(&mut answer.growth, input);
    of_roots(
        answer,
        kind,
        str::from_utf8(bytes.as_slice()).unwrap_or(input),
    );
}

/// Appends the answer to an input of a kind that isn't about roots, or that there is no such kind.
fn add_other(answer: &mut Answer, kind: &str, input: &str) {
    match named(&OTHERS, kind) {
        Some(kind) => of_others(answer, kind, input),
        None => answer.say("no such kind"),
    }
}

/// Appends the answer to an input of this kind, or that there is no such kind.
pub fn add_answer(answer: &mut Answer, kind: &str, input: &str) {
    match named(&OF_ROOTS, kind) {
        Some(kind) => of_expanded(answer, kind, input),
        None => add_other(answer, kind, input),
    }
}
