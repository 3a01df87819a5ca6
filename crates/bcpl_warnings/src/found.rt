//! What a check found, and how it is said.

use crate::calls::only_character;
use crate::known::{Known, sign_of};
use bc_word::Memory;
use bcpl_catalogue::texts_of;
use bcpl_index::Form;
use bcpl_messages::{Draft, Fill, add_sentence};
use bcpl_places::Span;
use std::alloc::Global;

/// What a check found: the id of its texts, and what fills their holes.
#[derive(Clone, Copy)]
pub struct Found {
    id: u16,
    /// The id whose help is given.
    help: u16,
    /// The finding is shown from the first leaf of this node to the last one of `to`.
    at: usize,
    to: usize,
    /// The node of hole 1, and so on.
    first: usize,
    second: usize,
    third: usize,
    fourth: usize,
    /// The numbers of the holes n and m.
    n: u64,
    m: u64,
    /// The text of the hole w.
    word: &'static str,
    /// Where the finding is shown if that isn't at nodes.
    place: Option<Span>,
}

impl Found {
    /// A finding at a node, which also fills the holes.
    pub fn new(id: u16, at: usize) -> Found {
        Found {
            id,
            help: id,
            at,
            to: at,
            first: at,
            second: at,
            third: at,
            fourth: at,
            n: 0,
            m: 0,
            word: "",
            place: None,
        }
    }

    /// The same finding, shown up to the end of this node.
    pub fn to(self, to: usize) -> Found {
        Found { to, ..self }
    }

    /// The same finding, with this node in hole 1.
    pub fn of(self, first: usize) -> Found {
        Found { first, ..self }
    }

    /// The same finding, with these nodes in the holes 1 and 2.
    pub fn with(self, first: usize, second: usize) -> Found {
        Found {
            first,
            second,
            ..self
        }
    }

    /// The same finding, with these nodes in the holes 3 and 4.
    pub fn and(self, third: usize, fourth: usize) -> Found {
        Found {
            third,
            fourth,
            ..self
        }
    }

    /// The same finding, with these numbers in the holes n and m.
    pub fn counting(self, n: u64, m: u64) -> Found {
        Found { n, m, ..self }
    }

    /// The same finding, with this text in the hole w.
    pub fn saying(self, word: &'static str) -> Found {
        Found { word, ..self }
    }

    /// The same finding, with the help of this id.
    pub fn helped(self, help: u16) -> Found {
        Found { help, ..self }
    }

    /// The same finding, shown at this place.
    pub fn placed(self, place: Span) -> Found {
        Found {
            place: Some(place),
            ..self
        }
    }

    /// The node that the digit of a hole names.
    fn node(&self, digit: u8) -> usize {
        match digit {
            b'1' => self.first,
            b'2' => self.second,
            b'3' => self.third,
            b'4' => self.fourth,
            _ => self.at,
        }
    }
}

/// How the operator of a node is written.
fn sign_at(known: &Known<'_, '_>, at: usize) -> &'static str {
    match known.tree.form(at) {
        Form::Bin(sign) => sign_of(sign),
        _ => "",
    }
}

/// What a hole shows of a node: the sign of its operator, its kind of value, its first token, the character in its
/// quotes, or else its text.
fn part_of<'s>(known: &Known<'_, 's>, at: usize, what: u8) -> Fill<'s> {
    match what {
        b's' => Fill::Text(sign_at(known, at)),
        b'k' => Fill::Text(known.kinds.kind(at).name()),
        b't' => Fill::Shown(known.tree.text(at)),
        b'c' => match only_character(known.text(at, at)) {
            Some(inside) => Fill::Shown(inside),
            None => known.shown(at),
        },
        _ => known.shown(at),
    }
}

/// Appends a number as it is, as a signed word, as the character of this code, or as the plural's `s`. Returns `Memory`
/// if an allocation fails.
fn add_number(text: &mut String, number: u64, how: u8) -> Result<(), Memory> {
    match how {
        b'c' => match u8::try_from(number) {
            Ok(code) => add_sentence(text, "{}", &[Fill::Shown(&[code])]),
            Err(_) => Ok(()),
        },
        b's' if number == 1 => Ok(()),
        b's' => Ok(text.push_str("s")?),
        b'i' if number > 32767 => {
            let size = 65536_u64.saturating_sub(number);
            add_sentence(text, "-{}", &[Fill::Number(size)])
        }
        _ => add_sentence(text, "{}", &[Fill::Number(number)]),
    }
}

/// Appends what fills a hole. Returns `Memory` if an allocation fails.
fn add_hole(
    text: &mut String,
    known: &Known<'_, '_>,
    found: &Found,
    hole: &[u8],
) -> Result<(), Memory> {
    let (which, how) = match hole {
        [which] => (*which, b' '),
        [which, how] => (*which, *how),
        _ => return Ok(()),
    };
    match which {
        b'n' => add_number(text, found.n, how),
        b'm' => add_number(text, found.m, how),
        b'w' => Ok(text.push_str(found.word)?),
        _ => add_sentence(text, "{}", &[part_of(known, found.node(which), how)]),
    }
}

/// A text of the catalogue with its holes filled. Returns `Memory` if an allocation fails.
fn filled(
    alloc: Global,
    known: &Known<'_, '_>,
    found: &Found,
    row: &str,
) -> Result<String, Memory> {
    let mut text = String::new(alloc);
    let mut is_hole = false;
    for piece in row.split("^") {
        if is_hole {
            add_hole(&mut text, known, found, piece.as_bytes())?;
        } else {
            text.push_str(piece)?;
        }
        is_hole = !is_hole;
    }
    Ok(text)
}

/// A text of the catalogue with its holes filled. A failed allocation is remembered.
fn text_of(draft: &mut Draft, known: &Known<'_, '_>, found: &Found, row: &str) -> String {
    let alloc = draft.alloc();
    draft.found(filled(alloc, known, found, row), String::new(alloc))
}

/// Says what was found.
fn say(draft: &mut Draft, known: &Known<'_, '_>, found: &Found) {
    let said = texts_of(found.id);
    let advice = texts_of(found.help).help;
    known.begin(draft, found.at, found.to);
    if let Some(place) = found.place {
        draft.place(place);
    }
    let sentence = text_of(draft, known, found, said.says);
    draft.say("{}", &[Fill::Text(sentence.as_str())]);
    if !advice.is_empty() {
        let help = text_of(draft, known, found, advice);
        draft.help("{}", &[Fill::Text(help.as_str())]);
    }
    if let Some(place) = known.first_leaf(found.second) {
        if !said.note.is_empty() {
            let note = text_of(draft, known, found, said.note);
            draft.note(place, "{}", &[Fill::Text(note.as_str())]);
        }
    }
}

/// Says what was found, if something was. Returns whether it was.
pub fn says(draft: &mut Draft, known: &Known<'_, '_>, found: Option<Found>) -> bool {
    match found {
        Some(found) => {
            say(draft, known, &found);
            true
        }
        None => false,
    }
}
