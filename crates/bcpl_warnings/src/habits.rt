//! Warnings on habits from other languages: BREAK at the end of each CASE, strings that begin at 0, and functions that are
//! called for nothing.

use crate::found::Found;
use crate::known::Known;
use bcpl_catalogue::ids::{
    CHARACTER_AS_CONDITION, CLOSING_BREAK, COMPARED_END, COUNTED_FROM_LENGTH, DROPPED_VALUE,
    REPLACED_BY_NUMBER, REPLACED_BY_STRING, REPLACED_BY_VECTOR, TWO_READS,
};
use bcpl_index::{Form, Kind, Sort, Tree};

/// Whether a node is a BREAK after the commands of a CASE in the SWITCHON `switch`.
fn is_closing_break(tree: &Tree<'_>, at: usize, switch: usize) -> bool {
    let item = tree.parent(at);
    matches!(tree.form(at), Form::Break)
        && matches!(tree.form(item), Form::Item)
        && tree.first(item) == at
        && tree.parent(item) == switch
}

/// Whether a node is a CASE or DEFAULT of the SWITCHON `switch`.
fn is_case_of(tree: &Tree<'_>, at: usize, switch: usize) -> bool {
    matches!(tree.form(at), Form::Case | Form::Default) && tree.parent(tree.parent(at)) == switch
}

/// The first of the BREAKs that end the commands of every CASE, but perhaps the last, of a SWITCHON without ENDCASE.
fn closing_break(tree: &Tree<'_>, switch: usize) -> Option<usize> {
    let mut first = None;
    let mut breaks: usize = 0;
    let mut cases: usize = 0;
    for at in switch..tree.end(switch) {
        if matches!(tree.form(at), Form::EndCase) {
            return None;
        }
        if is_case_of(tree, at, switch) {
            cases = cases.saturating_add(1);
        }
        if is_closing_break(tree, at, switch) {
            breaks = breaks.saturating_add(1);
            if first.is_none() {
                first = Some(at);
            }
        }
    }
    if breaks >= 2 && breaks.saturating_add(1) >= cases {
        first
    } else {
        None
    }
}

/// A SWITCHON whose CASEs end with BREAK.
pub fn check_breaks(known: &Known<'_, '_>, at: usize) -> Option<Found> {
    let first = closing_break(known.tree, at)?;
    Some(Found::new(CLOSING_BREAK, first))
}

/// Whether a call is one of the library's routine with this name.
pub fn is_library_call(known: &Known<'_, '_>, at: usize, name: &[u8]) -> bool {
    let called = known.tree.first(at);
    match known.kinds.names.at(called) {
        Some(declared) => declared.is_library && known.tree.text(declared.node) == name,
        None => false,
    }
}

/// Whether a node is the variable of a FOR that counts from 0.
fn is_counted_from_zero(known: &Known<'_, '_>, at: usize) -> bool {
    let Some(declared) = known.kinds.names.at(at) else {
        return false;
    };
    let counting = known.tree.parent(declared.node);
    match known.kinds.value(known.tree.second(counting)) {
        Some(start) => declared.sort == Sort::Counter && start.get() == 0,
        None => false,
    }
}

/// `WRCH(GETBYTE(S, I))` in a FOR that counts from 0.
pub fn check_first_byte(known: &Known<'_, '_>, at: usize) -> Option<Found> {
    let tree = known.tree;
    let parent = tree.parent(at);
    let index = tree.third(at);
    let is_written = is_library_call(known, at, b"GETBYTE".as_slice())
        && matches!(tree.form(parent), Form::Call)
        && is_library_call(known, parent, b"WRCH".as_slice());
    if !is_written || index >= tree.end(at) || !is_counted_from_zero(known, index) {
        return None;
    }
    Some(Found::new(COUNTED_FROM_LENGTH, index))
}

/// Whether a node is a function that computes a value and does nothing else.
fn is_pure(tree: &Tree<'_>, at: usize) -> bool {
    if !matches!(tree.form(at), Form::Function) {
        return false;
    }
    for node in at..tree.end(at) {
        if matches!(tree.form(node), Form::Call | Form::Valof) {
            return false;
        }
    }
    true
}

/// A command that calls a function which does nothing but compute a value.
pub fn check_unused_value(known: &Known<'_, '_>, at: usize) -> Option<Found> {
    let call = known.tree.first(at);
    let called = known.tree.first(call);
    let declared = known.kinds.names.at(called)?;
    if declared.sort == Sort::Routine && is_pure(known.tree, declared.node) {
        Some(Found::new(DROPPED_VALUE, call).of(called))
    } else {
        None
    }
}

/// Whether a node has a call of RDCH in it.
pub fn reads_character(known: &Known<'_, '_>, at: usize) -> bool {
    for node in at..known.tree.end(at) {
        if matches!(known.tree.form(node), Form::Call)
            && is_library_call(known, node, b"RDCH".as_slice())
        {
            return true;
        }
    }
    false
}

/// Whether a node has a VALOF in it.
fn has_valof(tree: &Tree<'_>, at: usize) -> bool {
    for node in at..tree.end(at) {
        if matches!(tree.form(node), Form::Valof) {
            return true;
        }
    }
    false
}

/// A WHILE or UNTIL whose condition and body both read a character.
pub fn check_two_reads(known: &Known<'_, '_>, at: usize) -> Option<Found> {
    let (test, body) = known.sides(at);
    if reads_character(known, test)
        && reads_character(known, body)
        && !has_valof(known.tree, test)
    {
        Some(Found::new(TWO_READS, test))
    } else {
        None
    }
}

/// Whether a node is the name of a vector.
fn is_vector_name(known: &Known<'_, '_>, at: usize) -> bool {
    match (known.form(at), known.kinds.names.at(at)) {
        (Form::Name, Some(declared)) => declared.sort == Sort::Vector,
        _ => false,
    }
}

/// A number, or another vector's address, that is assigned to a vector's name.
pub fn check_lost_vector(known: &Known<'_, '_>, at: usize) -> Option<Found> {
    let (places, values) = known.sides(at);
    let (place, value) = (known.tree.first(places), known.tree.first(values));
    if known.tree.end(place) != values || !is_vector_name(known, place) {
        return None;
    }
    let kind = known.kind(value);
    let id = if kind == Kind::String {
        REPLACED_BY_STRING
    } else if kind == Kind::Vector {
        REPLACED_BY_VECTOR
    } else if kind.is_plain() {
        REPLACED_BY_NUMBER
    } else {
        return None;
    };
    Some(Found::new(id, place).of(value))
}

/// Whether a node is the test of a loop that goes on while it is true.
fn is_loop_test(tree: &Tree<'_>, at: usize) -> bool {
    match tree.form_of_parent(at) {
        Form::While => tree.is_first(at),
        Form::RepeatWhile => !tree.is_first(at),
        _ => false,
    }
}

/// `WHILE CH`: a loop over what is read goes on while a character is true.
pub fn check_character_test(known: &Known<'_, '_>, at: usize) -> Option<Found> {
    if !known.is(at, Kind::Character)
        || !is_loop_test(known.tree, at)
        || !reads_character(known, known.tree.parent(at))
    {
        return None;
    }
    Some(Found::new(CHARACTER_AS_CONDITION, at))
}

/// Whether a node is the test of a loop.
fn is_test_of_loop(tree: &Tree<'_>, at: usize) -> bool {
    match tree.form_of_parent(at) {
        Form::While | Form::Until => tree.is_first(at),
        Form::RepeatWhile | Form::RepeatUntil => !tree.is_first(at),
        _ => false,
    }
}

/// `UNTIL CH = 0`: a loop over what is read ends with a character 0.
pub fn check_end(known: &Known<'_, '_>, at: usize) -> Option<Found> {
    let (left, right) = known.sides(at);
    let is_zero = matches!(known.form(right), Form::Number(word) if word.get() == 0);
    if !is_zero
        || !known.is(left, Kind::Character)
        || !is_test_of_loop(known.tree, at)
        || !reads_character(known, known.tree.parent(at))
    {
        return None;
    }
    Some(Found::new(COMPARED_END, at).of(left))
}
