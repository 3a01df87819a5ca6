//! Warnings on an assignment to several variables that is meant to happen at once, as in Python.

use crate::found::Found;
use crate::known::Known;
use bcpl_catalogue::ids::CROSSED_ASSIGNMENT;
use bcpl_index::Form;

/// Whether a node uses the variable with this index.
fn has_use(known: &Known<'_, '_>, at: usize, index: usize) -> bool {
    for node in at..known.tree.end(at) {
        if known.kinds.names.index_at(node) == Some(index) {
            return true;
        }
    }
    false
}

/// The variable that a left side is.
fn variable_at(known: &Known<'_, '_>, at: usize) -> Option<usize> {
    match known.tree.form(at) {
        Form::Name => known.kinds.names.index_at(at),
        _ => None,
    }
}

/// The first right side after this pair that uses the pair's variable, if the pair uses the variable of that one.
fn crossed_after(
    known: &Known<'_, '_>,
    values: usize,
    place: usize,
    value: usize,
) -> Option<usize> {
    let tree = known.tree;
    let name = variable_at(known, place)?;
    let mut other = tree.end(place);
    let mut source = tree.end(value);
    for _ in place..values {
        if other >= values {
            break;
        }
        if let Some(second) = variable_at(known, other)
            && second != name
            && has_use(known, source, name)
            && has_use(known, value, second)
        {
            return Some(source);
        }
        other = tree.end(other);
        source = tree.end(source);
    }
    None
}

/// The left side of a pair, and the right side of a later one that crosses it.
fn crossed(known: &Known<'_, '_>, at: usize) -> Option<(usize, usize)> {
    let tree = known.tree;
    let (places, values) = (tree.first(at), tree.second(at));
    let mut place = tree.first(places);
    let mut value = tree.first(values);
    for _ in places..values {
        if place >= values {
            break;
        }
        if let Some(source) = crossed_after(known, values, place, value) {
            return Some((place, source));
        }
        place = tree.end(place);
        value = tree.end(value);
    }
    None
}

/// `A, B := B, A`: the second pair has the new value of the first one.
pub fn check_crossing(known: &Known<'_, '_>, at: usize) -> Option<Found> {
    let (place, source) = crossed(known, at)?;
    Some(Found::new(CROSSED_ASSIGNMENT, source).of(place))
}
