//! Warning: an exchange of two variables, of which only the first command depends on its condition.

use crate::found::Found;
use crate::known::Known;
use bcpl_catalogue::ids::REST_OF_SWAP;
use bcpl_index::Form;

/// The left and the right side of the item at a node, if it is an assignment of one value.
fn sides_of(known: &Known<'_, '_>, item: usize) -> Option<(usize, usize)> {
    let tree = known.tree;
    let command = tree.first(item);
    if !matches!(tree.form(item), Form::Item) || !matches!(tree.form(command), Form::Assign) {
        return None;
    }
    let (places, values) = (tree.first(command), tree.second(command));
    let (place, value) = (tree.first(places), tree.first(values));
    if tree.end(place) == values && tree.end(value) == tree.end(values) {
        Some((place, value))
    } else {
        None
    }
}

/// Whether two nodes are spelled alike.
fn are_alike(known: &Known<'_, '_>, one: usize, other: usize) -> bool {
    known.text(one, one) == known.text(other, other)
}

/// The first command after an IF that keeps A in T, if the commands after the IF are A := B and B := T.
fn rest_of_swap(known: &Known<'_, '_>, at: usize) -> Option<usize> {
    let tree = known.tree;
    let kept = tree.first(tree.second(at));
    let second = tree.end(tree.parent(at));
    let third = tree.end(second);
    let (keeper, one) = sides_of(known, kept)?;
    let (first_place, other) = sides_of(known, second)?;
    let (second_place, last) = sides_of(known, third)?;
    let is_swap = tree.end(kept) == tree.end(at)
        && are_alike(known, one, first_place)
        && are_alike(known, other, second_place)
        && are_alike(known, keeper, last);
    if is_swap {
        Some(tree.first(second))
    } else {
        None
    }
}

/// An IF that is followed by the rest of an exchange that its command begins.
pub fn check_swap(known: &Known<'_, '_>, at: usize) -> Option<Found> {
    let tree = known.tree;
    let rest = rest_of_swap(known, at)?;
    Some(Found::new(REST_OF_SWAP, rest).of(tree.first(tree.first(tree.second(at)))))
}
