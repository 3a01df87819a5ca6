//! Warnings on where control goes: a VALOF that can end without RESULTIS, and a CASE that falls through.

use crate::flow::Cases;
use crate::found::Found;
use crate::known::Known;
use bcpl_catalogue::ids::{FALL_THROUGH, VALOF_WITHOUT_END, VALOF_WITHOUT_RESULT};
use bcpl_index::{Form, Tree};

/// Whether a VALOF has a RESULTIS, apart from those of inner VALOFs.
fn has_own_result(known: &Known<'_, '_>, at: usize) -> bool {
    let end = known.tree.end(at);
    for result in &known.tree.marks().results {
        if at < *result && *result < end && known.valof_of(*result) == Some(at) {
            return true;
        }
    }
    false
}

/// A VALOF that can end without RESULTIS.
pub fn check_valof(known: &Known<'_, '_>, at: usize) -> Option<Found> {
    if !known.flow.is_reached(known.tree.first(at)) {
        return None;
    }
    let place = known.first_leaf(at)?;
    let id = if has_own_result(known, at) {
        VALOF_WITHOUT_END
    } else {
        VALOF_WITHOUT_RESULT
    };
    Some(Found::new(id, at).placed(place))
}

/// Whether there is a comment before a node, after the leaf before it.
fn has_comment(known: &Known<'_, '_>, at: usize) -> bool {
    let (Some(before), Some(leaf)) = (known.tree.leaf_before(at), known.tree.leaf(at)) else {
        return false;
    };
    let Some(source) = known.sources.get(leaf.file) else {
        return false;
    };
    let Some(text) = source.text.get(before.end..leaf.start) else {
        return false;
    };
    before.file == leaf.file && begins_comment(text)
}

/// Whether a comment begins in this text between two tokens.
fn begins_comment(text: &[u8]) -> bool {
    for (at, _) in text.iter().enumerate() {
        if let Some(rest) = text.get(at..)
            && (rest.starts_with(b"//") || rest.starts_with(b"/*") || rest.starts_with(b"||"))
        {
            return true;
        }
    }
    false
}

/// The item before this one in the list of a SWITCHON.
fn item_before(tree: &Tree<'_>, switch: usize, at: usize) -> usize {
    let mut item = tree.second(switch);
    for _ in switch..at {
        let next = tree.end(item);
        if next >= at {
            break;
        }
        item = next;
    }
    item
}

/// Whether an item is all that belongs to its labels, and assigns something: then it probably prepares what follows, as
/// in `CASE '-': NEGATIVE := TRUE`.
fn is_preparation(tree: &Tree<'_>, item: usize) -> bool {
    if !matches!(tree.form(tree.first(item)), Form::Case | Form::Default) {
        return false;
    }
    for node in item..tree.end(item) {
        if matches!(tree.form(node), Form::Assign) && tree.parent(node) == item {
            return true;
        }
    }
    false
}

/// Whether the first CASE that is reached from the one before is probably a mistake.
fn is_odd(tree: &Tree<'_>, switch: usize, at: usize, cases: &Cases) -> bool {
    cases.stops == 0
        || cases.falls <= cases.stops && !is_preparation(tree, item_before(tree, switch, at))
}

/// The first CASE of a SWITCHON that is reached from the one before, if that is probably a mistake.
pub fn check_cases(known: &Known<'_, '_>, switch: usize) -> Option<Found> {
    let tree = known.tree;
    let cases = known.flow.cases(tree, switch);
    let at = cases.first?;
    if is_odd(tree, switch, at, &cases) && !has_comment(known, at) {
        Some(Found::new(FALL_THROUGH, tree.first(at)))
    } else {
        None
    }
}
