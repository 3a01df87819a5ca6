//! Warnings on loops that have one round at most.

use crate::finishing::last_command;
use crate::found::Found;
use crate::known::Known;
use bcpl_catalogue::ids::SINGLE_ROUND;
use bcpl_index::{Form, Tree};

/// The block of a FOR, WHILE or UNTIL.
fn body_of(tree: &Tree<'_>, at: usize) -> usize {
    if !matches!(tree.form(at), Form::For) {
        return tree.second(at);
    }
    let next = tree.end(tree.third(at));
    if matches!(tree.form(next), Form::Block) {
        next
    } else {
        tree.end(next)
    }
}

/// Whether a command leaves the loop, or the VALOF or routine around it.
fn is_leaving(tree: &Tree<'_>, command: Option<usize>) -> bool {
    match command {
        Some(at) => matches!(tree.form(at), Form::Break | Form::ResultIs | Form::Return),
        None => false,
    }
}

/// Whether a block ends with a command that leaves the loop, or with a TEST both of whose blocks do.
fn always_leaves(tree: &Tree<'_>, block: usize) -> bool {
    let command = last_command(tree, block);
    match command {
        Some(at) if matches!(tree.form(at), Form::Test) => {
            is_leaving(tree, last_command(tree, tree.second(at)))
                && is_leaving(tree, last_command(tree, tree.third(at)))
        }
        _ => is_leaving(tree, command),
    }
}

/// Whether a node has a LOOP, a GOTO or a label in it.
fn has_way_round(tree: &Tree<'_>, at: usize) -> bool {
    for node in at..tree.end(at) {
        if matches!(tree.form(node), Form::Loop | Form::Goto | Form::Label) {
            return true;
        }
    }
    false
}

/// A FOR, WHILE or UNTIL whose body always leaves it.
pub fn check_one_round(known: &Known<'_, '_>, at: usize) -> Option<Found> {
    let tree = known.tree;
    let (first, body) = (tree.first(at), body_of(tree, at));
    // WHILE TRUE with a BREAK at its end is a block that can be left early
    let is_block = matches!(tree.form(first), Form::True | Form::False);
    if is_block || !always_leaves(tree, body) || has_way_round(tree, body) {
        return None;
    }
    let last = if matches!(tree.form(at), Form::For) {
        tree.third(at)
    } else {
        first
    };
    Some(Found::new(SINGLE_ROUND, first).to(last))
}
