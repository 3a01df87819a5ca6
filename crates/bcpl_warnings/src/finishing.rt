//! Warnings on commands after a call of a routine that ends the run by FINISH.

use crate::found::Found;
use crate::known::Known;
use bcpl_catalogue::ids::AFTER_FINISH;
use bcpl_index::{Form, Sort, Tree};

/// The block of a routine.
fn block_of(tree: &Tree<'_>, routine: usize) -> usize {
    let mut block = tree.first(routine);
    for _ in routine..tree.end(routine) {
        if !matches!(tree.form(block), Form::Parameter) {
            break;
        }
        block = tree.end(block);
    }
    block
}

/// The command of the last item of a block, if that has no labels.
pub fn last_command(tree: &Tree<'_>, block: usize) -> Option<usize> {
    let end = tree.end(block);
    let mut child = tree.first(block);
    let mut last = None;
    for _ in block..end {
        if child >= end {
            break;
        }
        last = Some(child);
        child = tree.end(child);
    }
    let item = last?;
    if matches!(tree.form(item), Form::Item) {
        Some(tree.first(item))
    } else {
        None
    }
}

/// Whether each call of a routine ends with FINISH, or doesn't return.
fn finishes(tree: &Tree<'_>, routine: usize) -> bool {
    for node in routine..tree.end(routine) {
        if matches!(tree.form(node), Form::Return | Form::Goto | Form::Label) {
            return false;
        }
    }
    let is_last = match last_command(tree, block_of(tree, routine)) {
        Some(command) => matches!(tree.form(command), Form::Finish),
        None => false,
    };
    is_last && matches!(tree.form(routine), Form::Routine)
}

/// The command after the one at this node, if it has no labels and doesn't only leave something.
fn command_after(tree: &Tree<'_>, at: usize) -> Option<usize> {
    let item = tree.parent(at);
    let next = tree.end(item);
    let command = tree.first(next);
    let is_next = matches!(tree.form(item), Form::Item)
        && matches!(tree.form(next), Form::Item)
        && tree.parent(next) == tree.parent(item);
    let is_work = matches!(
        tree.form(command),
        Form::Do | Form::Assign | Form::If | Form::Unless | Form::Test | Form::For | Form::While
    );
    if is_next && is_work {
        Some(command)
    } else {
        None
    }
}

/// A command after a call of a routine that ends the run.
pub fn check_finish(known: &Known<'_, '_>, at: usize) -> Option<Found> {
    let tree = known.tree;
    let declared = known.kinds.names.at(tree.first(tree.first(at)))?;
    if declared.sort != Sort::Routine || declared.is_assigned || !finishes(tree, declared.node) {
        return None;
    }
    let command = command_after(tree, at)?;
    let place = known.first_leaf(command)?;
    Some(
        Found::new(AFTER_FINISH, command)
            .of(declared.node)
            .placed(place),
    )
}
