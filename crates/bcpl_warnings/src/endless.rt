//! Warnings on loops whose condition nothing in the loop changes.

use crate::enclosing::{condition_of, condition_terms, listed};
use crate::known::Known;
use bcpl_index::{Form, Sort};
use bcpl_messages::{Draft, Fill};

/// Whether a called expression is a routine of the library that returns.
fn is_library_routine(known: &Known<'_, '_>, called: usize) -> bool {
    match known.kinds.names.at(called) {
        Some(declared) => {
            declared.is_library && known.tree.text(declared.node) != b"STOP".as_slice()
        }
        None => false,
    }
}

/// Whether a called expression is a routine of the section.
fn is_own_routine(known: &Known<'_, '_>, called: usize) -> bool {
    match known.kinds.names.at(called) {
        Some(declared) => declared.sort == Sort::Routine,
        None => false,
    }
}

/// Whether a call in this node may end the run.
fn may_finish(known: &Known<'_, '_>, at: usize) -> bool {
    let tree = known.tree;
    let mut has_own = false;
    for node in at..tree.end(at) {
        if matches!(tree.form(node), Form::Call) {
            let called = tree.first(node);
            if is_own_routine(known, called) {
                has_own = true;
            } else if !is_library_routine(known, called) {
                return true;
            }
        }
    }
    has_own && known.kinds.names.has_finish
}

/// The command after a loop, if it assigns to a name of the loop's condition.
fn change_after(known: &Known<'_, '_>, at: usize, condition: usize) -> Option<usize> {
    let tree = known.tree;
    let item = tree.parent(at);
    let next = tree.end(item);
    let command = tree.first(next);
    let is_next = matches!(tree.form(next), Form::Item)
        && matches!(tree.form(command), Form::Assign)
        && tree.parent(next) == tree.parent(item);
    if !is_next {
        return None;
    }
    let assigned = known.kinds.names.index_at(tree.first(tree.first(command)))?;
    for node in condition..tree.end(condition) {
        if known.kinds.names.index_at(node) == Some(assigned) {
            return Some(command);
        }
    }
    None
}

/// Adds the help on a loop whose condition nothing in it changes.
fn help_on(draft: &mut Draft, known: &Known<'_, '_>, at: usize, condition: usize) {
    match change_after(known, at, condition) {
        Some(command) => draft.help(
            "{} comes after the loop, not in it: write a body of several commands as $( .. $)",
            &[known.shown(command)],
        ),
        None => draft.help(
            "change a variable of the condition in the loop, or leave it by BREAK",
            &[],
        ),
    }
}

/// Warns of a loop whose condition has variables that nothing in the loop changes, if nothing else leaves it. Returns
/// whether it does.
pub fn warns_of_endless(draft: &mut Draft, known: &Known<'_, '_>, at: usize) -> bool {
    let tree = known.tree;
    let Some(condition) = condition_of(tree, at) else {
        return false;
    };
    if known.flow.has_jump(tree, at) || may_finish(known, at) {
        return false;
    }
    let alloc = draft.alloc();
    let Ok(on) = condition_terms(alloc, tree, &known.kinds.names, at, condition) else {
        draft.refuse();
        return false;
    };
    if on.may_change || on.names.is_empty() {
        return false;
    }
    let Ok(list) = listed(alloc, on.names.as_slice()) else {
        draft.refuse();
        return false;
    };
    known.begin(draft, condition, condition);
    draft.say(
        "nothing in this loop changes {}, so its condition stays as it is",
        &[Fill::Text(list.as_str())],
    );
    help_on(draft, known, at, condition);
    true
}
