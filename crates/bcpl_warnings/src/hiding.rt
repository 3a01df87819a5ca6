//! Warnings on assignments that were meant for something else: a variable that hides another one and is never read, and
//! a routine that changes only its own parameters.

use crate::found::Found;
use crate::known::Known;
use bc_parse_tree::BinaryOp;
use bcpl_catalogue::ids::{CHANGED_COPIES, HIDDEN_VARIABLE, SAME_COUNTER};
use bcpl_index::{Declared, Form, Sort};

/// Whether a declaration of this sort is of a variable, as seen from a block in the same routine or file.
fn is_variable(sort: Sort) -> bool {
    matches!(
        sort,
        Sort::Variable | Sort::Counter | Sort::Parameter | Sort::Static
    )
}

/// The node that declares what a declaration hides, if that is a variable.
fn hidden_by(known: &Known<'_, '_>, declared: &Declared) -> Option<usize> {
    let before = declared.before?;
    let Some(outer) = known.kinds.names.get(before) else {
        return None;
    };
    if outer.end >= declared.end && is_variable(outer.sort) {
        Some(outer.node)
    } else {
        None
    }
}

/// Whether a node reads the variable with this index.
fn is_read_at(known: &Known<'_, '_>, at: usize, index: usize) -> bool {
    let is_place = matches!(known.tree.form_of_parent(at), Form::Places);
    match known.kinds.names.index_at(at) {
        Some(other) => other == index && !is_place,
        None => false,
    }
}

/// Whether the variable with this index is read from this node on, up to the end of its scope.
pub fn is_read_from(known: &Known<'_, '_>, from: usize, index: usize, end: usize) -> bool {
    for at in from..end {
        if is_read_at(known, at, index) {
            return true;
        }
    }
    false
}

/// A variable that hides another one and is never read after its declaration.
pub fn check_hiding(known: &Known<'_, '_>, at: usize) -> Option<Found> {
    let tree = known.tree;
    let index = known.kinds.names.index_at(at)?;
    let declared = known.kinds.names.get(index)?;
    let outer = hidden_by(known, declared)?;
    let after = tree.end(tree.parent(tree.parent(at)));
    if declared.sort != Sort::Variable || is_read_from(known, after, index, declared.end) {
        return None;
    }
    Some(Found::new(HIDDEN_VARIABLE, at).with(at, outer))
}

/// Whether a product in a node is the square of the variable with this index.
fn has_square(known: &Known<'_, '_>, at: usize, index: usize) -> bool {
    let tree = known.tree;
    for node in at..tree.end(at) {
        if matches!(tree.form(node), Form::Bin(BinaryOp::Multiply))
            && known.kinds.names.index_at(tree.first(node)) == Some(index)
            && known.kinds.names.index_at(tree.second(node)) == Some(index)
        {
            return true;
        }
    }
    false
}

/// A FOR whose variable hides that of a FOR around it, and is squared: both were meant.
pub fn check_same_counter(known: &Known<'_, '_>, at: usize) -> Option<Found> {
    let variable = known.tree.first(at);
    let index = known.kinds.names.index_at(variable)?;
    let declared = known.kinds.names.get(index)?;
    let outer = hidden_by(known, declared)?;
    let is_counter = matches!(known.tree.form_of_parent(outer), Form::For);
    if is_counter && has_square(known, at, index) {
        Some(Found::new(SAME_COUNTER, variable))
    } else {
        None
    }
}

/// What an assignment's left side is.
#[derive(Clone, Copy, PartialEq, Eq)]
enum AssignedPlace {
    Parameter,
    Variable,
    Other,
}

/// What the expression at this node is as a left side.
fn target_at(known: &Known<'_, '_>, at: usize) -> AssignedPlace {
    let Some(declared) = known.kinds.names.at(at) else {
        return AssignedPlace::Other;
    };
    match (known.tree.form(at), declared.sort) {
        (Form::Name, Sort::Parameter) => AssignedPlace::Parameter,
        (Form::Name, Sort::Variable) => AssignedPlace::Variable,
        _ => AssignedPlace::Other,
    }
}

/// Whether a form may do something besides assigning.
fn may_do_more(form: Form) -> bool {
    matches!(
        form,
        Form::Call
            | Form::Valof
            | Form::Goto
            | Form::Finish
            | Form::Repeat
            | Form::RepeatWhile
            | Form::RepeatUntil
            | Form::While
            | Form::Until
            | Form::For
    )
}

/// Whether a routine does nothing but assign to its parameters and variables, and to a parameter at least.
fn has_no_effect(known: &Known<'_, '_>, at: usize) -> bool {
    let tree = known.tree;
    let mut has_parameter = false;
    for node in at..tree.end(at) {
        if may_do_more(tree.form(node)) {
            return false;
        }
        if matches!(tree.form_of_parent(node), Form::Places) {
            match target_at(known, node) {
                AssignedPlace::Parameter => has_parameter = true,
                AssignedPlace::Variable => {}
                AssignedPlace::Other => return false,
            }
        }
    }
    has_parameter
}

/// A routine without an effect, because it assigns only to copies.
pub fn check_copies(known: &Known<'_, '_>, at: usize) -> Option<Found> {
    let place = known.first_leaf(at)?;
    if has_no_effect(known, at) {
        Some(Found::new(CHANGED_COPIES, at).placed(place))
    } else {
        None
    }
}
