//! Warnings on the address of a vector's variable that is passed where its cells are used, and on a variable that is called
//! because it hides a routine.

use crate::found::Found;
use crate::known::Known;
use bc_parse_tree::{BinaryOp, UnaryOp};
use bcpl_catalogue::ids::{CALLED_VARIABLE, PASSED_ADDRESS};
use bcpl_index::{Declared, Form, Sort};

/// The vector whose variable's address an argument is.
fn addressed_vector(known: &Known<'_, '_>, at: usize) -> Option<usize> {
    let operand = known.tree.first(at);
    let Some(declared) = known.kinds.names.at(operand) else {
        return None;
    };
    let is_address = matches!(known.tree.form(at), Form::Unary(UnaryOp::Address))
        && matches!(known.tree.form(operand), Form::Name);
    if is_address && declared.sort == Sort::Vector {
        Some(operand)
    } else {
        None
    }
}

/// Whether a routine uses a parameter with a subscript other than 0.
fn is_indexed(known: &Known<'_, '_>, routine: usize, parameter: usize) -> bool {
    let tree = known.tree;
    let Some(index) = known.kinds.names.index_at(parameter) else {
        return false;
    };
    for node in routine..tree.end(routine) {
        let is_index = matches!(tree.form(node), Form::Bin(BinaryOp::Index))
            && known.kinds.names.index_at(tree.first(node)) == Some(index);
        let is_zero = matches!(
            tree.form(tree.second(node)),
            Form::Number(word) if word.get() == 0
        );
        if is_index && !is_zero {
            return true;
        }
    }
    false
}

/// The vector whose variable's address a call passes to a routine that uses the cells there.
fn wrongly_passed(known: &Known<'_, '_>, at: usize, routine: usize) -> Option<usize> {
    let tree = known.tree;
    let end = tree.end(at);
    let mut argument = tree.second(at);
    for parameter in tree.first(routine)..tree.end(routine) {
        if !matches!(tree.form(parameter), Form::Parameter) || argument >= end {
            break;
        }
        if let Some(vector) = addressed_vector(known, argument)
            && is_indexed(known, routine, parameter)
        {
            return Some(vector);
        }
        argument = tree.end(argument);
    }
    None
}

/// `@V` for a parameter that is used as a vector.
pub fn check_passed_address(known: &Known<'_, '_>, at: usize) -> Option<Found> {
    let declared = known.kinds.names.at(known.tree.first(at))?;
    if declared.sort != Sort::Routine || declared.is_assigned {
        return None;
    }
    let vector = wrongly_passed(known, at, declared.node)?;
    Some(Found::new(PASSED_ADDRESS, vector))
}

/// Whether a declaration is of a variable that begins as a number, and hides a routine of the same name.
fn hides_routine(known: &Known<'_, '_>, declared: &Declared) -> bool {
    let outer = match declared.before {
        Some(before) => known.kinds.names.get(before),
        None => None,
    };
    let is_routine = match outer {
        Some(outer) => outer.sort == Sort::Routine && outer.end >= declared.end,
        None => false,
    };
    is_routine
        && matches!(declared.sort, Sort::Variable | Sort::Counter)
        && declared.first.kind.is_plain()
        && !declared.is_addressed
}

/// A call of a variable that hides a routine.
pub fn check_called_variable(known: &Known<'_, '_>, at: usize) -> Option<Found> {
    let called = known.tree.first(at);
    let declared = known.kinds.names.at(called)?;
    if !matches!(known.form(called), Form::Name) || !hides_routine(known, declared) {
        return None;
    }
    Some(Found::new(CALLED_VARIABLE, called).with(called, declared.node))
}
