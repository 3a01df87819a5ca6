//! Warnings on a variable of a routine that is meant to keep its value from call to call.

use crate::found::Found;
use crate::known::Known;
use bc_parse_tree::BinaryOp;
use bcpl_catalogue::ids::LOST_COUNT;
use bcpl_index::{Declared, Form, Sort};

/// Whether a block is the body of a routine or the VALOF of a function, other than START.
fn is_body(known: &Known<'_, '_>, block: usize) -> bool {
    let tree = known.tree;
    let outer = tree.parent(block);
    let routine = match tree.form(outer) {
        Form::Routine => outer,
        Form::Valof if matches!(tree.form_of_parent(outer), Form::Function) => tree.parent(outer),
        _ => return false,
    };
    matches!(tree.form(block), Form::Block) && tree.text(routine) != b"START".as_slice()
}

/// The only place where something is assigned to the variable with this index, if there is one and no label.
fn only_place(known: &Known<'_, '_>, declared: &Declared, index: usize) -> Option<usize> {
    let tree = known.tree;
    let mut found = None;
    for node in declared.node..declared.end {
        if matches!(tree.form(node), Form::Label) {
            return None;
        }
        let is_place = matches!(tree.form_of_parent(node), Form::Places)
            && known.kinds.names.index_at(node) == Some(index);
        if is_place && found.is_some() {
            return None;
        }
        if is_place {
            found = Some(node);
        }
    }
    found
}

/// Whether an assignment is a command of this block without labels, and adds 1 to the variable with this index.
fn adds_one(known: &Known<'_, '_>, assign: usize, block: usize, index: usize) -> bool {
    let tree = known.tree;
    let item = tree.parent(assign);
    let (place, value) = (
        tree.first(tree.first(assign)),
        tree.first(tree.second(assign)),
    );
    let is_command = matches!(tree.form(item), Form::Item)
        && tree.first(item) == assign
        && tree.parent(item) == block
        && tree.end(place) == tree.second(assign);
    is_command
        && matches!(tree.form(value), Form::Bin(BinaryOp::Add))
        && known.kinds.names.index_at(tree.first(value)) == Some(index)
        && matches!(tree.form(tree.second(value)), Form::Number(word) if word.get() == 1)
}

/// Whether a name between two nodes means the variable with this index.
fn is_named(known: &Known<'_, '_>, from: usize, to: usize, index: usize) -> bool {
    for node in from..to {
        if known.kinds.names.index_at(node) == Some(index) {
            return true;
        }
    }
    false
}

/// The assignment that adds 1 to the only variable of a definition, which is 0 before in each call.
fn lost_count(known: &Known<'_, '_>, definition: usize, index: usize) -> Option<usize> {
    let tree = known.tree;
    let block = tree.parent(tree.parent(definition));
    let declared = known.kinds.names.get(index)?;
    let is_zero = matches!(
        tree.form(tree.second(definition)),
        Form::Number(word) if word.get() == 0
    );
    if !is_zero
        || declared.sort != Sort::Variable
        || declared.is_addressed
        || !is_body(known, block)
    {
        return None;
    }
    let assign = tree.parent(tree.parent(only_place(known, declared, index)?));
    let is_first = !is_named(known, tree.end(definition), assign, index);
    if is_first && adds_one(known, assign, block, index) {
        Some(assign)
    } else {
        None
    }
}

/// A variable of a definition that is 0 when a routine is called, and to which each call adds 1 once.
pub fn check_lost_count(known: &Known<'_, '_>, definition: usize) -> Option<Found> {
    let variable = known.tree.first(definition);
    let index = known.kinds.names.index_at(variable)?;
    let assign = lost_count(known, definition, index)?;
    Some(Found::new(LOST_COUNT, assign).of(variable))
}
