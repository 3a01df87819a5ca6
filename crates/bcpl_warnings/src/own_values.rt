//! Warnings on variables that are used in their own initial values, where they have no value yet.

use crate::found::Found;
use crate::known::Known;
use bc_parse_tree::UnaryOp;
use bcpl_catalogue::ids::{HIDDEN_BY_NEW, OWN_VALUE};
use bcpl_index::{Declared, Form};

/// How far up in an expression a search goes.
const HIGHEST: usize = 100;

/// Whether the nodes between a node and the definition around it are operators and calls only.
fn is_computed_in(known: &Known<'_, '_>, definition: usize, at: usize) -> bool {
    let mut node = at;
    for _ in 0..HIGHEST {
        node = known.tree.parent(node);
        match known.tree.form(node) {
            Form::Unary(UnaryOp::Address) => return false,
            Form::Unary(_) | Form::Bin(_) | Form::Cond | Form::Call => {}
            _ => return node == definition,
        }
    }
    false
}

/// The node of the declaration that this one hides, if there is one.
fn hidden_node(known: &Known<'_, '_>, declared: &Declared) -> Option<usize> {
    let outer = known.kinds.names.get(declared.before?)?;
    if outer.end < declared.end {
        None
    } else {
        Some(outer.node)
    }
}

/// The node in the initial value of the only variable of a definition that uses this variable, which has this index.
fn own_use(known: &Known<'_, '_>, definition: usize, index: usize) -> Option<usize> {
    let tree = known.tree;
    let value = tree.second(definition);
    if matches!(tree.form(value), Form::Variable) {
        return None;
    }
    for at in value..tree.end(definition) {
        if known.kinds.names.index_at(at) == Some(index) && is_computed_in(known, definition, at) {
            return Some(at);
        }
    }
    None
}

/// A variable of a definition that is used in its own initial value.
pub fn check_own_value(known: &Known<'_, '_>, definition: usize) -> Option<Found> {
    let index = known.kinds.names.index_at(known.tree.first(definition))?;
    let declared = known.kinds.names.get(index)?;
    let at = own_use(known, definition, index)?;
    match hidden_node(known, declared) {
        Some(outer) => Some(Found::new(HIDDEN_BY_NEW, at).with(at, outer)),
        None => Some(Found::new(OWN_VALUE, at)),
    }
}
