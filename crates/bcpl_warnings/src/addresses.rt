//! Warnings on the address of a local that is used when the local is gone.

use crate::found::Found;
use crate::known::Known;
use bcpl_catalogue::ids::LOST_CELLS;
use bcpl_index::{Form, Kind, Sort};

/// The declaration whose address an expression is, if that is of a routine's frame.
fn local_of(known: &Known<'_, '_>, at: usize) -> Option<usize> {
    let fact = known.kinds.fact(at);
    let of = fact.declaration()?;
    if !matches!(fact.kind, Kind::Vector | Kind::Local) {
        return None;
    }
    let Some(declared) = known.kinds.names.get(of) else {
        return None;
    };
    Some(declared.node)
}

/// RESULTIS with the address of a local of its VALOF.
pub fn check_result(known: &Known<'_, '_>, at: usize) -> Option<Found> {
    let tree = known.tree;
    let value = tree.first(at);
    let node = local_of(known, value)?;
    let valof = known.valof_of(at)?;
    let outer = match tree.form_of_parent(valof) {
        Form::Function => tree.parent(valof),
        _ => valof,
    };
    if !tree.contains(outer, node) {
        return None;
    }
    Some(Found::new(LOST_CELLS, value))
}

/// The name of a routine.
fn name_of<'s>(known: &Known<'_, 's>, at: usize) -> &'s [u8] {
    match known.tree.form(at) {
        Form::Function | Form::Routine => known.tree.text(at),
        _ => b"",
    }
}

/// Whether a name is one of a global or static.
fn is_lasting(known: &Known<'_, '_>, at: usize) -> bool {
    match (known.tree.form(at), known.kinds.names.at(at)) {
        (Form::Name, Some(declared)) => {
            declared.sort == Sort::Global || declared.sort == Sort::Static
        }
        _ => false,
    }
}

/// A local's address that is stored in a global or static, if the routine then ends without a further call.
pub fn check_assignment(known: &Known<'_, '_>, at: usize) -> Option<Found> {
    let tree = known.tree;
    let (place, value) = (tree.first(tree.first(at)), tree.first(tree.second(at)));
    let node = local_of(known, value)?;
    let is_single = tree.end(place) == tree.second(at);
    if !is_single || !is_lasting(known, place) {
        return None;
    }
    let routine = known.routine_of(at)?;
    if name_of(known, routine) == b"START".as_slice()
        || known.flow.has_call(tree, tree.end(at), tree.end(routine))
        || !tree.contains(routine, node)
    {
        return None;
    }
    Some(Found::new(LOST_CELLS, value))
}
