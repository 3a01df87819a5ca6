//! Warnings on vectors that are written as strings, but have one character in each word.

use crate::found::Found;
use crate::known::Known;
use bc_parse_tree::BinaryOp;
use bcpl_catalogue::ids::UNPACKED_STRING;
use bcpl_index::{Declared, Form, Kind, Sort};

/// How many nodes after a vector's declaration are searched.
const MOST: usize = 2000;

/// Whether a node assigns a character to a cell of the vector with this index.
fn is_unpacked(known: &Known<'_, '_>, at: usize, index: usize) -> bool {
    let tree = known.tree;
    if !matches!(tree.form(at), Form::Assign) {
        return false;
    }
    let place = tree.first(tree.first(at));
    let value = tree.first(tree.second(at));
    let is_cell = matches!(tree.form(place), Form::Bin(BinaryOp::Index))
        && known.kinds.names.index_at(tree.first(place)) == Some(index);
    is_cell && known.kinds.kind(value) == Kind::Character
}

/// Whether a node passes the vector with this index to a routine that packs characters into it.
fn is_packed(known: &Known<'_, '_>, at: usize, index: usize) -> bool {
    let tree = known.tree;
    if !matches!(tree.form(at), Form::Call) {
        return false;
    }
    let name = tree.text(tree.first(at));
    let is_packing = name == b"PUTBYTE".as_slice() || name == b"PACKSTRING".as_slice();
    is_packing && known.kinds.names.index_at(tree.second(at)) == Some(index)
}

/// The first assignment of a character to a cell of this vector, if nothing packs characters into it.
fn unpacked_cell(known: &Known<'_, '_>, declared: &Declared, index: usize) -> Option<usize> {
    let mut found = None;
    let end = declared.end.min(declared.node.saturating_add(MOST));
    for at in declared.node..end {
        if is_packed(known, at, index) {
            return None;
        }
        if found.is_none() && is_unpacked(known, at, index) {
            found = Some(at);
        }
    }
    found
}

/// A call of WRITES whose vector has one character in a word.
pub fn check_unpacked(known: &Known<'_, '_>, at: usize) -> Option<Found> {
    let tree = known.tree;
    let vector = tree.second(at);
    if tree.text(tree.first(at)) != b"WRITES".as_slice() || vector >= tree.end(at) {
        return None;
    }
    let index = known.kinds.names.index_at(vector)?;
    let declared = known.kinds.names.get(index)?;
    if declared.sort != Sort::Vector {
        return None;
    }
    let cell = unpacked_cell(known, declared, index)?;
    Some(Found::new(UNPACKED_STRING, cell).of(declared.node))
}
