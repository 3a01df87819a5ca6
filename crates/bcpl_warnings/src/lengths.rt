//! Warnings on a vector that is written as a string, and whose length nothing sets.

use crate::found::Found;
use crate::habits::is_library_call;
use crate::known::Known;
use crate::loops::counting_of;
use bc_parse_tree::BinaryOp;
use bcpl_catalogue::ids::UNSET_LENGTH;
use bcpl_index::{Declared, Form, Sort};

/// How many nodes after a vector's declaration are searched.
const MOST: usize = 2000;

/// What is known of the bytes that are stored in a vector.
#[derive(Clone, Copy)]
struct Stored {
    /// Whether one is stored.
    has_any: bool,
    /// Whether one after byte 0 is the number 0, as at the end of a string of C.
    has_zero: bool,
    /// Whether byte 0 may be among them.
    may_be_first: bool,
    /// Whether byte 0 is among them, or the vector is used in a way that isn't known.
    is_other: bool,
}

/// Whether a node is a number from 1 to 32767 that is written out.
fn is_positive(known: &Known<'_, '_>, at: usize) -> bool {
    match known.tree.form(at) {
        Form::Number(word) => word.get() > 0 && word.get() <= 32767,
        _ => false,
    }
}

/// Whether an assignment adds a positive number to the variable with this index, and does nothing else.
fn adds(known: &Known<'_, '_>, assign: usize, index: usize) -> bool {
    let tree = known.tree;
    let (place, value) = (
        tree.first(tree.first(assign)),
        tree.first(tree.second(assign)),
    );
    tree.end(place) == tree.second(assign)
        && matches!(tree.form(value), Form::Bin(BinaryOp::Add))
        && known.kinds.names.index_at(tree.first(value)) == Some(index)
        && is_positive(known, tree.second(value))
}

/// Whether a variable begins as a positive number, and only grows.
fn grows(known: &Known<'_, '_>, declared: &Declared, index: usize) -> bool {
    let tree = known.tree;
    let is_above = match declared.first.value() {
        Some(word) => word.get() > 0 && word.get() <= 32767,
        None => false,
    };
    if !is_above || declared.sort != Sort::Variable || declared.is_addressed {
        return false;
    }
    for node in declared.node..declared.end {
        if matches!(tree.form_of_parent(node), Form::Places)
            && known.kinds.names.index_at(node) == Some(index)
            && !adds(known, tree.parent(tree.parent(node)), index)
        {
            return false;
        }
    }
    true
}

/// Whether the number of a byte is never 0.
fn is_after_first(known: &Known<'_, '_>, at: usize) -> bool {
    let Some(index) = known.kinds.names.index_at(at) else {
        return is_positive(known, at);
    };
    let Some(declared) = known.kinds.names.get(index) else {
        return false;
    };
    if declared.sort == Sort::Counter {
        !declared.is_assigned
            && !declared.is_addressed
            && counting_of(known, known.tree.parent(declared.node)).is_above_zero()
    } else {
        grows(known, declared, index)
    }
}

impl Stored {
    /// Adds a call of PUTBYTE for the vector.
    fn put(&mut self, known: &Known<'_, '_>, call: usize) {
        let tree = known.tree;
        let number = tree.third(call);
        let byte = tree.end(number);
        let is_name = matches!(tree.form(number), Form::Name);
        let is_zero = matches!(tree.form(byte), Form::Number(word) if word.get() == 0);
        self.has_any = true;
        if !is_name && !is_positive(known, number) {
            self.is_other = true;
        }
        if !is_after_first(known, number) {
            self.may_be_first = true;
        }
        if is_name && is_zero && byte < tree.end(call) {
            self.has_zero = true;
        }
    }

    /// Adds a use of the vector's name.
    fn add(&mut self, known: &Known<'_, '_>, at: usize) {
        let tree = known.tree;
        let parent = tree.parent(at);
        let is_call = matches!(tree.form(parent), Form::Call) && tree.second(parent) == at;
        if is_call && is_library_call(known, parent, b"PUTBYTE".as_slice()) {
            self.put(known, parent);
        } else if !is_cleared(known, at) && !(is_call && is_reading(known, parent)) {
            self.is_other = true;
        }
    }

    /// Whether byte 0 is never the length.
    fn lacks_length(&self) -> bool {
        self.has_any && !self.is_other && (self.has_zero || !self.may_be_first)
    }
}

/// Whether a call only reads a string.
fn is_reading(known: &Known<'_, '_>, call: usize) -> bool {
    is_library_call(known, call, b"WRITES".as_slice())
        || is_library_call(known, call, b"GETBYTE".as_slice())
}

/// Whether a vector's name is that of a cell which is set to 0.
fn is_cleared(known: &Known<'_, '_>, at: usize) -> bool {
    let tree = known.tree;
    let cell = tree.parent(at);
    let places = tree.parent(cell);
    let value = tree.first(tree.end(places));
    matches!(tree.form(cell), Form::Bin(BinaryOp::Index))
        && tree.is_first(at)
        && matches!(tree.form(places), Form::Places)
        && tree.end(cell) == tree.end(places)
        && matches!(tree.form(value), Form::Number(word) if word.get() == 0)
}

/// Whether the bytes of this vector are set without its length.
fn lacks_length(known: &Known<'_, '_>, declared: &Declared, index: usize) -> bool {
    let mut stored = Stored {
        has_any: false,
        has_zero: false,
        may_be_first: false,
        is_other: declared.is_assigned || declared.is_addressed,
    };
    if declared.end > declared.node.saturating_add(MOST) {
        return false;
    }
    for node in declared.node.saturating_add(1)..declared.end {
        if known.kinds.names.index_at(node) == Some(index) {
            stored.add(known, node);
        }
    }
    stored.lacks_length()
}

/// A call of WRITES with a vector whose length nothing sets.
pub fn check_length(known: &Known<'_, '_>, at: usize) -> Option<Found> {
    let tree = known.tree;
    let vector = tree.second(at);
    if !is_library_call(known, at, b"WRITES".as_slice()) || vector >= tree.end(at) {
        return None;
    }
    let index = known.kinds.names.index_at(vector)?;
    let declared = known.kinds.names.get(index)?;
    if declared.sort != Sort::Vector || !lacks_length(known, declared, index) {
        return None;
    }
    Some(Found::new(UNSET_LENGTH, vector))
}
