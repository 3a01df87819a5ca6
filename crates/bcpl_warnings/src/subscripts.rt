//! Warnings on subscripts outside of a vector, words of strings, zero divisors, and shifts by 16 or more.

use crate::found::Found;
use crate::known::Known;
use crate::loops::{counting_of, is_read_once};
use bc_parse_tree::BinaryOp;
use bc_word::Word;
use bcpl_catalogue::ids::{
    ADDRESS_OF_ADDRESS, BEYOND_CELL, BEYOND_CELLS, BYTE_OF_STRING, CHARACTER_AS_DIGIT,
    COUNTED_BEYOND_CELL, COUNTED_BEYOND_CELLS, DIVISION_BY_ZERO, INDEXED_NUMBER, INDEXED_STATIC,
    LARGE_SHIFT, START_OF_STRING,
};
use bcpl_index::{Declared, Fact, Form, Kind, Sort, Tree};

/// A subscript that is outside, and whether it is the last or first one of a FOR.
#[derive(Clone, Copy)]
struct Outside {
    number: Word,
    is_counted: bool,
}

/// The name at a node and 0, or the name and the number of which a node is the sum. A difference is a sum.
fn name_and_number(known: &Known<'_, '_>, at: usize) -> (usize, u16) {
    let tree = known.tree;
    let first = tree.first(at);
    match (tree.form(at), tree.form(tree.second(at))) {
        (Form::Bin(BinaryOp::Add), Form::Number(word)) => (first, word.get()),
        (Form::Bin(BinaryOp::Subtract), Form::Number(word)) => (first, word.negated().get()),
        _ => (at, 0),
    }
}

/// The number of a FOR's variable that is outside, if a node names one and each round comes to it. A number that is
/// written out may be added to it.
fn counted_outside(known: &Known<'_, '_>, at: usize, greatest: u16) -> Option<Outside> {
    let (name, added) = name_and_number(known, at);
    let Some(declared) = known.kinds.names.at(name) else {
        return None;
    };
    if declared.sort != Sort::Counter || declared.is_assigned || declared.is_addressed {
        return None;
    }
    let counting = known.tree.parent(declared.node);
    let (least, most) = counting_of(known, counting).range()?;
    let last = most.get().wrapping_add(added);
    let number = if last > greatest {
        last
    } else {
        least.get().wrapping_add(added)
    };
    if number > greatest && known.is_in_each_round(counting, at) {
        Some(Outside {
            number: Word::new(number),
            is_counted: true,
        })
    } else {
        None
    }
}

/// The subscript that is outside, if the expression is known to have one. Negative ones are greater than any cell.
fn outside_at(known: &Known<'_, '_>, at: usize, greatest: u16) -> Option<Outside> {
    match known.kinds.value(at) {
        Some(number) if number.get() > greatest && known.is_certain(at) => Some(Outside {
            number,
            is_counted: false,
        }),
        Some(_) => None,
        None => counted_outside(known, at, greatest),
    }
}

/// A subscript outside of a vector or table, or one that is a character that was read, if the code of no digit is one.
fn check_subscript(known: &Known<'_, '_>, at: usize, vector: &Fact) -> Option<Found> {
    let greatest = vector.greatest()?;
    let (name, subscript) = known.sides(at);
    if greatest < u16::from(b'0') && is_read_once(known, subscript) {
        return Some(Found::new(CHARACTER_AS_DIGIT, subscript));
    }
    let outside = outside_at(known, subscript, greatest)?;
    let id = match (outside.is_counted, greatest) {
        (true, 0) => COUNTED_BEYOND_CELL,
        (true, _) => COUNTED_BEYOND_CELLS,
        (false, 0) => BEYOND_CELL,
        (false, _) => BEYOND_CELLS,
    };
    let number = u64::from(outside.number.get());
    let found = Found::new(id, at).with(name, subscript);
    Some(found.counting(u64::from(greatest), number))
}

/// Whether a node is assigned to a cell, so that a whole word is copied.
fn is_copied(tree: &Tree<'_>, at: usize) -> bool {
    let values = tree.parent(at);
    let place = tree.first(tree.first(tree.parent(values)));
    matches!(tree.form(values), Form::Values)
        && matches!(tree.form(place), Form::Bin(BinaryOp::Index))
}

/// A word of a string that is taken for a character.
fn check_word(known: &Known<'_, '_>, at: usize) -> Option<Found> {
    let (string, subscript) = known.sides(at);
    let is_plain = matches!(known.form(subscript), Form::Number(_) | Form::Name);
    let is_unpacked = matches!(
        known.tree.form_of_parent(at),
        Form::Bin(BinaryOp::ShiftRight | BinaryOp::ShiftLeft | BinaryOp::And)
    );
    if !is_plain || is_unpacked || is_copied(known.tree, at) {
        return None;
    }
    let id = if known.has_value(subscript, 0) {
        START_OF_STRING
    } else {
        BYTE_OF_STRING
    };
    Some(Found::new(id, at).with(string, subscript))
}

/// Whether an assignment gives the variable with this index a number that is written out, or adds one to it.
fn is_counted_by(known: &Known<'_, '_>, assign: usize, index: usize) -> bool {
    let tree = known.tree;
    let (place, value) = (
        tree.first(tree.first(assign)),
        tree.first(tree.second(assign)),
    );
    let is_sum = matches!(
        tree.form(value),
        Form::Bin(BinaryOp::Add | BinaryOp::Subtract)
    ) && known.kinds.names.index_at(tree.first(value)) == Some(index)
        && matches!(tree.form(tree.second(value)), Form::Number(_));
    tree.end(place) == tree.second(assign)
        && (is_sum || matches!(tree.form(value), Form::Number(_)))
}

/// Whether a node is a number, or a static that only counts.
fn is_count(known: &Known<'_, '_>, at: usize) -> bool {
    let tree = known.tree;
    let (Some(index), Some(declared)) = (known.kinds.names.index_at(at), known.kinds.names.at(at))
    else {
        return known.kinds.kind(at).is_plain();
    };
    if declared.sort != Sort::Static || !declared.first.kind.is_plain() || declared.is_addressed {
        return known.kinds.kind(at).is_plain();
    }
    for node in declared.node..declared.end {
        if matches!(tree.form_of_parent(node), Form::Places)
            && known.kinds.names.index_at(node) == Some(index)
            && !is_counted_by(known, tree.parent(tree.parent(node)), index)
        {
            return false;
        }
    }
    true
}

/// A number that is subscripted as if it were a vector.
fn check_number(known: &Known<'_, '_>, at: usize) -> Option<Found> {
    let (vector, subscript) = known.sides(at);
    let declared = known.kinds.names.at(vector)?;
    let id = match declared.sort {
        Sort::Variable => INDEXED_NUMBER,
        Sort::Static if !declared.is_assigned => INDEXED_STATIC,
        _ => return None,
    };
    if !matches!(known.form(vector), Form::Name) || !is_count(known, subscript) {
        return None;
    }
    Some(Found::new(id, at).of(vector))
}

/// Whether a declaration's value is the address of cells: a vector, or a variable that was given a table or string.
fn is_address(declared: &Declared) -> bool {
    declared.sort == Sort::Vector || matches!(declared.first.kind, Kind::Table | Kind::String)
}

/// A subscript of the address of a variable that is an address itself.
fn check_address(known: &Known<'_, '_>, at: usize, fact: &Fact) -> Option<Found> {
    let (address, subscript) = known.sides(at);
    let declared = known.kinds.names.get(fact.declaration()?)?;
    if known.has_value(subscript, 0) || !is_address(declared) {
        return None;
    }
    Some(Found::new(ADDRESS_OF_ADDRESS, at).with(address, declared.node))
}

/// `!` between two operands.
pub fn check_index(known: &Known<'_, '_>, at: usize) -> Option<Found> {
    let fact = known.kinds.fact(known.tree.first(at));
    match fact.kind {
        Kind::Vector | Kind::Table => check_subscript(known, at, &fact),
        Kind::String => check_word(known, at),
        Kind::Number => check_number(known, at),
        Kind::Local => check_address(known, at, &fact),
        _ => None,
    }
}

/// A zero divisor.
pub fn check_divisor(known: &Known<'_, '_>, at: usize) -> Option<Found> {
    let divisor = known.tree.second(at);
    if !known.has_value(divisor, 0) || !known.is_certain(divisor) {
        return None;
    }
    Some(Found::new(DIVISION_BY_ZERO, at))
}

/// A shift by more than a word has bits.
pub fn check_shift(known: &Known<'_, '_>, at: usize) -> Option<Found> {
    let places = known.tree.second(at);
    if known.value(places)?.get() <= 15 || !known.is_certain(places) {
        return None;
    }
    Some(Found::new(LARGE_SHIFT, at))
}
