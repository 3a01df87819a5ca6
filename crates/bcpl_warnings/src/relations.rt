//! Warnings on relations that are false or true for another reason than meant: an assignment as in C, alternatives in
//! parentheses, a mask that is compared with TRUE, the remainder of a negative number, and a comparison of strings that is
//! taken for a truth value.

use crate::calls::is_negative;
use crate::found::Found;
use crate::habits::is_library_call;
use crate::known::Known;
use bc_parse_tree::BinaryOp;
use bcpl_catalogue::ids::{
    DIFFERS_FROM_EACH, EQUAL_TO_ONE_OF, KEPT_BY_RELATION, MASKED_TRUTH, ODD_REMAINDER,
    RETURNED_NUMBERS,
};
use bcpl_index::{Declared, Form, Sort, Tree};

/// `(CH = RDCH()) ~= ENDSTREAMCH`.
fn check_kept(known: &Known<'_, '_>, at: usize) -> Option<Found> {
    let (left, right) = known.sides(at);
    let (variable, value) = known.sides(left);
    let is_end = match known.form(right) {
        Form::Character(_) => true,
        Form::Name => known.tree.text(right) == b"ENDSTREAMCH".as_slice(),
        _ => false,
    };
    if !is_end
        || !matches!(known.form(left), Form::Bin(BinaryOp::Equal))
        || !matches!(known.form(variable), Form::Name)
        || !matches!(known.form(value), Form::Call)
        || !is_library_call(known, value, b"RDCH".as_slice())
    {
        return None;
    }
    Some(Found::new(KEPT_BY_RELATION, left).of(variable))
}

/// The first two characters among two or more that `|` joins.
fn joined_characters(tree: &Tree<'_>, at: usize) -> Option<(usize, usize)> {
    let mut first = None;
    let mut second = None;
    for node in at..tree.end(at) {
        match tree.form(node) {
            Form::Bin(BinaryOp::Or) => {}
            Form::Character(_) if first.is_none() => first = Some(node),
            Form::Character(_) if second.is_none() => second = Some(node),
            Form::Character(_) => {}
            _ => return None,
        }
    }
    Some((first?, second?))
}

/// `CH = ('a' | 'e')`.
fn check_characters(known: &Known<'_, '_>, at: usize, sign: BinaryOp) -> Option<Found> {
    let (left, right) = known.sides(at);
    let (first, second) = joined_characters(known.tree, right)?;
    let id = if sign == BinaryOp::Equal {
        EQUAL_TO_ONE_OF
    } else {
        DIFFERS_FROM_EACH
    };
    Some(Found::new(id, right).with(left, first).and(second, right))
}

/// Whether a node is a number, or the name of a constant, other than -1.
fn is_mask(known: &Known<'_, '_>, at: usize) -> bool {
    match known.kinds.value(at) {
        Some(word) => word.get() != 65535 && known.is_constant(at),
        None => false,
    }
}

/// `(X & 4) = TRUE`.
fn check_mask(known: &Known<'_, '_>, at: usize) -> Option<Found> {
    let (left, right) = known.sides(at);
    let (first, second) = known.sides(left);
    if !matches!(known.form(left), Form::Bin(BinaryOp::And))
        || !matches!(known.form(right), Form::True)
        || !is_mask(known, first) && !is_mask(known, second)
    {
        return None;
    }
    Some(Found::new(MASKED_TRUTH, at).of(left))
}

/// Whether a node is a number other than -1 that is written out.
fn is_other_number(tree: &Tree<'_>, at: usize) -> bool {
    matches!(tree.form(at), Form::Number(word) if word.get() != 65535)
}

/// Whether each RESULTIS of a VALOF has a number other than -1, and there is one.
fn has_other_results(known: &Known<'_, '_>, valof: usize) -> bool {
    let end = known.tree.end(valof);
    let mut has_any = false;
    for result in &known.tree.marks().results {
        if valof < *result && *result < end && known.valof_of(*result) == Some(valof) {
            if !is_other_number(known.tree, known.tree.first(*result)) {
                return false;
            }
            has_any = true;
        }
    }
    has_any
}

/// The value of a function, which follows its parameters.
fn value_of_function(tree: &Tree<'_>, function: usize) -> usize {
    let mut value = tree.first(function);
    for _ in function..tree.end(function) {
        if !matches!(tree.form(value), Form::Parameter) {
            break;
        }
        value = tree.end(value);
    }
    value
}

/// Whether a function returns only numbers that are written out, and never -1.
fn returns_numbers(known: &Known<'_, '_>, function: usize) -> bool {
    let tree = known.tree;
    let value = value_of_function(tree, function);
    match tree.form(value) {
        Form::Cond => {
            is_other_number(tree, tree.second(value)) && is_other_number(tree, tree.third(value))
        }
        Form::Valof => has_other_results(known, value),
        _ => false,
    }
}

/// `F(X) = TRUE`, where F returns 1 or 0.
fn check_returned(known: &Known<'_, '_>, at: usize) -> Option<Found> {
    let (left, right) = known.sides(at);
    let called = known.tree.first(left);
    let declared = known.kinds.names.at(called)?;
    if !matches!(known.form(right), Form::True)
        || !matches!(known.form(left), Form::Call)
        || declared.sort != Sort::Routine
        || declared.is_assigned
        || !matches!(known.form(declared.node), Form::Function)
        || !returns_numbers(known, declared.node)
    {
        return None;
    }
    Some(Found::new(RETURNED_NUMBERS, at).of(called))
}

/// Whether a variable's first value may be a negative number: one that is written out, or one that is read and that
/// nothing compares.
fn begins_negative(known: &Known<'_, '_>, declared: &Declared) -> bool {
    let tree = known.tree;
    if declared.is_assigned || declared.is_addressed {
        return false;
    }
    if let Some(word) = declared.first.value() {
        return is_negative(word);
    }
    let value = tree.second(tree.parent(declared.node));
    matches!(tree.form(value), Form::Call)
        && is_library_call(known, value, b"READN".as_slice())
        && !is_ordered(known, declared)
}

/// Whether a relation other than `=` and `~=` has this variable as an operand.
fn is_ordered(known: &Known<'_, '_>, declared: &Declared) -> bool {
    let tree = known.tree;
    let index = known.kinds.names.index_at(declared.node);
    for node in declared.node..declared.end {
        let is_order = matches!(
            tree.form_of_parent(node),
            Form::Bin(
                BinaryOp::Less | BinaryOp::LessEqual | BinaryOp::Greater | BinaryOp::GreaterEqual
            )
        );
        if is_order && known.kinds.names.index_at(node) == index {
            return true;
        }
    }
    false
}

/// Whether a node is a variable that is known to be negative at times.
fn may_be_negative(known: &Known<'_, '_>, at: usize) -> bool {
    let Some(declared) = known.kinds.names.at(at) else {
        return false;
    };
    match declared.sort {
        Sort::Variable => begins_negative(known, declared),
        Sort::Counter => {
            let start = known.tree.second(known.tree.parent(declared.node));
            matches!(known.kinds.value(start), Some(word) if is_negative(word))
        }
        _ => false,
    }
}

/// `X REM 2 = 1`, if X is negative at times.
fn check_odd(known: &Known<'_, '_>, at: usize) -> Option<Found> {
    let (left, right) = known.sides(at);
    let (dividend, divisor) = known.sides(left);
    if !matches!(known.form(left), Form::Bin(BinaryOp::Remainder))
        || !known.has_value(divisor, 2)
        || !known.has_value(right, 1)
        || !may_be_negative(known, dividend)
    {
        return None;
    }
    Some(Found::new(ODD_REMAINDER, at).with(left, dividend))
}

/// A relation whose sign is `=` or `~=`.
pub fn check_equality(known: &Known<'_, '_>, at: usize, sign: BinaryOp) -> Option<Found> {
    if let Some(found) = check_kept(known, at) {
        return Some(found);
    }
    if let Some(found) = check_characters(known, at, sign) {
        return Some(found);
    }
    if let Some(found) = check_mask(known, at) {
        return Some(found);
    }
    if let Some(found) = check_returned(known, at) {
        return Some(found);
    }
    check_odd(known, at)
}
