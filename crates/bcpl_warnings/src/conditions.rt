//! Warnings on relations and conditions that are probably meant otherwise.

use crate::calls::{check_large, large, only_character};
use crate::found::Found;
use crate::habits::check_end;
use crate::kinds::is_relation;
use crate::known::Known;
use crate::ranges::check_range;
use crate::relations::check_equality;
use bc_parse_tree::{BinaryOp, UnaryOp};
use bcpl_catalogue::ids::{
    ADDED_STRING, ADDED_STRINGS, ADDED_VECTORS, ALWAYS_DIFFERENT, ALWAYS_GREATER, ALWAYS_LESS,
    COMPARED_STRING, COMPARED_STRINGS, COMPARED_TRUTH, COMPARED_VECTORS, CONSTANT_CONDITION,
    INVERTED_NUMBER, LOADED_NUMBER, LOADED_TRUTH, LOOSE_RELATION, NEVER_BOTH, NEVER_GREATER,
    NEVER_LESS, NEVER_TRUE, STRING_AS_CONDITION, UNCALLED_ROUTINE, VECTOR_AND_ZERO,
    VECTOR_AS_CONDITION, WORD_OF_STRING,
};
use bcpl_index::{Form, Kind, Sort};

/// The operator of a relation; `None` if the node isn't one.
pub fn relation_at(known: &Known<'_, '_>, at: usize) -> Option<BinaryOp> {
    match known.form(at) {
        Form::Bin(sign) if is_relation(sign) => Some(sign),
        _ => None,
    }
}

/// `X & 1 = 0`: the relation of two constants is the second operand.
fn check_precedence(known: &Known<'_, '_>, at: usize) -> Option<Found> {
    let (first, second) = known.sides(at);
    if relation_at(known, second).is_none()
        || !known.is_constant(second)
        || known.is(first, Kind::Truth)
        || known.is_parenthesised(second)
    {
        return None;
    }
    let (left, right) = known.sides(second);
    Some(
        Found::new(LOOSE_RELATION, at)
            .with(first, left)
            .and(right, second),
    )
}

/// `CH = 'a' | 'b'`: a constant is the second operand, and a relation the first.
fn check_alternative(known: &Known<'_, '_>, at: usize, sign: BinaryOp) -> Option<Found> {
    let (first, second) = known.sides(at);
    let (left, right) = known.sides(first);
    let is_meant = match known.form(second) {
        Form::Character(_) => true,
        Form::Number(word) => word.get() != 0 && sign == BinaryOp::Or,
        _ => false,
    };
    if !is_meant || relation_at(known, first).is_none() || known.is(right, Kind::Truth) {
        return None;
    }
    Some(
        Found::new(CONSTANT_CONDITION, at)
            .with(left, second)
            .and(right, first),
    )
}

/// The variable and the constant that a relation of this sign compares.
fn compared(known: &Known<'_, '_>, at: usize, sign: BinaryOp) -> Option<(usize, u16)> {
    let (left, right) = known.sides(at);
    if relation_at(known, at)? != sign || !known.is_constant(right) {
        return None;
    }
    let variable = known.kinds.names.index_at(left)?;
    let value = known.value(right)?;
    Some((variable, value.get()))
}

/// `X ~= 1 | X ~= 2`, which is always true, and `X = 1 & X = 2`, which never is.
fn check_exclusion(known: &Known<'_, '_>, at: usize, sign: BinaryOp) -> Option<Found> {
    let (relation, id) = if sign == BinaryOp::Or {
        (BinaryOp::NotEqual, ALWAYS_DIFFERENT)
    } else {
        (BinaryOp::Equal, NEVER_BOTH)
    };
    let (first, second) = known.sides(at);
    let (name, one) = compared(known, first, relation)?;
    let (same, other) = compared(known, second, relation)?;
    if name != same || one == other {
        return None;
    }
    let variable = known.tree.first(first);
    Some(Found::new(id, at).with(first, second).and(variable, at))
}

/// Whether a node is a string that is written out.
fn is_string(known: &Known<'_, '_>, at: usize) -> bool {
    matches!(known.form(at), Form::String)
}

/// A relation that compares the addresses of strings.
fn check_strings(known: &Known<'_, '_>, at: usize) -> Option<Found> {
    let (left, right) = known.sides(at);
    let are_both = known.is(left, Kind::String) && known.is(right, Kind::String);
    let literal = if is_string(known, right) {
        right
    } else if is_string(known, left) {
        left
    } else if are_both {
        at
    } else {
        return None;
    };
    let is_character = only_character(known.text(literal, literal)).is_some();
    if is_character && !are_both && literal != at {
        Some(Found::new(COMPARED_STRING, literal))
    } else {
        Some(Found::new(COMPARED_STRINGS, at))
    }
}

/// A truth value that is compared with a number other than TRUE and FALSE.
fn check_truth(known: &Known<'_, '_>, at: usize) -> Option<Found> {
    let (left, right) = known.sides(at);
    let (truth, number) = if known.is(left, Kind::Truth) {
        (left, right)
    } else {
        (right, left)
    };
    let word = known.value(number)?.get();
    let is_other = word != 0 && word != 65535;
    if !known.is(truth, Kind::Truth) || !known.kind(number).is_plain() || !is_other {
        return None;
    }
    let id = match known.form(truth) {
        Form::True => NEVER_TRUE,
        _ => COMPARED_TRUTH,
    };
    Some(Found::new(id, at).with(truth, number))
}

/// Whether an operator computes a number.
fn is_arithmetic(sign: BinaryOp) -> bool {
    matches!(
        sign,
        BinaryOp::Add
            | BinaryOp::Subtract
            | BinaryOp::Multiply
            | BinaryOp::Divide
            | BinaryOp::Remainder
    )
}

/// A routine's name that is compared with a number, or is an operand of arithmetic.
fn check_routine(known: &Known<'_, '_>, at: usize, sign: BinaryOp) -> Option<Found> {
    let (left, right) = known.sides(at);
    let (routine, other) = if known.is(left, Kind::Routine) {
        (left, right)
    } else {
        (right, left)
    };
    let is_compared = is_relation(sign)
        && matches!(
            known.kind(other),
            Kind::Number | Kind::Character | Kind::Truth | Kind::String
        );
    if !known.is(routine, Kind::Routine) || !is_arithmetic(sign) && !is_compared {
        return None;
    }
    Some(Found::new(UNCALLED_ROUTINE, routine))
}

/// Whether a node is the name of a vector.
fn is_vector(known: &Known<'_, '_>, at: usize) -> bool {
    match known.kinds.names.at(at) {
        Some(declared) => declared.sort == Sort::Vector && !declared.is_assigned,
        None => false,
    }
}

/// A vector that is compared with another one, or with 0.
fn check_vectors(known: &Known<'_, '_>, at: usize) -> Option<Found> {
    let (left, right) = known.sides(at);
    if !is_vector(known, left) {
        return None;
    }
    if is_vector(known, right) {
        return Some(Found::new(COMPARED_VECTORS, at).with(left, right));
    }
    match known.form(right) {
        Form::Number(word) if word.get() == 0 => Some(Found::new(VECTOR_AND_ZERO, at).of(left)),
        _ => None,
    }
}

/// A relation to the greatest or the least number that is always or never true.
fn check_extreme(known: &Known<'_, '_>, at: usize, sign: BinaryOp) -> Option<Found> {
    let right = known.tree.second(at);
    let id = match (sign, known.value(right)?.get()) {
        (BinaryOp::Greater, 32767) => NEVER_GREATER,
        (BinaryOp::LessEqual, 32767) => ALWAYS_LESS,
        (BinaryOp::Less, 32768) => NEVER_LESS,
        (BinaryOp::GreaterEqual, 32768) => ALWAYS_GREATER,
        _ => return None,
    };
    if !known.is_constant(right) {
        return None;
    }
    Some(Found::new(id, at))
}

/// A relation by order with an operand that is a large number, or the greatest or the least one.
fn check_order(known: &Known<'_, '_>, at: usize, sign: BinaryOp) -> Option<Found> {
    let (left, right) = known.sides(at);
    if large(known, left).is_some() && large(known, right).is_some() {
        return None;
    }
    if let Some(found) = check_large(known, left) {
        return Some(found);
    }
    if let Some(found) = check_large(known, right) {
        return Some(found);
    }
    check_extreme(known, at, sign)
}

/// A relation.
fn check_relation(known: &Known<'_, '_>, at: usize, sign: BinaryOp) -> Option<Found> {
    let is_equality = matches!(sign, BinaryOp::Equal | BinaryOp::NotEqual);
    if is_equality {
        if let Some(found) = check_equality(known, at, sign) {
            return Some(found);
        }
    }
    if let Some(found) = check_strings(known, at) {
        return Some(found);
    }
    if let Some(found) = check_truth(known, at) {
        return Some(found);
    }
    if !is_equality {
        return check_order(known, at, sign);
    }
    if let Some(found) = check_vectors(known, at) {
        return Some(found);
    }
    check_end(known, at)
}

/// Whether a node is a vector or a table.
fn has_cells(known: &Known<'_, '_>, at: usize) -> bool {
    matches!(known.kind(at), Kind::Vector | Kind::Table)
}

/// Two vectors or strings that are added, or a string that is written out and something else.
fn check_sum(known: &Known<'_, '_>, at: usize) -> Option<Found> {
    let (left, right) = known.sides(at);
    if known.is(left, Kind::String) && known.is(right, Kind::String) {
        return Some(Found::new(ADDED_STRINGS, at));
    }
    if is_string(known, left) || is_string(known, right) {
        return Some(Found::new(ADDED_STRING, at));
    }
    if !has_cells(known, left) || !has_cells(known, right) {
        return None;
    }
    Some(Found::new(ADDED_VECTORS, at).with(left, right))
}

/// Two conditions that `&` or `|` joins.
fn check_joined(known: &Known<'_, '_>, at: usize, sign: BinaryOp) -> Option<Found> {
    if let Some(found) = check_precedence(known, at) {
        return Some(found);
    }
    if let Some(found) = check_alternative(known, at, sign) {
        return Some(found);
    }
    if let Some(found) = check_exclusion(known, at, sign) {
        return Some(found);
    }
    check_range(known, at, sign)
}

/// A dyadic operator.
pub fn check_dyadic(known: &Known<'_, '_>, at: usize, sign: BinaryOp) -> Option<Found> {
    if let Some(found) = check_routine(known, at, sign) {
        return Some(found);
    }
    match sign {
        BinaryOp::And | BinaryOp::Or => check_joined(known, at, sign),
        BinaryOp::Add => check_sum(known, at),
        _ if is_relation(sign) => check_relation(known, at, sign),
        _ => None,
    }
}

/// NOT of a number that isn't a truth value, where the result is used as one.
pub fn check_not(known: &Known<'_, '_>, at: usize) -> Option<Found> {
    let operand = known.tree.first(at);
    let word = known.value(operand)?;
    let is_flag = matches!(known.form(operand), Form::Name)
        && word.get() == 1
        && !matches!(known.tree.form_of_parent(at), Form::Bin(_) | Form::Entry(_));
    let is_meant = known.is_condition(at) || is_flag;
    if !known.is(operand, Kind::Number) || word.get() == 0 || word.get() == 65535 || !is_meant {
        return None;
    }
    let inverted = u64::from(word.complemented().get());
    Some(Found::new(INVERTED_NUMBER, at).counting(u64::from(word.get()), inverted))
}

/// The name of a routine, string or vector that is a condition.
pub fn check_name(known: &Known<'_, '_>, at: usize) -> Option<Found> {
    let id = match known.kind(at) {
        Kind::Routine => UNCALLED_ROUTINE,
        Kind::String => STRING_AS_CONDITION,
        Kind::Vector | Kind::Table => VECTOR_AS_CONDITION,
        _ => return None,
    };
    if !known.is_condition(at) {
        return None;
    }
    Some(Found::new(id, at))
}

/// Whether a monadic operator is NOT.
pub fn is_not(sign: UnaryOp) -> bool {
    matches!(sign, UnaryOp::Not)
}

/// Whether the word that `!` loads is passed on, or compared with a number or character.
fn is_word_used(known: &Known<'_, '_>, at: usize) -> bool {
    let parent = known.tree.parent(at);
    let (first, second) = known.sides(parent);
    let other = if known.tree.is_first(at) {
        second
    } else {
        first
    };
    match known.form(parent) {
        Form::Call => !known.tree.is_first(at),
        Form::Bin(sign) => is_relation(sign) && known.kind(other).is_plain(),
        _ => false,
    }
}

/// Whether a node is the name of a variable.
fn is_variable(known: &Known<'_, '_>, at: usize) -> bool {
    match (known.form(at), known.kinds.names.at(at)) {
        (Form::Name, Some(declared)) => declared.sort == Sort::Variable,
        _ => false,
    }
}

/// `!` before a truth value, a string or a variable that is a number.
pub fn check_load(known: &Known<'_, '_>, at: usize) -> Option<Found> {
    let operand = known.tree.first(at);
    let id = match known.kind(operand) {
        Kind::Truth => LOADED_TRUTH,
        Kind::String if is_word_used(known, at) => WORD_OF_STRING,
        Kind::Number if is_variable(known, operand) => LOADED_NUMBER,
        _ => return None,
    };
    Some(Found::new(id, at).of(operand))
}
