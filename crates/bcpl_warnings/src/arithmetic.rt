//! Warnings on arithmetic that gives another number than meant: products that don't fit into a word, quotients that drop
//! their fraction, and characters that are taken for the digits that they show.

use crate::found::Found;
use crate::kinds::is_relation;
use crate::known::Known;
use bc_parse_tree::BinaryOp;
use bc_word::Word;
use bcpl_catalogue::ids::{
    CHARACTER_AND_NUMBER, CHARACTER_AS_DIGIT, DROPPED_FRACTION, LARGE_PRODUCT, LARGE_SUM,
    LATE_PRODUCT,
};
use bcpl_index::{Form, Kind, Sort};

/// A word as a signed number.
pub fn signed(word: Word) -> i32 {
    let number = i32::from(word.get());
    if number > 32767 {
        number.saturating_sub(65536)
    } else {
        number
    }
}

/// Whether a node is a variable with a single value, which it has wherever it is used.
fn is_fixed_variable(known: &Known<'_, '_>, at: usize) -> bool {
    match (known.tree.form(at), known.kinds.names.at(at)) {
        (Form::Name, Some(declared)) => declared.sort == Sort::Variable && known.is_certain(at),
        _ => false,
    }
}

/// The greatest number that an operator may give. The name of a variable shows that numbers are meant, and not words.
fn most_of(known: &Known<'_, '_>, at: usize) -> i32 {
    let (first, second) = (known.tree.first(at), known.tree.second(at));
    if is_fixed_variable(known, first) || is_fixed_variable(known, second) {
        32767
    } else {
        65535
    }
}

/// The values of two operands, if both are known.
fn operands_of(known: &Known<'_, '_>, at: usize) -> Option<(i32, i32)> {
    let left = known.kinds.value(known.tree.first(at))?;
    let right = known.kinds.value(known.tree.second(at))?;
    Some((signed(left), signed(right)))
}

/// Whether the product of two constants is no 16-bit number, signed or not. One that is shifted or masked may be meant as a word.
fn is_too_large(known: &Known<'_, '_>, at: usize) -> bool {
    if matches!(
        known.tree.form_of_parent(at),
        Form::Bin(BinaryOp::ShiftLeft | BinaryOp::ShiftRight | BinaryOp::And)
    ) {
        return false;
    }
    let Some((left, right)) = operands_of(known, at) else {
        return false;
    };
    let product = left.saturating_mul(right);
    product < -32768 || product > most_of(known, at)
}

/// A sum of two positive numbers that is none, if one of them is a variable.
pub fn check_total(known: &Known<'_, '_>, at: usize) -> Option<Found> {
    let (left, right) = operands_of(known, at)?;
    let most = most_of(known, at);
    if left < 0 || right < 0 || most != 32767 || left.saturating_add(right) <= most {
        return None;
    }
    Some(Found::new(LARGE_SUM, at))
}

/// The number that a node is, if it is written out.
fn written_number(known: &Known<'_, '_>, at: usize) -> Option<u16> {
    match known.tree.form(at) {
        Form::Number(word) => Some(word.get()),
        _ => None,
    }
}

/// The two numbers of a quotient, if both are written out.
fn written_quotient(known: &Known<'_, '_>, at: usize) -> Option<(u16, u16)> {
    let left = written_number(known, known.tree.first(at))?;
    let right = written_number(known, known.tree.second(at))?;
    Some((left, right))
}

/// `5 / 9`, which is 0, and `X * (9 / 5)`, in which the quotient is 1.
pub fn check_fraction(known: &Known<'_, '_>, at: usize) -> Option<Found> {
    let (left, right) = written_quotient(known, at)?;
    let is_factor = matches!(known.tree.form_of_parent(at), Form::Bin(BinaryOp::Multiply));
    // a quotient that is multiplied has a warning of its own
    let is_warned_of = is_factor && known.tree.is_first(at);
    if is_warned_of || right == 0 {
        return None;
    }
    let quotient = left / right;
    if left % right == 0 || quotient > 0 && !is_factor {
        return None;
    }
    let (first, second) = known.sides(at);
    let found = Found::new(DROPPED_FRACTION, at).with(first, second);
    Some(found.counting(u64::from(quotient), 0))
}

/// Whether a quotient is one of two numbers and has a remainder.
fn drops_fraction(known: &Known<'_, '_>, quotient: usize) -> bool {
    let tree = known.tree;
    let (first, second) = (tree.first(quotient), tree.second(quotient));
    let are_numbers = matches!(tree.form(first), Form::Number(_))
        && matches!(tree.form(second), Form::Number(_));
    let (Some(left), Some(right)) = (known.kinds.value(first), known.kinds.value(second)) else {
        return false;
    };
    are_numbers && right.get() != 0 && left.get() % right.get() != 0
}

/// Whether a product is a quotient times 100, or a fraction that is written out times something.
fn is_late_product(known: &Known<'_, '_>, at: usize) -> bool {
    let tree = known.tree;
    let quotient = tree.first(at);
    let is_percentage = known.has_value(tree.second(at), 100)
        && !known.has_value(tree.second(quotient), 100);
    matches!(tree.form(quotient), Form::Bin(BinaryOp::Divide))
        && (is_percentage || drops_fraction(known, quotient))
}

/// A product.
pub fn check_product(known: &Known<'_, '_>, at: usize) -> Option<Found> {
    if is_too_large(known, at) {
        Some(Found::new(LARGE_PRODUCT, at))
    } else if is_late_product(known, at) {
        Some(Found::new(LATE_PRODUCT, at))
    } else {
        None
    }
}

/// Whether an expression is a character, and isn't written as one.
fn is_read_character(known: &Known<'_, '_>, at: usize) -> bool {
    known.kinds.kind(at) == Kind::Character && !matches!(known.tree.form(at), Form::Character(_))
}

/// A sum of ten times something and a character, from which nothing is subtracted.
pub fn check_digit(known: &Known<'_, '_>, at: usize) -> Option<Found> {
    let (product, digit) = known.sides(at);
    let (first, second) = known.sides(product);
    let is_tenfold = matches!(known.form(product), Form::Bin(BinaryOp::Multiply))
        && (known.has_value(second, 10) || known.has_value(first, 10));
    let is_reduced = matches!(known.tree.form_of_parent(at), Form::Bin(BinaryOp::Subtract));
    if !is_tenfold || is_reduced || !is_read_character(known, digit) {
        return None;
    }
    Some(Found::new(CHARACTER_AS_DIGIT, digit))
}

/// Whether a node is a number from 1 to 6 that is written out. Those from 7 to 9 may be meant as the codes of a bell, a backspace and a tab.
fn is_one_digit(known: &Known<'_, '_>, at: usize) -> bool {
    match known.tree.form(at) {
        Form::Number(word) => word.get() >= 1 && word.get() <= 6,
        _ => false,
    }
}

/// The first CASE of a SWITCHON whose value is a number from 1 to 6, if there are none over 9.
fn digit_case(known: &Known<'_, '_>, switch: usize) -> Option<usize> {
    let tree = known.tree;
    let mut found = None;
    for node in switch..tree.end(switch) {
        if !matches!(tree.form(node), Form::Case) || tree.parent(tree.parent(node)) != switch {
            continue;
        }
        let value = tree.first(node);
        if is_one_digit(known, value) {
            found = found.or(Some(value));
        } else if matches!(tree.form(value), Form::Number(word) if word.get() > 9) {
            return None;
        }
    }
    found
}

/// A SWITCHON on a character whose CASEs are numbers of one digit.
pub fn check_digit_cases(known: &Known<'_, '_>, at: usize) -> Option<Found> {
    let value = known.tree.first(at);
    if !is_read_character(known, value) {
        return None;
    }
    let digit = digit_case(known, at)?;
    Some(Found::new(CHARACTER_AND_NUMBER, digit).of(value))
}

/// A character that is compared with a number of one digit.
pub fn check_compared_digit(known: &Known<'_, '_>, at: usize, sign: BinaryOp) -> Option<Found> {
    let (left, right) = known.sides(at);
    if !is_relation(sign) || !is_read_character(known, left) || !is_one_digit(known, right) {
        return None;
    }
    Some(Found::new(CHARACTER_AND_NUMBER, right).of(left))
}
