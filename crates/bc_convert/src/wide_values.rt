//! Values that need words of more than 16 bits: products of constants, and shifts by a constant's name.

use crate::complaint::Fault;
use crate::kind::Kind;
use crate::notes::Notes;
use crate::numbers::value_of_number;
use crate::source::TokenizedText;

/// The value of the number, or the constant's name, at an index.
fn constant_at(source: TokenizedText<'_>, index: usize) -> Option<u32> {
    match source.kind(index) {
        Kind::Number => value_of_number(source, index).ok(),
        Kind::Name => source.name(index).value,
        _ => None,
    }
}

/// Whether the operand at an index is the whole left operand of the `*` after it.
fn begins_product(source: TokenizedText<'_>, index: usize) -> bool {
    let before = match index.checked_sub(1) {
        Some(before) => source.kind(before),
        None => Kind::End,
    };
    let is_applied = matches!(
        before,
        Kind::Star | Kind::Divide | Kind::Bang | Kind::Percent | Kind::Content | Kind::Address
    );
    source.kind(index.saturating_add(1)) == Kind::Star && !is_applied
}

/// Whether the operand at an index goes on after it.
fn goes_on(source: TokenizedText<'_>, index: usize) -> bool {
    let next = index.saturating_add(1);
    matches!(
        source.kind(next),
        Kind::OpenRound | Kind::Bang | Kind::Percent
    ) && !source.is_separated(next)
}

/// Whether the product of constants that begins at an index is over 65,535.
fn is_wide_product(source: TokenizedText<'_>, index: usize) -> bool {
    let Some(first) = constant_at(source, index) else {
        return false;
    };
    let mut product = u64::from(first);
    let mut star = index.saturating_add(1);
    for _ in index..source.tokens.len() {
        let factor = star.saturating_add(1);
        match constant_at(source, factor) {
            Some(value) if source.kind(star) == Kind::Star && !goes_on(source, factor) => {
                product = product.saturating_mul(u64::from(value));
            }
            _ => break,
        }
        star = star.saturating_add(2);
    }
    product > 65_535
}

/// Whether the token at an index is the name of a constant over 15, after the sign of a shift.
fn is_wide_shift(source: TokenizedText<'_>, index: usize) -> bool {
    index > 0
        && source.kind(index - 1) == Kind::Shift
        && source.kind(index) == Kind::Name
        && matches!(constant_at(source, index), Some(value) if value > 15)
}

/// Reports products of constants that are over 65,535, and shifts by a constant over 15 that has a name.
pub fn find_wide_values(source: TokenizedText<'_>, notes: &mut Notes) {
    for index in 0..source.tokens.len() {
        if begins_product(source, index) && is_wide_product(source, index) {
            notes.complain(source, index, Fault::WideProduct);
        } else if is_wide_shift(source, index) {
            notes.complain(source, index, Fault::LongShift);
        }
    }
}
