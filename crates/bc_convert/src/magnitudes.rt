//! ABS, which this dialect doesn't have.

use crate::complaint::Fault;
use crate::kind::Kind;
use crate::notes::Notes;
use crate::numbers::value_of_number;
use crate::operands::{is_plain, is_too_long};
use crate::source::TokenizedText;

/// The index of the number or character to which the ABS at an index applies, with or without a sign between them.
/// `None` if it applies to something else.
fn magnitude(source: TokenizedText<'_>, at: usize) -> Option<usize> {
    let next = at.saturating_add(1);
    let index = if source.kind(next) == Kind::Add {
        next.saturating_add(1)
    } else {
        next
    };
    let is_positive = match source.kind(index) {
        Kind::Number => matches!(value_of_number(source, index), Ok(value) if value < 32_768),
        Kind::Character => true,
        _ => false,
    };
    if is_positive { Some(index) } else { None }
}

/// Reports each ABS between two indices that doesn't apply to a number. These are places where a constant is
/// required.
pub fn tell_absolutes(source: TokenizedText<'_>, notes: &mut Notes, from: usize, to: usize) {
    for index in from..to {
        if source.kind(index) == Kind::Abs && magnitude(source, index).is_none() {
            notes.complain(source, index, Fault::ConstantAbs);
        }
    }
}

/// Whether a constant is required at an index: after VEC, or among the elements of a TABLE.
fn wants_constant(source: TokenizedText<'_>, index: usize) -> bool {
    let mut closed: usize = 0;
    let mut has_comma = false;
    for back in 1..=index {
        let at = index - back;
        match source.kind(at) {
            Kind::Table if closed == 0 => return true,
            Kind::Vec if closed == 0 => return !has_comma,
            Kind::Comma => has_comma = true,
            Kind::CloseRound => closed = closed.saturating_add(1),
            Kind::OpenRound => closed = closed.saturating_sub(1),
            kind if !is_of_constant(kind) => return false,
            _ => {}
        }
        if source.is_separated(at) {
            return false;
        }
    }
    false
}

/// Whether a constant may contain such a token.
fn is_of_constant(kind: Kind) -> bool {
    matches!(
        kind,
        Kind::Name
            | Kind::Number
            | Kind::Character
            | Kind::Constant
            | Kind::Query
            | Kind::Abs
            | Kind::Add
            | Kind::Star
            | Kind::Divide
            | Kind::Shift
            | Kind::Not
            | Kind::Conjunction
            | Kind::Disjunction
            | Kind::Equivalence
            | Kind::Equal
            | Kind::Relation
    )
}

/// Removes the ABS at an index, and the sign before the number at another one, if there is a sign.
fn drop_absolute(source: TokenizedText<'_>, notes: &mut Notes, at: usize, number: usize) {
    for index in at..number {
        notes.replace(index, b"");
        notes.take_gap(source, index.saturating_add(1));
    }
}

/// Rewrites the ABS at `at` with its operand, which ends before `end`. A number loses its sign. An operand without a
/// call is evaluated twice, another one is stored in a variable of a VALOF.
pub fn put_absolute(source: TokenizedText<'_>, notes: &mut Notes, at: usize, end: usize) {
    let start = at.saturating_add(1);
    match magnitude(source, at) {
        Some(number) if number.saturating_add(1) == end => drop_absolute(source, notes, at, number),
        _ if wants_constant(source, at) => notes.complain(source, at, Fault::ConstantAbs),
        _ if is_plain(source, start, end) => put_twice(source, notes, at, end),
        _ => put_kept(source, notes, at, end),
    }
}

/// Stores the operand of ABS in a variable of a VALOF.
fn put_kept(source: TokenizedText<'_>, notes: &mut Notes, at: usize, end: usize) {
    let start = at.saturating_add(1);
    let name = notes.fresh_name(source);
    let name = name.as_slice();
    notes.replace(at, b"(VALOF $( LET ");
    notes.put_all_after(start, &[name, b" ="]);
    notes.put_after(end, b"; RESULTIS ");
    put_choice(notes, end, name);
    notes.put_all_after(end, &[b" ", name, b" $))"]);
}

/// Evaluates the operand of ABS twice, if its text isn't too long.
fn put_twice(source: TokenizedText<'_>, notes: &mut Notes, at: usize, end: usize) {
    let start = at.saturating_add(1);
    let bare = notes.rendered(source, start, end);
    if is_too_long(bare.as_slice()) {
        return notes.complain(source, at, Fault::TooLongToRepeat);
    }
    if matches!(source.kind(start), Kind::Add | Kind::Not) {
        notes.put_before(start, b"(");
        notes.put_after(end, b")");
    }
    put_choice_of(source, notes, at, end);
}

/// Replaces ABS and its operand by a choice between the operand and its negative.
fn put_choice_of(source: TokenizedText<'_>, notes: &mut Notes, at: usize, end: usize) {
    let start = at.saturating_add(1);
    let text = notes.rendered(source, start, end);
    notes.replace(at, b"(");
    put_choice(notes, start, text.as_slice());
    if source.gap(start).is_empty() {
        notes.put_after(start, b" ");
    }
    notes.put_after(end, b")");
}

/// Puts after a token the test whether a value is negative, and the negated value.
fn put_choice(notes: &mut Notes, end: usize, value: &[u8]) {
    notes.put_all_after(end, &[value, b"<0 -> -", value, b","]);
}
