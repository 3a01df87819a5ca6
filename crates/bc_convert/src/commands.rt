//! Assignments to bytes, and assignments with an operator.

use crate::notes::Notes;
use crate::operands::Operand;
use crate::source::TokenizedText;

/// Turns an assignment to a byte into a call of PUTBYTE, except for its closing parenthesis. `percent` is the index
/// of the `%`, `assign` that of the `:=`.
pub fn put_byte_of(
    source: TokenizedText<'_>,
    notes: &mut Notes,
    at: usize,
    percent: usize,
    assign: usize,
) {
    notes.put_before(at, b"PUTBYTE(");
    notes.replace(percent, b",");
    notes.take_gap(source, assign);
    notes.replace(assign, b",");
}

/// Turns an assignment with an operator into one without. The operator follows the left side, `:=` follows the
/// operator, and the right side ends before `end`.
pub fn put_compound(
    source: TokenizedText<'_>,
    notes: &mut Notes,
    at: usize,
    left: Operand,
    end: usize,
) {
    let operator = left.end;
    let following = operator.saturating_add(2);
    let sign = notes.rendered(source, operator, operator.saturating_add(1));
    match left.byte {
        None => put_cell(source, notes, at, operator),
        Some(percent) => {
            put_byte(
                source,
                notes,
                Byte {
                    at,
                    percent,
                    operator,
                },
            );
            notes.put_after(end, b")");
        }
    }
    notes.put_all_after(following, &[b" ", sign.as_slice()]);
    if source.gap(following).is_empty() {
        notes.put_after(following, b" ");
    }
}

/// Replaces the operator by `:=` and repeats the left side after it. The left side is not a byte.
fn put_cell(source: TokenizedText<'_>, notes: &mut Notes, at: usize, operator: usize) {
    let assign = operator.saturating_add(1);
    let whole = notes.rendered(source, at, operator);
    notes.replace(operator, b":=");
    notes.replace(assign, b" ");
    notes.put_after(assign.saturating_add(1), whole.as_slice());
}

/// A byte on the left of an assignment with an operator: the indices of its first token, of its `%` and of the
/// operator.
#[derive(Clone, Copy)]
struct Byte {
    at: usize,
    percent: usize,
    operator: usize,
}

/// Turns a byte into the beginning of a call of PUTBYTE, and the operator after it into a call of GETBYTE.
fn put_byte(source: TokenizedText<'_>, notes: &mut Notes, byte: Byte) {
    let assign = byte.operator.saturating_add(1);
    let string = notes.rendered(source, byte.at, byte.percent);
    let place = notes.rendered(source, byte.percent.saturating_add(1), byte.operator);
    put_byte_of(source, notes, byte.at, byte.percent, byte.operator);
    notes.replace(assign, b" GETBYTE(");
    notes.put_all_after(
        assign.saturating_add(1),
        &[string.as_slice(), b", ", place.as_slice(), b")"],
    );
}
