//! Operands and operators, as the walk reads them.

use crate::kind::Kind;
use crate::notes::Notes;
use crate::source::TokenizedText;

/// An operand that was read: the index after it, and the index of its `%` if it is a byte of a string. That byte
/// isn't rewritten yet.
#[derive(Clone, Copy)]
pub struct Operand {
    pub end: usize,
    pub byte: Option<usize>,
}

impl Operand {
    /// An operand that isn't a byte.
    pub fn plain(end: usize) -> Operand {
        Operand { end, byte: None }
    }
}

/// Rewrites an operand that is the value of a byte.
pub fn finish(notes: &mut Notes, at: usize, operand: Operand) {
    if let Some(percent) = operand.byte {
        notes.put_before(at, b"GETBYTE(");
        notes.replace(percent, b",");
        notes.put_after(operand.end, b")");
    }
}

/// Whether no blank separates a token from the next one.
pub fn is_adjacent(source: TokenizedText<'_>, index: usize) -> bool {
    let next = index.saturating_add(1);
    source.kind(next) != Kind::End && source.end(index) == source.start(next)
}

/// Whether an assigning operator such as `+:=` is at an index.
pub fn is_compound(source: TokenizedText<'_>, index: usize) -> bool {
    let kind = source.kind(index);
    let is_operator = kind.level() > 1 || kind == Kind::Bang;
    is_operator
        && source.kind(index.saturating_add(1)) == Kind::Assign
        && is_adjacent(source, index)
}

/// The level of the dyadic operator at an index, 0 if there is none.
pub fn level_at(source: TokenizedText<'_>, index: usize) -> u8 {
    if source.is_separated(index) || is_compound(source, index) {
        0
    } else {
        source.kind(index).level()
    }
}

/// Whether the token at an index is the opening parenthesis of a call.
fn is_call(source: TokenizedText<'_>, index: usize) -> bool {
    let before = if index == 0 {
        Kind::End
    } else {
        source.kind(index - 1)
    };
    source.kind(index) == Kind::OpenRound
        && matches!(before, Kind::Name | Kind::CloseRound | Kind::CloseSection)
}

/// Whether a range of tokens has no call and no VALOF, so that it may be evaluated twice.
pub fn is_plain(source: TokenizedText<'_>, from: usize, to: usize) -> bool {
    for index in from..to {
        if is_call(source, index) || source.kind(index) == Kind::Valof {
            return false;
        }
    }
    true
}

/// Whether a text is too long to be written out several times.
pub fn is_too_long(text: &[u8]) -> bool {
    text.len() > 200
}

/// Removes a range of tokens.
pub fn take_out(source: TokenizedText<'_>, notes: &mut Notes, from: usize, to: usize) {
    for index in from..to {
        notes.take_out(source, index);
    }
}
