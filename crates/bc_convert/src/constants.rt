//! The values of a TABLE, which some dialects have in brackets, and the step of a FOR. They must be constants in this dialect.

use crate::complaint::Fault;
use crate::kind::Kind;
use crate::notes::Notes;
use crate::source::TokenizedText;

/// Whether a string is at an index, or a name that the source declares other than by MANIFEST.
fn is_variable(source: TokenizedText<'_>, index: usize) -> bool {
    match source.kind(index) {
        Kind::Text => true,
        Kind::Name => {
            let facts = source.name(index);
            facts.is_declared && !facts.is_constant
        }
        _ => false,
    }
}

/// Whether a list of constants may have such a token.
fn is_of_constants(kind: Kind) -> bool {
    kind.level() > 0
        || kind == Kind::Comma
        || kind == Kind::CloseRound
        || kind.can_be_operand() && kind != Kind::Valof && kind != Kind::Table
}

/// Whether a list of constants ends before an index, which may be in brackets.
fn ends_constants(source: TokenizedText<'_>, index: usize, is_inside: bool) -> bool {
    let kind = source.kind(index);
    if is_inside {
        !is_of_constants(kind) && kind != Kind::Semicolon
    } else {
        !is_of_constants(kind) || kind == Kind::CloseRound || source.is_separated(index)
    }
}

/// The index of the first token that isn't constant in the list of constants that begins at an index.
fn first_variable(source: TokenizedText<'_>, from: usize) -> Option<usize> {
    let mut open: usize = 0;
    for index in from..source.tokens.len() {
        let kind = source.kind(index);
        if ends_constants(source, index, open > 0) && index > from {
            return None;
        }
        if is_variable(source, index) {
            return Some(index);
        }
        match kind {
            Kind::OpenRound => open = open.saturating_add(1),
            Kind::CloseRound => open = open.saturating_sub(1),
            _ => {}
        }
    }
    None
}

/// Why the list of constants after the token at an index must not have a variable; `None` if no such list follows.
fn fault_after(source: TokenizedText<'_>, index: usize) -> Option<Fault> {
    match source.kind(index) {
        Kind::Table => Some(Fault::TableValue),
        Kind::Joint if source.bytes(index).eq_ignore_ascii_case(b"BY") => Some(Fault::StepValue),
        _ => None,
    }
}

/// Replaces a bracket by a blank, or by nothing if there is one before it already.
fn drop_bracket(source: TokenizedText<'_>, notes: &mut Notes, index: usize) {
    let blank: &[u8] = if source.gap(index).is_empty() {
        b" "
    } else {
        b""
    };
    notes.replace(index, blank);
}

/// Removes the square brackets around the values of a TABLE, the first of which is at an index, and puts commas between the
/// values.
fn put_table(source: TokenizedText<'_>, notes: &mut Notes, opening: usize) {
    let closing = source.partner(opening);
    if source.bytes(opening) != b"[".as_slice() || closing >= source.tokens.len() {
        return;
    }
    for index in opening..closing {
        if source.kind(index) == Kind::Semicolon {
            notes.replace(index, b",");
        }
    }
    drop_bracket(source, notes, opening);
    notes.take_gap(source, opening.saturating_add(1));
    drop_bracket(source, notes, closing);
}

/// Rewrites each TABLE whose values are in square brackets.
pub fn find_tables(source: TokenizedText<'_>, notes: &mut Notes) {
    for index in 0..source.tokens.len() {
        if source.kind(index) == Kind::Table {
            put_table(source, notes, index.saturating_add(1));
        }
    }
}

/// Reports the first value of each TABLE that isn't a constant, and each step of a FOR that isn't one.
pub fn find_variables(source: TokenizedText<'_>, notes: &mut Notes) {
    for index in 0..source.tokens.len() {
        if let Some(fault) = fault_after(source, index)
            && let Some(variable) = first_variable(source, index.saturating_add(1))
        {
            notes.complain(source, variable, fault);
        }
    }
}
