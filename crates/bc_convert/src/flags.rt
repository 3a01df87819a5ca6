//! `%` between two flags, or in a source that looks like one for the Alto, which means `|` in some dialects. It is reported.

use crate::complaint::Fault;
use crate::doubts::looks_like_alto;
use crate::kind::Kind;
use crate::notes::Notes;
use crate::source::TokenizedText;

/// Whether the sign at an index shows that `%` takes bytes in this source: a number follows it, or a name to which something is
/// assigned.
fn takes_byte(source: TokenizedText<'_>, percent: usize) -> bool {
    let byte = percent.saturating_add(1);
    let next = percent.saturating_add(2);
    source.kind(percent) == Kind::Percent
        && (source.kind(byte) == Kind::Number
            || source.kind(byte) == Kind::Name && source.kind(next) == Kind::Assign)
}

/// Whether a condition, or a part of it that is a condition by itself, begins after the token at an index.
fn precedes_condition(source: TokenizedText<'_>, index: usize) -> bool {
    let word = source.bytes(index);
    let is_head = word.eq_ignore_ascii_case(b"IF")
        || word.eq_ignore_ascii_case(b"UNLESS")
        || word.eq_ignore_ascii_case(b"WHILE")
        || word.eq_ignore_ascii_case(b"UNTIL")
        || word.eq_ignore_ascii_case(b"TEST");
    is_head
        || matches!(
            source.kind(index),
            Kind::RepeatTest | Kind::Conjunction | Kind::Disjunction | Kind::Not | Kind::Percent
        )
}

/// Whether such a condition ends before an index.
fn ends_condition(source: TokenizedText<'_>, index: usize) -> bool {
    source.is_separated(index)
        || matches!(
            source.kind(index),
            Kind::Joint
                | Kind::Conjunction
                | Kind::Disjunction
                | Kind::Percent
                | Kind::Goto
                | Kind::Jump
                | Kind::Semicolon
                | Kind::CloseSection
        )
}

/// Whether the sign at an index is a `%` between two names that are a whole condition.
fn joins_flags(source: TokenizedText<'_>, percent: usize) -> bool {
    percent > 1
        && source.kind(percent) == Kind::Percent
        && source.kind(percent - 1) == Kind::Name
        && source.kind(percent.saturating_add(1)) == Kind::Name
        && precedes_condition(source, percent - 2)
        && ends_condition(source, percent.saturating_add(2))
}

/// Whether the sign at an index is a `%` that was taken for a byte of a string.
fn is_byte(source: TokenizedText<'_>, notes: &Notes, index: usize) -> bool {
    source.kind(index) == Kind::Percent && notes.is_changed(index)
}

/// Reports each `%` between two names that are a whole condition, unless the source shows that `%` takes bytes. If it looks
/// like one for the Alto, each `%` that was taken for a byte is reported.
pub fn find_flags(source: TokenizedText<'_>, notes: &mut Notes) {
    let count = source.tokens.len();
    for index in 0..count {
        if takes_byte(source, index) {
            return;
        }
    }
    let is_alto = looks_like_alto(source);
    for index in 0..count {
        if joins_flags(source, index) || is_alto && is_byte(source, notes, index) {
            notes.complain(source, index, Fault::PercentOr);
        }
    }
}
