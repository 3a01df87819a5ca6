//! LET with a value outside routines, which is STATIC in this dialect.

use crate::complaint::Fault;
use crate::declarations::{Values, put_values};
use crate::kind::Kind;
use crate::notes::Notes;
use crate::source::TokenizedText;

/// Whether a constant may contain such a token.
fn is_of_constant(kind: Kind) -> bool {
    matches!(
        kind,
        Kind::Name
            | Kind::Number
            | Kind::Character
            | Kind::Constant
            | Kind::Query
            | Kind::OpenRound
            | Kind::CloseRound
            | Kind::Comma
    ) || kind.level() > 1
        || kind == Kind::Not
}

/// The index after the value that begins at an index: the next one that begins another item.
fn value_end(source: TokenizedText<'_>, start: usize) -> usize {
    let count = source.tokens.len();
    for index in start.saturating_add(1)..count {
        let kind = source.kind(index);
        if source.is_separated(index) || matches!(kind, Kind::And | Kind::Let | Kind::Semicolon) {
            return index;
        }
    }
    count
}

/// Whether a range of tokens can be a constant: no call, no string, no vector.
fn is_constant(source: TokenizedText<'_>, from: usize, to: usize) -> bool {
    if from >= to {
        return false;
    }
    for index in from..to {
        if !is_of_constant(source.kind(index))
            || (source.kind(index) == Kind::Name
                && source.kind(index.saturating_add(1)) == Kind::OpenRound)
        {
            return false;
        }
    }
    true
}

/// Whether the word at an index declares names with values: a name and `=` or a comma follow.
fn declares_values(source: TokenizedText<'_>, index: usize) -> bool {
    source.kind(index.saturating_add(1)) == Kind::Name
        && matches!(
            source.kind(index.saturating_add(2)),
            Kind::Equal | Kind::Comma
        )
}

/// The names after the word at an index.
fn values_of(source: TokenizedText<'_>, word: usize) -> Values {
    Values::of(source, word.saturating_add(1), source.tokens.len())
}

/// Whether the values after the sign of a definition, up to `end`, are as many as its names. Constants have no commas within
/// parentheses.
fn is_paired(source: TokenizedText<'_>, values: Values, end: usize) -> bool {
    let mut count: usize = 1;
    for index in values.equal..end {
        if source.kind(index) == Kind::Comma {
            count = count.saturating_add(1);
        }
    }
    count == values.count
}

/// Gives each name after the word at an index a value of its own, in a list that ends before `end`. Returns the index after
/// the values.
fn put_list(source: TokenizedText<'_>, notes: &mut Notes, word: usize, end: usize) -> usize {
    let values = values_of(source, word);
    let after = value_end(source, values.equal.saturating_add(1)).min(end);
    let mut commas = Vec::new(notes.alloc());
    for index in values.equal..after {
        if source.kind(index) == Kind::Comma && commas.push(index).is_err() {
            notes.refuse();
        }
    }
    put_values(source, notes, values, commas.as_slice(), b"; ");
    after
}

/// The index after the definitions that the LET at an index begins, if each one has a name and a constant.
fn statics_end(source: TokenizedText<'_>, at: usize) -> Option<usize> {
    let mut word = at;
    for _ in at..source.tokens.len() {
        let values = values_of(source, word);
        let start = values.equal.saturating_add(1);
        let end = value_end(source, start);
        let is_whole = declares_values(source, word)
            && source.kind(values.equal) == Kind::Equal
            && is_constant(source, start, end)
            && is_paired(source, values, end);
        if !is_whole {
            return None;
        }
        if source.kind(end) != Kind::And {
            return Some(end);
        }
        word = end;
    }
    None
}

/// Turns the definitions from the LET at an index up to another one into a STATIC.
fn put_statics(source: TokenizedText<'_>, notes: &mut Notes, at: usize, end: usize) {
    notes.replace(at, b"STATIC $(");
    let mut word = at;
    for _ in at..end {
        word = put_list(source, notes, word, end);
        if word >= end {
            break;
        }
        let is_on_a_new_line = source.gap(word).contains(&b'\n');
        let sign: &[u8] = if is_on_a_new_line { b"" } else { b";" };
        notes.replace(word, sign);
    }
    notes.put_after(end, b" $)");
}

/// Turns each LET with values outside routines into a STATIC, or reports it.
pub fn find_statics(source: TokenizedText<'_>, notes: &mut Notes) {
    let count = source.tokens.len();
    let mut index: usize = 0;
    for _ in 0..count {
        if index >= count {
            return;
        }
        let mut next = index.saturating_add(1);
        if source.kind(index) == Kind::OpenSection {
            next = source.partner(index).max(next);
        } else if source.kind(index) == Kind::Let && declares_values(source, index) {
            match statics_end(source, index) {
                Some(end) => put_statics(source, notes, index, end),
                None => notes.complain(source, next, Fault::OuterValue),
            }
        }
        index = next;
    }
}
