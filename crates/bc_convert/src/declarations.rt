//! Definitions of several names with a vector among the values, and declared names without a number.

use crate::complaint::Fault;
use crate::kind::Kind;
use crate::names::is_first_free;
use crate::notes::Notes;
use crate::numbers::value_of_number;
use crate::source::TokenizedText;

/// The names of a definition: the index of the first one, their number, with a comma between each two, and the index
/// of the sign after them.
#[derive(Clone, Copy)]
pub struct Values {
    pub first: usize,
    pub count: usize,
    pub equal: usize,
}

impl Values {
    /// The names of a definition whose first name is at an index.
    pub fn of(source: TokenizedText<'_>, first: usize, to: usize) -> Values {
        let mut equal = first.saturating_add(1);
        let mut count: usize = 1;
        for _ in first..to {
            if source.kind(equal) != Kind::Comma
                || source.kind(equal.saturating_add(1)) != Kind::Name
            {
                break;
            }
            equal = equal.saturating_add(2);
            count = count.saturating_add(1);
        }
        Values {
            first,
            count,
            equal,
        }
    }
}

/// Gives each name of a definition a definition of its own. `commas` are the indices of the commas between the values, and
/// `joint` is put instead of each.
pub fn put_values(
    source: TokenizedText<'_>,
    notes: &mut Notes,
    values: Values,
    commas: &[usize],
    joint: &[u8],
) {
    let mut name = values.first;
    for comma in commas {
        let sign = name.saturating_add(1);
        name = name.saturating_add(2);
        let text = notes.rendered(source, name, name.saturating_add(1));
        notes.take_out(source, sign);
        notes.take_out(source, name);
        notes.replace(*comma, joint);
        notes.put_all_after(comma.saturating_add(1), &[text.as_slice(), b" ="]);
    }
}

/// The value after which the next entry without a number continues.
#[derive(Clone, Copy)]
pub enum Last {
    /// A number.
    Number(u32),
    /// The value in a range of tokens, plus `more`.
    Value { from: usize, to: usize, more: u32 },
}

impl Last {
    /// The value plus one.
    fn next(self) -> Last {
        match self {
            Last::Number(number) => Last::Number(number.saturating_add(1)),
            Last::Value { from, to, more } => Last::Value {
                from,
                to,
                more: more.saturating_add(1),
            },
        }
    }
}

/// The value after which the list continues, if an entry's value is in this range.
pub fn continued(source: TokenizedText<'_>, from: usize, to: usize) -> Option<Last> {
    if from >= to {
        return None;
    }
    if to - from == 1 && source.kind(from) == Kind::Number {
        return value_of_number(source, from).ok().map(Last::Number);
    }
    if to - from == 1 && is_first_free(source, from) {
        return Some(Last::Number(200));
    }
    Some(Last::Value { from, to, more: 0 })
}

/// The next value; 0 if there was none.
fn counted_on(last: Option<Last>) -> Last {
    match last {
        Some(last) => last.next(),
        None => Last::Number(0),
    }
}

/// Gives a value to the entry without one at `index`. `word` is the index of GLOBAL, MANIFEST or STATIC. A static
/// gets 0. Others get one more than the last value, or 0 if there is none; for a global that is reported instead.
/// Returns the value after which the list continues.
pub fn put_entry(
    source: TokenizedText<'_>,
    notes: &mut Notes,
    word: usize,
    index: usize,
    last: Option<Last>,
) -> Option<Last> {
    let following = index.saturating_add(1);
    let is_global = source.kind(word) == Kind::Global;
    if is_global && last.is_none() {
        notes.complain(source, index, Fault::FirstGlobal);
        return None;
    }
    let next = if source.kind(word) == Kind::Static {
        Last::Number(0)
    } else {
        counted_on(last)
    };
    let sign: &[u8] = if is_global { b":" } else { b"=" };
    notes.put_after(following, sign);
    put_next(source, notes, following, next);
    Some(next)
}

/// Puts such a value after a token.
fn put_next(source: TokenizedText<'_>, notes: &mut Notes, following: usize, next: Last) {
    match next {
        Last::Number(number) => notes.put_number_after(following, number),
        Last::Value { from, to, more } => {
            let text = notes.rendered(source, from, to);
            notes.put_all_after(following, &[text.as_slice(), b"+"]);
            notes.put_number_after(following, more);
        }
    }
}
