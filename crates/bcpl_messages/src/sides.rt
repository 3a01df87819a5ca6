//! Definitions and assignments whose two sides differ in number.

use crate::draft::{Draft, Fill};
use crate::words::{back, is_at, is_symbol};
use bc_lex_tokens::{Symbol, Token};

/// Whether a token is one of these symbols.
pub fn is_one_of(token: &Token<'_>, symbols: &[Symbol]) -> bool {
    symbols.iter().any(|symbol| is_symbol(token, *symbol))
}

/// The opening brackets.
const OPENING: [Symbol; 2] = [Symbol::OpenBracket, Symbol::OpenSection];

/// The closing brackets.
const CLOSING: [Symbol; 2] = [Symbol::CloseBracket, Symbol::CloseSection];

/// The symbols that end a backward search: LET, AND and `:=` come before a list of values, and `;` shows that there is
/// none.
const SIGNS: [Symbol; 4] = [Symbol::Let, Symbol::And, Symbol::Assign, Symbol::Semicolon];

/// The symbols which show that a comma is followed by another definition or assignment, not by another value.
const BEGINNING: [Symbol; 2] = [Symbol::Assign, Symbol::Equal];

/// The symbols that precede a command.
const FRONTS: [Symbol; 4] = [Symbol::Semicolon, Symbol::Colon, Symbol::Do, Symbol::Else];

/// How many brackets are closed after a token but opened before it, given that number for the next token. `None` if the
/// token opens a bracket that isn't closed.
pub fn closed_in_front(closed: usize, token: &Token<'_>) -> Option<usize> {
    if is_one_of(token, &OPENING) {
        closed.checked_sub(1)
    } else if is_one_of(token, &CLOSING) {
        Some(closed.saturating_add(1))
    } else {
        Some(closed)
    }
}

/// The index of the last LET, AND or `:=` before an index, skipping closed brackets. `None` if an open bracket or `;`
/// comes after it.
fn sign_before(tokens: &[Token<'_>], index: usize) -> Option<usize> {
    let mut closed: usize = 0;
    for count in 1..index.saturating_add(1) {
        let token = back(tokens, index, count)?;
        closed = closed_in_front(closed, token)?;
        if closed == 0 && is_one_of(token, &SIGNS) {
            return if is_symbol(token, Symbol::Semicolon) {
                None
            } else {
                index.checked_sub(count)
            };
        }
    }
    None
}

/// How many commas are among these tokens, outside brackets.
fn commas(tokens: &[Token<'_>]) -> usize {
    let mut open: usize = 0;
    let mut count: usize = 0;
    for token in tokens {
        if is_one_of(token, &OPENING) {
            open = open.saturating_add(1);
        } else if is_one_of(token, &CLOSING) {
            open = open.saturating_sub(1);
        } else if open == 0 && is_symbol(token, Symbol::Comma) {
            count = count.saturating_add(1);
        }
    }
    count
}

/// The index of the `=` after the names of a definition; `None` if there is none before BE.
fn equal(tokens: &[Token<'_>]) -> Option<usize> {
    let place = tokens.iter().position(|token| is_symbol(token, Symbol::Equal)
        || is_symbol(token, Symbol::Be))?;
    if is_symbol(tokens.get(place)?, Symbol::Equal) {
        Some(place)
    } else {
        None
    }
}

/// The end of a list of values, given the index after one of them. That is `index` itself or, if a comma is there, the
/// end of the line.
fn end_of_values(tokens: &[Token<'_>], index: usize) -> usize {
    let following = index.saturating_add(1);
    let rest = tokens.get(index..).unwrap_or(&[]);
    match rest.split_first() {
        Some((first, rest)) if is_symbol(first, Symbol::Comma) => {
            let end = rest.iter().position(|token| {
                token.line_before
                    || is_symbol(token, Symbol::Semicolon)
                    || is_symbol(token, Symbol::CloseSection)
            });
            following.saturating_add(end.unwrap_or(rest.len()))
        }
        _ => index,
    }
}

/// The index at which the command begins whose sign follows these tokens.
fn begin_of_command(tokens: &[Token<'_>]) -> usize {
    let end = tokens.len();
    let mut closed: usize = 0;
    for count in 0..end {
        let begin = end.saturating_sub(count);
        let Some(token) = back(tokens, begin, 1) else {
            return 0;
        };
        match closed_in_front(closed, token) {
            Some(now) => closed = now,
            None => return begin,
        }
        if closed == 0 && is_one_of(token, &FRONTS) {
            return begin;
        }
        if closed == 0 && token.line_before {
            return begin.saturating_sub(1);
        }
    }
    0
}

/// How many names are on the left of `=` and how many values on the right; or the same for the two sides of `:=`.
#[derive(Clone, Copy)]
struct Sides {
    left: usize,
    right: usize,
    is_assignment: bool,
}

/// How many entries, separated by commas, are among the tokens from `begin` to `end`.
fn entries(tokens: &[Token<'_>], begin: usize, end: usize) -> usize {
    commas(tokens.get(begin..end).unwrap_or(&[])).saturating_add(1)
}

/// The begin and the end of the left side of this sign: the left sides of `:=`, or the names after LET or AND, if their
/// `=` is before `index`.
fn left_of(tokens: &[Token<'_>], sign: usize, index: usize) -> Option<(usize, usize)> {
    if is_at(tokens, sign, Symbol::Assign) {
        return Some((begin_of_command(tokens.get(..sign).unwrap_or(&[])), sign));
    }
    let following = sign.saturating_add(1);
    let names = equal(tokens.get(following..index).unwrap_or(&[]))?;
    Some((following, following.saturating_add(names)))
}

/// Whether another definition or assignment begins among the tokens from `begin` to `end`.
fn goes_on(tokens: &[Token<'_>], begin: usize, end: usize) -> bool {
    let further = tokens.get(begin..end).unwrap_or(&[]);
    further.iter().any(|token| is_one_of(token, &BEGINNING))
}

/// The two sides of this sign, with the values up to the token with this index.
fn sides_of(tokens: &[Token<'_>], sign: usize, index: usize) -> Option<Sides> {
    let (begin, end) = left_of(tokens, sign, index)?;
    let values = end.saturating_add(1);
    let following = end_of_values(tokens, index);
    if values >= following || goes_on(tokens, index, following) {
        return None;
    }
    Some(Sides {
        left: entries(tokens, begin, end),
        right: entries(tokens, values, following),
        is_assignment: is_at(tokens, sign, Symbol::Assign),
    })
}

/// The two sides of the sign before an index, if they differ in number in a way that explains the refused token.
fn wrong_sides(tokens: &[Token<'_>], index: usize) -> Option<Sides> {
    let sign = sign_before(tokens, index)?;
    let sides = sides_of(tokens, sign, index)?;
    let is_wrong = if is_at(tokens, index, Symbol::Comma) {
        sides.left < sides.right
    } else {
        sides.left > sides.right
    };
    is_wrong.then_some(sides)
}

/// If the two sides before this index differ in number, sets a help that says so. Returns whether they do.
pub fn says_sides(draft: &mut Draft, tokens: &[Token<'_>], index: usize) -> bool {
    let Some(sides) = wrong_sides(tokens, index) else {
        return false;
    };
    let sentence = if sides.is_assignment {
        "both sides of := need the same number of entries: the left has {}, the right {}"
    } else if sides.left == 1 {
        "both sides of = need the same number of entries: the left has {}, the right {}; one name for many constants is LET T = TABLE 1, 2, 3"
    } else {
        "both sides of = need the same number of entries: the left has {}, the right {}"
    };
    let left = Fill::Number(sides.left as u64);
    let right = Fill::Number(sides.right as u64);
    draft.help(sentence, &[left, right]);
    true
}
