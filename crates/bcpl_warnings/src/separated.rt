//! Warnings: lines that are read otherwise than they look.

use crate::routines::closing;
use crate::tokens::{can_end, is_after, is_at, is_line_start, is_separated, name_at, symbol_at};
use bc_lex::Source;
use bc_lex_tokens::{Symbol, Token};
use bcpl_places::line_at;

/// How a line looks that is read otherwise.
#[derive(Clone, Copy)]
pub enum Looks {
    /// It looks like a separate command, but continues the line before.
    Apart,
    /// It looks like a continuation of the line before, but is a separate command.
    Together,
}

/// How many bytes of its line come before the token with this index.
fn indented(sources: &[Source<'_>], tokens: &[Token<'_>], index: usize) -> usize {
    let Some(token) = tokens.get(index) else {
        return 0
    };
    let Some(source) = sources.get(token.file) else {
        return 0
    };
    let at = token.start.min(source.text.len());
    let start = line_at(source.text, at).start.min(at);
    at - start
}

/// The index of the first token on the line of the token with this index.
fn line_start(tokens: &[Token<'_>], index: usize) -> usize {
    let mut at = index;
    for _ in 0..index {
        if is_line_start(tokens, at) {
            break;
        }
        at = at.saturating_sub(1);
    }
    at
}

/// The same, after a section bracket that begins the line.
fn first_after_bracket(tokens: &[Token<'_>], index: usize) -> usize {
    let start = line_start(tokens, index);
    if start < index && is_at(tokens, start, Symbol::OpenSection) {
        start + 1
    } else {
        start
    }
}

/// The same, after the last section bracket or label up to there.
fn command_start(tokens: &[Token<'_>], index: usize) -> usize {
    let mut at = index;
    for _ in 0..index {
        if is_line_start(tokens, at)
            || is_after(tokens, at, Symbol::OpenSection)
            || is_after(tokens, at, Symbol::Colon)
        {
            break;
        }
        at = at.saturating_sub(1);
    }
    at
}

/// Whether the line of the token with this index begins with an operator, so that it continues the line before.
fn is_continued(tokens: &[Token<'_>], index: usize) -> bool {
    matches!(
        symbol_at(tokens, line_start(tokens, index)),
        Some(Symbol::Plus | Symbol::Minus | Symbol::Multiply | Symbol::Divide)
    )
}

/// How many tokens of a line are searched.
const LONGEST: usize = 60;

/// Whether a `:=` is on the line that begins at this index.
fn is_assigned_on_line(tokens: &[Token<'_>], index: usize) -> bool {
    let mut at = index;
    for _ in 0..LONGEST {
        if is_at(tokens, at, Symbol::Assign) {
            return true;
        }
        at = at.saturating_add(1);
        if is_line_start(tokens, at) {
            return false;
        }
    }
    false
}

/// Whether the parenthesis at this index begins a call of a value, as in `(V!0)(X)`.
fn is_value_called(tokens: &[Token<'_>], index: usize) -> bool {
    let Some(close) = closing(tokens, index) else {
        return false;
    };
    let next = close.saturating_add(1);
    is_at(tokens, next, Symbol::OpenBracket) && !is_line_start(tokens, next)
}

/// Whether what begins at `start` and ends before this index is the head of a loop or choice whose DO is omitted.
fn is_bare_head(tokens: &[Token<'_>], start: usize, index: usize) -> bool {
    if !begins_head(tokens, start) || is_at(tokens, start, Symbol::Else) {
        return false;
    }
    for at in start..index {
        if is_at(tokens, at, Symbol::Do) {
            return false;
        }
    }
    true
}

/// How the line that begins at this index looks, if it is read otherwise.
pub fn misread(sources: &[Source<'_>], tokens: &[Token<'_>], index: usize) -> Option<Looks> {
    if index == 0 || !is_line_start(tokens, index) || !can_end(tokens, index - 1) {
        return None;
    }
    let is_bracket = is_at(tokens, index, Symbol::OpenBracket);
    let is_sign = is_at(tokens, index, Symbol::Indirection);
    let is_minus = is_at(tokens, index, Symbol::Minus);
    if !is_bracket && !is_sign && !is_minus {
        return None;
    }
    let own = indented(sources, tokens, index);
    if is_minus {
        let before = indented(sources, tokens, first_after_bracket(tokens, index - 1));
        if own <= before && !is_continued(tokens, index - 1) {
            return Some(Looks::Apart);
        }
        return None;
    }
    let start = command_start(tokens, index - 1);
    let is_together = own > indented(sources, tokens, start)
        || is_bracket && !is_assigned_on_line(tokens, index) && !is_value_called(tokens, index);
    if is_together && !is_bare_head(tokens, start, index) {
        Some(Looks::Together)
    } else {
        None
    }
}

/// Whether the token at this index is a REPEAT that looks as if it repeated what follows. In fact it repeats the
/// command of the line before, which isn't a section.
pub fn is_repeat_in_front(sources: &[Source<'_>], tokens: &[Token<'_>], index: usize) -> bool {
    let next = index.saturating_add(1);
    is_at(tokens, index, Symbol::Repeat)
        && is_line_start(tokens, index)
        && !is_after(tokens, index, Symbol::CloseSection)
        && is_line_start(tokens, next)
        && (is_at(tokens, next, Symbol::OpenSection)
            || indented(sources, tokens, next) > indented(sources, tokens, index))
}

/// Whether the token with this index ends the head of a loop or choice, so that a command follows.
fn ends_head(tokens: &[Token<'_>], index: usize) -> bool {
    is_at(tokens, index, Symbol::Do) || is_at(tokens, index, Symbol::Else)
}

/// Whether the token with this index begins the head of a loop or choice.
fn begins_head(tokens: &[Token<'_>], index: usize) -> bool {
    match symbol_at(tokens, index) {
        Some(symbol) => matches!(
            symbol,
            Symbol::While
                | Symbol::Until
                | Symbol::For
                | Symbol::If
                | Symbol::Unless
                | Symbol::Test
                | Symbol::Else
        ),
        None => false,
    }
}

/// The word that begins a loop or choice, if the line that begins at this index looks like part of its body but isn't.
/// The body is the single command on the line before.
pub fn seeming_head<'s>(
    sources: &[Source<'_>],
    tokens: &[Token<'s>],
    index: usize,
) -> Option<&'s [u8]> {
    // tried first, so that the line before is read once a line, and not once a token
    if !is_separated(tokens, index) {
        return None;
    }
    let last = index.checked_sub(1)?;
    let body = line_start(tokens, last);
    let sign = body.checked_sub(1)?;
    if name_at(tokens, body).is_none() || !ends_head(tokens, sign) {
        return None;
    }
    let head = command_start(tokens, sign);
    let own = indented(sources, tokens, index);
    let is_below = own == indented(sources, tokens, body) && own > indented(sources, tokens, head);
    if is_below && begins_head(tokens, head) {
        Some(tokens.get(head)?.text)
    } else {
        None
    }
}
