//! The brackets that are open at a token, and messages on missing parentheses and mistaken tags.

use crate::draft::{Draft, Fill};
use crate::sides::closed_in_front;
use crate::trial_parse::{Change, Reach, reached};
use crate::words::{back, is_at, is_symbol};
use bc_lex_tokens::{Symbol, Token, TokenKind};
use bc_word::Memory;
use bcpl_places::Span;
use std::alloc::Global;

/// The tag of a section bracket: its text after the two signs.
fn tag<'s>(token: &Token<'s>) -> &'s [u8] {
    token.text.get(2..).unwrap_or(b"")
}

/// The tag of the section bracket at an index.
pub fn tag_at<'s>(tokens: &[Token<'s>], place: usize) -> &'s [u8] {
    match tokens.get(place) {
        Some(token) => tag(token),
        None => b"",
    }
}

/// Whether a closing bracket with this tag closes the section that the token at an index opens, and none around it.
fn is_last(tokens: &[Token<'_>], place: usize, name: &[u8]) -> bool {
    name.is_empty() || tag_at(tokens, place) == name
}

/// Removes the sections that a closing bracket with this tag closes.
pub fn close(open: &mut Vec<usize>, tokens: &[Token<'_>], name: &[u8]) {
    for _ in 0..open.len() {
        match open.pop() {
            Some(last) if !is_last(tokens, last, name) => {}
            _ => break,
        }
    }
}

/// The indexes of the section brackets that are open before the token `end`, outermost first. Returns `Memory` if an
/// allocation fails.
pub fn open_before(alloc: Global, tokens: &[Token<'_>], end: usize) -> Result<Vec<usize>, Memory> {
    let mut open = Vec::new(alloc);
    for index in 0..end.min(tokens.len()) {
        if is_at(tokens, index, Symbol::OpenSection) {
            open.push(index)?;
        } else if is_at(tokens, index, Symbol::CloseSection) {
            close(&mut open, tokens, tag_at(tokens, index));
        }
    }
    Ok(open)
}

/// The index of the section bracket that closes the one with the index `opened`, before the token `end`. Returns
/// `Memory` if an allocation fails.
pub fn closed_by(
    alloc: Global,
    tokens: &[Token<'_>],
    opened: usize,
    end: usize,
) -> Result<Option<usize>, Memory> {
    let mut open = Vec::new(alloc);
    for index in opened..end.min(tokens.len()) {
        if is_at(tokens, index, Symbol::OpenSection) {
            open.push(index)?;
        } else if is_at(tokens, index, Symbol::CloseSection) {
            close(&mut open, tokens, tag_at(tokens, index));
            if open.is_empty() {
                return Ok(Some(index));
            }
        }
    }
    Ok(None)
}

/// The same for a draft, which records that memory ran out.
pub fn open_at(draft: &mut Draft, tokens: &[Token<'_>], end: usize) -> Vec<usize> {
    let alloc = draft.alloc();
    draft.found(open_before(alloc, tokens, end), Vec::new(alloc))
}

/// The innermost open bracket before an index: a parenthesis or a section bracket.
pub fn open_bracket(tokens: &[Token<'_>], index: usize) -> Option<usize> {
    let mut closed: usize = 0;
    for count in 1..index.saturating_add(1) {
        match closed_in_front(closed, back(tokens, index, count)?) {
            Some(now) => closed = now,
            None => return index.checked_sub(count),
        }
    }
    None
}

/// Whether the innermost open bracket before an index is a parenthesis.
pub fn is_in_round(tokens: &[Token<'_>], index: usize) -> bool {
    match open_bracket(tokens, index) {
        Some(open) => is_at(tokens, open, Symbol::OpenBracket),
        None => false,
    }
}

/// Whether a `)` before the token at an index makes the parser accept more than that token, and the next refused token
/// isn't another `)`.
fn lacks_round(draft: &mut Draft, tokens: &[Token<'_>], index: usize) -> bool {
    let change = Change::Insert(TokenKind::Symbol(Symbol::CloseBracket));
    let reach = reached(draft, tokens, index, change);
    let is_closed_twice = match reach {
        Reach::After(next) => is_at(tokens, next, Symbol::CloseBracket),
        Reach::Before | Reach::End => false,
    };
    reach.is_after(index) && !is_closed_twice
}

/// The help where a `(` is open before a refused token and a `)` makes the parser get further. Adds the `(` as a
/// related place.
pub fn help_for_round(
    draft: &mut Draft,
    tokens: &[Token<'_>],
    index: usize,
) -> Option<&'static str> {
    let open = *tokens.get(open_bracket(tokens, index)?)?;
    if !is_symbol(&open, Symbol::OpenBracket) || !lacks_round(draft, tokens, index) {
        return None;
    }
    let span = Span {
        file: open.file,
        start: open.start,
        end: open.end,
    };
    draft.note(span, "this ( is not closed", &[]);
    Some("write the ) that closes it")
}

/// Sets the help for a bracket whose tag was probably meant as a separate word.
pub fn say_blank(draft: &mut Draft, tokens: &[Token<'_>], place: usize) {
    if let Some(bracket) = tokens.get(place) {
        draft.help(
            "{} is a bracket with the tag {}; write a space after {}",
            &[
                Fill::Shown(bracket.text),
                Fill::Shown(tag(bracket)),
                Fill::Shown(bracket.text.get(..2).unwrap_or(b"")),
            ],
        );
    }
}

/// Whether the parser gets past the token at an index if the tag of this bracket is a separate word. False if it has no
/// tag.
fn is_glued(draft: &mut Draft, tokens: &[Token<'_>], index: usize, open: usize) -> bool {
    let name = tag_at(tokens, open);
    if name.is_empty() {
        return false;
    }
    let kind = match Symbol::spelled(name) {
        Some(symbol) => TokenKind::Symbol(symbol),
        None => TokenKind::Name(b"N"),
    };
    let following = open.saturating_add(1);
    reached(draft, tokens, following, Change::Insert(kind)).is_after(index)
}

/// If the parser gets further when the tag of the innermost open section bracket is a separate word, sets a help that
/// says so. Returns whether it does.
pub fn says_tag(draft: &mut Draft, tokens: &[Token<'_>], index: usize) -> bool {
    let Some(open) = open_at(draft, tokens, index).last().copied() else {
        return false;
    };
    let is_meant = is_glued(draft, tokens, index, open);
    if is_meant {
        say_blank(draft, tokens, open);
    }
    is_meant
}
