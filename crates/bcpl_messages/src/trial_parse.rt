//! How far the parser gets with tokens that were changed at one index. Guesses of what was meant are tested this way.

use crate::brackets::{close, tag_at};
use crate::draft::Draft;
use crate::words::is_at;
use bc_lex_tokens::{Symbol, Token, TokenKind};
use bc_parse::{ParseError, parse};
use bc_word::Memory;
use std::alloc::Global;

/// A change of the tokens at an index.
#[derive(Clone, Copy)]
pub enum Change {
    /// Inserts this token before the one at the index.
    Insert(TokenKind<'static>),
    /// Replaces the token at the index by this one.
    Replace(TokenKind<'static>),
    /// Inserts a pair of section brackets before the token at the index.
    InsertSection,
    /// Inserts a pair of parentheses there, on the line of the token before it.
    InsertBrackets,
    /// Puts parentheses around the token at the index, on the line of the token before it.
    Enclose,
}

impl Change {
    /// How many tokens the change adds.
    fn added(self) -> usize {
        match self {
            Change::Replace(_) => 0,
            Change::Insert(_) => 1,
            Change::InsertSection | Change::InsertBrackets | Change::Enclose => 2,
        }
    }

    /// How many of the original tokens the change consumes.
    fn taken(self) -> usize {
        match self {
            Change::Replace(_) | Change::Enclose => 1,
            Change::Insert(_) | Change::InsertSection | Change::InsertBrackets => 0,
        }
    }
}

/// How far the parser gets with changed tokens.
#[derive(Clone, Copy)]
pub enum Reach {
    /// The change itself is refused.
    Before,
    /// The token with this index is refused, counted before the change.
    After(usize),
    /// Everything is accepted.
    End,
}

impl Reach {
    /// Whether the parser accepts the change itself.
    pub fn is_read(self) -> bool {
        !matches!(self, Reach::Before)
    }

    /// Whether the parser accepts the token with this index.
    pub fn is_past(self, index: usize) -> bool {
        match self {
            Reach::Before => false,
            Reach::After(next) => next > index,
            Reach::End => true,
        }
    }

    /// Whether the parser accepts the token with this index and at least one more.
    pub fn is_after(self, index: usize) -> bool {
        match self {
            Reach::Before => false,
            Reach::After(next) => next > index.saturating_add(1),
            Reach::End => true,
        }
    }
}

/// A token of this kind at the position of another one.
fn in_place<'s>(kind: TokenKind<'static>, at: &Token<'s>, line_before: bool) -> Token<'s> {
    Token {
        kind,
        text: b"",
        line_before,
        file: at.file,
        start: at.start,
        end: at.end,
    }
}

/// The token at the index; the last one if the index is past the end. `None` if there are no tokens.
fn place_of<'s>(tokens: &[Token<'s>], index: usize) -> Option<Token<'s>> {
    match tokens.get(index) {
        Some(token) => Some(*token),
        None => tokens.last().copied(),
    }
}

/// Appends a symbol at the position of this token.
fn add_symbol<'s>(
    changed: &mut Vec<Token<'s>>,
    symbol: Symbol,
    at: &Token<'s>,
    line_before: bool,
) -> Result<(), Memory> {
    Ok(changed.push(in_place(TokenKind::Symbol(symbol), at, line_before))?)
}

/// Appends two symbols at the position of this token.
fn add_pair<'s>(
    changed: &mut Vec<Token<'s>>,
    pair: [Symbol; 2],
    at: &Token<'s>,
    line_before: bool,
) -> Result<(), Memory> {
    let [first, second] = pair;
    add_symbol(changed, first, at, line_before)?;
    add_symbol(changed, second, at, line_before)
}

/// Appends a token between parentheses.
fn add_enclosed<'s>(changed: &mut Vec<Token<'s>>, at: &Token<'s>) -> Result<(), Memory> {
    add_symbol(changed, Symbol::OpenBracket, at, false)?;
    changed.push(*at)?;
    add_symbol(changed, Symbol::CloseBracket, at, false)
}

/// A pair of section brackets.
const SECTION: [Symbol; 2] = [Symbol::OpenSection, Symbol::CloseSection];

/// A pair of parentheses.
const BRACKETS: [Symbol; 2] = [Symbol::OpenBracket, Symbol::CloseBracket];

/// Appends what a change inserts at the position of a token.
fn add_change<'s>(
    changed: &mut Vec<Token<'s>>,
    at: &Token<'s>,
    change: Change,
) -> Result<(), Memory> {
    match change {
        Change::Insert(kind) | Change::Replace(kind) => {
            Ok(changed.push(in_place(kind, at, at.line_before))?)
        }
        Change::InsertSection => add_pair(changed, SECTION, at, at.line_before),
        Change::InsertBrackets => add_pair(changed, BRACKETS, at, false),
        Change::Enclose => add_enclosed(changed, at),
    }
}

/// A copy of a token, with this kind if it is the one to be replaced.
fn of_kind<'s>(token: &Token<'s>, kind: TokenKind<'s>, is_it: bool) -> Token<'s> {
    Token {
        kind: if is_it { kind } else { token.kind },
        ..*token
    }
}

/// The tokens with the kind of one replaced. Returns `Memory` if an allocation fails.
pub fn replaced<'s>(
    alloc: Global,
    tokens: &[Token<'s>],
    index: usize,
    kind: TokenKind<'s>,
) -> Result<Vec<Token<'s>>, Memory> {
    let mut changed = Vec::new(alloc);
    for (place, token) in tokens.iter().enumerate() {
        changed.push(of_kind(token, kind, place == index))?;
    }
    Ok(changed)
}

/// Appends the tokens with a change at an index, at the position of this token.
fn add_changed<'s>(
    changed: &mut Vec<Token<'s>>,
    tokens: &[Token<'s>],
    index: usize,
    at: &Token<'s>,
    change: Change,
) -> Result<(), Memory> {
    changed.extend_from_slice(tokens.get(..index).unwrap_or(&[]))?;
    add_change(changed, at, change)?;
    let rest = index.saturating_add(change.taken());
    Ok(changed.extend_from_slice(tokens.get(rest..).unwrap_or(&[]))?)
}

/// How far the parser gets with a change at an index.
fn read_with(
    alloc: Global,
    tokens: &[Token<'_>],
    index: usize,
    change: Change,
) -> Result<Reach, Memory> {
    let Some(at) = place_of(tokens, index) else {
        return Ok(Reach::Before)
    };
    let mut changed = Vec::new(alloc);
    add_changed(&mut changed, tokens, index, &at, change)?;
    read_up_to(alloc, changed.as_slice(), index, change.added())
}

/// Whether the tokens before an index are a complete section, so that the file could end there.
pub fn is_whole(draft: &mut Draft, tokens: &[Token<'_>], index: usize) -> bool {
    let front = tokens.get(..index).unwrap_or(&[]);
    let read = read_up_to(draft.alloc(), front, index, 0);
    matches!(draft.found(read, Reach::Before), Reach::End)
}

/// How far the parser gets with tokens of which `added` were added at an index.
fn read_up_to(
    alloc: Global,
    changed: &[Token<'_>],
    index: usize,
    added: usize,
) -> Result<Reach, Memory> {
    match parse(alloc, changed) {
        Ok(_) => Ok(Reach::End),
        Err(ParseError::Memory) => Err(Memory),
        Err(ParseError::Expected(refused) | ParseError::TooDeep(refused)) if refused > index => {
            Ok(Reach::After(refused.saturating_sub(added)))
        }
        Err(_) => Ok(Reach::Before),
    }
}

/// The index of the last LET before an index that no section has. If the parser accepts the tokens before the index, it goes
/// on from there as from the beginning. 0 if there is no such LET. Returns `Memory` if an allocation fails.
fn fresh_start(alloc: Global, tokens: &[Token<'_>], index: usize) -> Result<usize, Memory> {
    let mut open = Vec::new(alloc);
    let mut start = 0;
    for place in 0..index.min(tokens.len()) {
        if is_at(tokens, place, Symbol::OpenSection) {
            open.push(place)?;
        } else if is_at(tokens, place, Symbol::CloseSection) {
            close(&mut open, tokens, tag_at(tokens, place));
        } else if open.is_empty() && is_at(tokens, place, Symbol::Let) {
            start = place;
        }
    }
    Ok(start)
}

/// How far the parser gets with a change at an index, of which it accepts the tokens before. Only the declaration around it is
/// parsed again, and what follows.
fn read_again(
    alloc: Global,
    tokens: &[Token<'_>],
    index: usize,
    change: Change,
) -> Result<Reach, Memory> {
    let start = fresh_start(alloc, tokens, index)?;
    let rest = tokens.get(start..).unwrap_or(&[]);
    Ok(
        match read_with(alloc, rest, index.saturating_sub(start), change)? {
            Reach::After(next) => Reach::After(next.saturating_add(start)),
            reach => reach,
        },
    )
}

/// How far the parser gets with a change at an index that isn't after the token that it refused; `Before` if memory ran out,
/// which the draft records.
pub fn reached(draft: &mut Draft, tokens: &[Token<'_>], index: usize, change: Change) -> Reach {
    let read = read_again(draft.alloc(), tokens, index, change);
    draft.found(read, Reach::Before)
}
