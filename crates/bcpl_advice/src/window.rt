//! The tokens around the place that a parser has come to. Of the tokens before it only those are held on which the parser's
//! state depends, and a few of those after it. So the search for the next fault doesn't read the whole main each time.

use crate::words::{is_at, is_name, symbol_at};
use bc_lex_tokens::{Symbol, Token, TokenKind};
use bc_parse::{ParseError, parse};
use bc_word::Memory;
use bcpl_messages::open_before;
use std::alloc::Global;

/// How many tokens before the place are held in any case: advice looks back over more than a hundred.
const BEHIND: usize = 240;

/// How many more may be held, so that not each fault makes the window shorter.
const SLACK: usize = 120;

/// How many tokens after the place are held at least.
const AHEAD: usize = 64;

/// How many tokens after a refused one must be held for its message.
const NEAR: usize = 24;

/// What a parser refuses.
#[derive(Clone, Copy)]
enum Refusal {
    /// The token with this index.
    Token(usize),
    /// A bracket, or too deep nesting, at the token with this index.
    Other(usize),
    /// No token.
    Nothing,
}

/// What the parser refuses of these tokens.
fn refused_in(alloc: Global, tokens: &[Token<'_>]) -> Result<Refusal, Memory> {
    match parse(alloc, tokens) {
        Err(ParseError::Memory) => Err(Memory),
        Err(ParseError::Expected(at)) => Ok(Refusal::Token(at)),
        Err(ParseError::NotOpen(at) | ParseError::TooDeep(at)) => Ok(Refusal::Other(at)),
        Ok(_) | Err(ParseError::Unclosed) => Ok(Refusal::Nothing),
    }
}

/// A list of declarations or commands that is open.
#[derive(Clone, Copy)]
struct List {
    /// Where it begins among the tokens that are held.
    start: usize,
    /// Where its last part begins.
    last: usize,
}

/// The tokens that are held.
#[derive(Drop)]
pub struct Window<'a, 's> {
    /// All tokens of the main.
    all: &'a [Token<'s>],
    /// The index of the first token of the main that isn't held yet.
    next: usize,
    /// Those that are held.
    held: Vec<Token<'s>>,
    /// How many tokens before the place were left out.
    left_out: usize,
}

/// Whether a command or a declaration can end with the token with this index.
fn can_end(tokens: &[Token<'_>], at: usize) -> bool {
    match symbol_at(tokens, at) {
        Some(symbol) => matches!(
            symbol,
            Symbol::CloseBracket
                | Symbol::CloseSection
                | Symbol::True
                | Symbol::False
                | Symbol::Return
                | Symbol::Break
                | Symbol::Loop
                | Symbol::EndCase
                | Symbol::Finish
                | Symbol::Repeat
        ),
        None => true,
    }
}

/// Whether a command or a declaration begins with the token with this index, if it follows the end of another one.
fn can_begin(tokens: &[Token<'_>], at: usize) -> bool {
    match symbol_at(tokens, at) {
        Some(symbol) => matches!(
            symbol,
            Symbol::Let
                | Symbol::Manifest
                | Symbol::Static
                | Symbol::Global
                | Symbol::If
                | Symbol::Unless
                | Symbol::While
                | Symbol::Until
                | Symbol::For
                | Symbol::Test
                | Symbol::SwitchOn
                | Symbol::Case
                | Symbol::Default
                | Symbol::Goto
                | Symbol::Return
                | Symbol::ResultIs
                | Symbol::Break
                | Symbol::Loop
                | Symbol::EndCase
                | Symbol::Finish
        ),
        None => is_name(tokens, at),
    }
}

/// Whether the token with this index begins a part of the list around it: a declaration or a command on a new line.
fn begins_part(tokens: &[Token<'_>], at: usize) -> bool {
    let (Some(token), Some(before)) = (tokens.get(at), at.checked_sub(1)) else {
        return false;
    };
    token.line_before && can_begin(tokens, at) && can_end(tokens, before)
}

/// Tokens of which the parts of lists are left out that the parser has read, except the last of each list.
#[derive(Drop)]
struct Shortened<'s> {
    alloc: Global,
    tokens: Vec<Token<'s>>,
    /// The lists that are open, and the places of their brackets.
    lists: Vec<List>,
    brackets: Vec<usize>,
}

impl<'s> Shortened<'s> {
    /// A list begins here.
    fn open(&mut self) -> Result<(), Memory> {
        let start = self.tokens.len();
        Ok(self.lists.push(List { start, last: start })?)
    }

    /// A part of the innermost list begins here: the one before the last is left out.
    fn begin_part(&mut self) -> Result<(), Memory> {
        let Some(List { start, last }) = self.lists.pop() else {
            return Ok(());
        };
        let held = self.tokens.as_slice().get(last..).unwrap_or(&[]);
        let part = Vec::from_slice(self.alloc, held)?;
        self.tokens.truncate(start);
        self.tokens.extend_from_slice(part.as_slice())?;
        let last = self.tokens.len();
        Ok(self.lists.push(List { start, last })?)
    }

    /// Ends the lists that a closing bracket with this tag closes.
    fn close(&mut self, tag: &[u8]) {
        for _ in 0..self.brackets.len() {
            self.lists.pop();
            let opened = self.brackets.pop().unwrap_or(0);
            let text: &[u8] = match self.tokens.get(opened) {
                Some(token) => token.text,
                None => b"",
            };
            if tag.is_empty() || text.get(2..).unwrap_or(b"") == tag {
                break;
            }
        }
    }

    /// Adds the token with this index.
    fn add(&mut self, tokens: &[Token<'s>], at: usize) -> Result<(), Memory> {
        let Some(token) = tokens.get(at) else {
            return Ok(());
        };
        if begins_part(tokens, at) {
            self.begin_part()?;
        }
        if is_at(tokens, at, Symbol::CloseSection) {
            self.close(token.text.get(2..).unwrap_or(b""));
        }
        let place = self.tokens.len();
        self.tokens.push(*token)?;
        if is_at(tokens, at, Symbol::OpenSection) {
            self.brackets.push(place)?;
            self.open()?;
        }
        Ok(())
    }
}

/// The first `count` of these tokens without what the parser has read and needs no more.
fn without_read<'s>(
    alloc: Global,
    tokens: &[Token<'s>],
    count: usize,
) -> Result<Vec<Token<'s>>, Memory> {
    let mut short = Shortened {
        alloc,
        tokens: Vec::new(alloc),
        lists: Vec::new(alloc),
        brackets: Vec::new(alloc),
    };
    short.open()?;
    for at in 0..count {
        short.add(tokens, at)?;
    }
    Ok(short.tokens)
}

/// A sign in place of a token.
fn sign_at<'s>(token: &Token<'s>, symbol: Symbol, line_before: bool) -> Token<'s> {
    Token {
        kind: TokenKind::Symbol(symbol),
        text: b"",
        line_before,
        ..*token
    }
}

impl<'a, 's> Window<'a, 's> {
    /// The window around the token with this index, and where the token is in it. Returns `Memory` if an allocation fails.
    pub fn new(
        alloc: Global,
        all: &'a [Token<'s>],
        at: usize,
    ) -> Result<(Window<'a, 's>, usize), Memory> {
        let mut window = Window {
            all,
            next: 0,
            held: Vec::new(alloc),
            left_out: 0,
        };
        let at = window.move_to(alloc, at)?;
        Ok((window, at))
    }

    /// The tokens that are held.
    pub fn tokens(&self) -> &[Token<'s>] {
        self.held.as_slice()
    }

    /// The index of a token among all that weren't removed.
    pub fn index_of(&self, at: usize) -> usize {
        at.saturating_add(self.left_out)
    }

    /// Whether the tokens that are held go on to the end of the main.
    fn is_last(&self) -> bool {
        self.next >= self.all.len()
    }

    /// Holds more tokens, up to the end of a line, so that enough follow this one.
    fn fill(&mut self, at: usize) -> Result<(), Memory> {
        let enough = at.saturating_add(AHEAD);
        let all = self.all;
        for index in self.next..all.len() {
            let Some(token) = all.get(index) else {
                break;
            };
            let last = self.held.len().saturating_sub(1);
            let is_continued = is_at(self.held.as_slice(), last, Symbol::Comma);
            if self.held.len() > enough && token.line_before && !is_continued {
                break;
            }
            self.held.push(*token)?;
            self.next = index.saturating_add(1);
        }
        Ok(())
    }

    /// Moves the window to the token with this index. Returns its index then.
    fn move_to(&mut self, alloc: Global, at: usize) -> Result<usize, Memory> {
        self.fill(at)?;
        if at <= BEHIND.saturating_add(SLACK) {
            return Ok(at);
        }
        let count = at.saturating_sub(BEHIND);
        let mut short = without_read(alloc, self.held.as_slice(), count)?;
        let left_out = count.saturating_sub(short.len());
        short.extend_from_slice(self.held.as_slice().get(count..).unwrap_or(&[]))?;
        self.held = short;
        self.left_out = self.left_out.saturating_add(left_out);
        Ok(at.saturating_sub(left_out))
    }

    /// The tokens that are held, with brackets that close what is open after the last.
    fn closed(&self, alloc: Global) -> Result<Vec<Token<'s>>, Memory> {
        let held = self.held.as_slice();
        let mut closed = Vec::from_slice(alloc, held)?;
        if !self.is_last()
            && let Some(last) = held.last()
        {
            for _ in open_before(alloc, held, held.len())? {
                closed.push(sign_at(last, Symbol::CloseSection, true))?;
            }
        }
        Ok(closed)
    }

    /// Whether the tokens after this one suffice to judge it.
    fn is_enough(&self, at: usize) -> bool {
        self.is_last() || at.saturating_add(NEAR) <= self.held.len()
    }

    /// Removes the tokens from one index up to another. If `is_separated`, a semicolon takes their place.
    pub fn remove(
        &mut self,
        alloc: Global,
        from: usize,
        to: usize,
        is_separated: bool,
    ) -> Result<(), Memory> {
        let held = self.held.as_slice();
        let mut rest = Vec::from_slice(alloc, held.get(..from).unwrap_or(held))?;
        if is_separated && let Some(token) = held.get(from) {
            rest.push(sign_at(token, Symbol::Semicolon, token.line_before))?;
        }
        rest.extend_from_slice(held.get(to..).unwrap_or(&[]))?;
        self.held = rest;
        Ok(())
    }

    /// What the parser refuses next: the tokens that it was given, and the index of the refused one. `from` is how far it came
    /// before. `None` if it refuses nothing, or something else than a token. Returns `Memory` if an allocation fails.
    pub fn refused(
        &mut self,
        alloc: Global,
        from: usize,
    ) -> Result<Option<(Vec<Token<'s>>, usize)>, Memory> {
        let mut at = from;
        for _ in 0..self.all.len().saturating_add(2) {
            at = self.move_to(alloc, at)?;
            let tokens = self.closed(alloc)?;
            match refused_in(alloc, tokens.as_slice())? {
                Refusal::Token(place) if self.is_enough(place) => {
                    return Ok(Some((tokens, place)));
                }
                Refusal::Token(place) => at = place.min(self.held.len()),
                Refusal::Other(place) if place < self.held.len() => return Ok(None),
                _ if self.is_last() => return Ok(None),
                _ => at = self.held.len(),
            }
        }
        Ok(None)
    }
}
