//! How the text of a main is changed where the scopes have a fault, so that the rest can be checked. What is written is as
//! long as what it replaces, so that all other places stay as they are.

use crate::blanking::blank;
use bc_build::ScopeFault;
use bc_lex_tokens::{Symbol, Token};
use bc_scope_places::Span as TokenSpan;
use bcpl_messages::{is_at, symbol_at};

/// What is written.
#[derive(Clone, Copy)]
pub enum Repair {
    /// Nothing but blanks.
    Nothing,
    /// A number.
    Number,
    /// An expression that has a cell.
    Cell,
    /// An assignment of the value that follows.
    Assignment,
    /// A block without commands.
    Block,
    /// A name that begins with this letter, and goes on with nines.
    Name(u8),
}

/// What is written where, in bytes of the main's text.
#[derive(Clone, Copy)]
pub struct Mending {
    pub repair: Repair,
    pub start: usize,
    pub end: usize,
}

/// A number with at most this many digits. It is a lawful number of a global, and few sources have a CASE for it.
fn number_with(digits: usize) -> &'static [u8] {
    match digits {
        0 => b"",
        1 => b"7",
        2 => b"97",
        _ => b"509",
    }
}

/// Writes these bytes over a text, but not over a line break or the end. Returns whether all were written.
fn put(text: &mut [u8], at: usize, bytes: &[u8]) -> bool {
    for (count, byte) in bytes.iter().enumerate() {
        let Some(place) = text.get_mut(at.saturating_add(count)) else {
            return false;
        };
        if *place == b'\n' {
            return false;
        }
        *place = *byte;
    }
    true
}

/// Writes a name that begins with this letter.
fn put_name(text: &mut [u8], start: usize, end: usize, letter: u8) -> bool {
    for at in start..end {
        if !put(text, at, b"9") {
            return false;
        }
    }
    put(text, start, &[letter])
}

/// Changes the text of a main. Returns whether there was room.
pub fn mend(text: &mut [u8], mending: Mending) -> bool {
    let Mending { repair, start, end } = mending;
    blank(text, start, end);
    match repair {
        Repair::Nothing => true,
        Repair::Number => put(text, start, number_with(end.saturating_sub(start))),
        Repair::Cell => put(text, start, b"!0"),
        Repair::Assignment => put(text, start, b"!0:="),
        Repair::Block => put(text, start, b"$(") && put(text, end.saturating_sub(2), b"$)"),
        Repair::Name(letter) => put_name(text, start, end, letter),
    }
}

/// A main's tokens.
#[derive(Clone, Copy)]
pub struct Tokens<'t, 's> {
    /// The tokens, with those of the files that the main gets.
    pub all: &'t [Token<'s>],
    /// The index of the main.
    pub main: usize,
}

/// The letters with which a name may begin that is used nowhere.
const LETTERS: &[u8] = b"ZYXWVUTSRQPONMLKJIHGFEDCBAzyxwvutsrqponmlkjihgfedcba";

/// Whether a name begins with this letter and goes on with nines.
fn is_with_nines(name: &[u8], letter: u8) -> bool {
    for (count, byte) in name.iter().enumerate() {
        let wanted = if count == 0 { letter } else { b'9' };
        if *byte != wanted {
            return false;
        }
    }
    true
}

/// Whether a symbol ends an expression that comes before it.
fn is_closing(symbol: Symbol) -> bool {
    matches!(
        symbol,
        Symbol::Semicolon
            | Symbol::CloseSection
            | Symbol::CloseBracket
            | Symbol::Else
            | Symbol::Repeat
            | Symbol::RepeatWhile
            | Symbol::RepeatUntil
            | Symbol::Let
            | Symbol::And
            | Symbol::Manifest
            | Symbol::Static
            | Symbol::Global
    )
}

/// Whether a symbol is in no constant of a CASE.
fn is_no_constant(symbol: Symbol) -> bool {
    matches!(
        symbol,
        Symbol::Colon
            | Symbol::Semicolon
            | Symbol::OpenSection
            | Symbol::CloseSection
            | Symbol::Assign
            | Symbol::Do
            | Symbol::Let
            | Symbol::And
    )
}

/// Whether a place to which something is assigned may follow a symbol.
fn is_before_place(symbol: Symbol) -> bool {
    matches!(
        symbol,
        Symbol::OpenSection
            | Symbol::Semicolon
            | Symbol::Colon
            | Symbol::Comma
            | Symbol::Do
            | Symbol::Else
            | Symbol::Be
            | Symbol::ValueOf
    )
}

impl Tokens<'_, '_> {
    /// The change of a stretch of tokens; `None` if they aren't all in the main.
    fn change(self, repair: Repair, first: usize, last: usize) -> Option<Mending> {
        let first = self.all.get(first)?;
        let last = self.all.get(last)?;
        if first.file != self.main || last.file != self.main || first.start >= last.end {
            return None;
        }
        Some(Mending {
            repair,
            start: first.start,
            end: last.end,
        })
    }

    /// Whether the token with this index is the first one in its line.
    fn begins_line(self, at: usize) -> bool {
        match self.all.get(at) {
            Some(token) => token.line_before,
            None => true,
        }
    }

    /// Whether the token with this index can end an expression.
    fn can_end(self, at: usize) -> bool {
        match symbol_at(self.all, at) {
            Some(symbol) => matches!(
                symbol,
                Symbol::CloseBracket | Symbol::CloseSection | Symbol::True | Symbol::False
            ),
            None => true,
        }
    }

    /// Whether an expression ends before the token with this index.
    fn ends_before(self, at: usize) -> bool {
        match symbol_at(self.all, at) {
            Some(symbol) if is_closing(symbol) => true,
            _ => self.begins_line(at) && self.can_end(at.saturating_sub(1)),
        }
    }

    /// The token after the expressions that begin at this index.
    fn end_of_expressions(self, from: usize) -> usize {
        let mut inside: usize = 0;
        let mut end = from;
        for _ in from..self.all.len() {
            if end > from && inside == 0 && self.ends_before(end) {
                break;
            }
            match symbol_at(self.all, end) {
                Some(Symbol::OpenSection | Symbol::OpenBracket) => {
                    inside = inside.saturating_add(1);
                }
                Some(Symbol::CloseSection | Symbol::CloseBracket) => {
                    inside = inside.saturating_sub(1);
                }
                _ => {}
            }
            end = end.saturating_add(1);
        }
        end
    }

    /// The CASE in whose constant the token with this index is.
    fn case_of(self, at: usize) -> Option<usize> {
        let mut index = at;
        for _ in 0..at {
            index = index.saturating_sub(1);
            match symbol_at(self.all, index) {
                Some(Symbol::Case) => return Some(index),
                Some(symbol) if is_no_constant(symbol) => return None,
                _ => {}
            }
        }
        None
    }

    /// The change that removes the CASE or the DEFAULT with this index, up to its colon.
    fn without_label(self, label: usize) -> Option<Mending> {
        for at in label..self.all.len() {
            if is_at(self.all, at, Symbol::Colon) {
                return self.change(Repair::Nothing, label, at);
            }
        }
        None
    }

    /// The change of an expression to one that has a cell; `None` if there is no room.
    fn cell(self, at: TokenSpan) -> Option<Mending> {
        let found = self.change(Repair::Cell, at.first, at.last)?;
        let end = match self.all.get(at.last.saturating_add(1)) {
            Some(token) if token.file == self.main && !token.line_before => token.start,
            _ => found.end,
        };
        if end.saturating_sub(found.start) < 2 {
            None
        } else {
            Some(Mending { end, ..found })
        }
    }

    /// The change that removes an assignment to one place.
    fn assignment(self, at: TokenSpan) -> Option<Mending> {
        let sign = at.last.saturating_add(1);
        let is_second = is_at(self.all, at.first.saturating_sub(1), Symbol::Comma);
        if is_second || !is_at(self.all, sign, Symbol::Assign) {
            return None;
        }
        let end = self.end_of_expressions(sign.saturating_add(1));
        self.change(Repair::Block, at.first, end.saturating_sub(1))
    }

    /// The change of a place to which something is assigned.
    fn place(self, at: TokenSpan) -> Option<Mending> {
        match self.cell(at) {
            Some(found) => Some(found),
            None => self.assignment(at),
        }
    }

    /// Whether something may be assigned to the name with this index. If it is one of several arguments, it is in a list like
    /// that of an assignment.
    fn may_be_place(self, at: usize) -> bool {
        let following = at.saturating_add(1);
        let is_before = self.begins_line(at)
            || symbol_at(self.all, at.saturating_sub(1)).is_some_and(|symbol| is_before_place(
                symbol,
            ));
        is_before
            && (is_at(self.all, following, Symbol::Assign)
                || is_at(self.all, following, Symbol::Comma))
    }

    /// The change of a name that may be a place, or else a value.
    fn place_or_value(self, at: usize) -> Option<Mending> {
        let one = TokenSpan {
            first: at,
            last: at,
        };
        match self.place(one) {
            Some(found) => Some(found),
            None if is_at(self.all, at.saturating_add(1), Symbol::Assign) => None,
            None => self.change(Repair::Number, at, at),
        }
    }

    /// The change of the use of a name, after which it needs no declaration.
    pub fn used(self, at: usize) -> Option<Mending> {
        let before = at.saturating_sub(1);
        if is_at(self.all, before, Symbol::Goto) {
            self.change(Repair::Block, before, at)
        } else if is_at(self.all, before, Symbol::AddressOf) {
            self.change(Repair::Number, before, at)
        } else if let Some(label) = self.case_of(at) {
            self.without_label(label)
        } else if self.may_be_place(at) {
            self.place_or_value(at)
        } else {
            self.change(Repair::Number, at, at)
        }
    }

    /// Whether a token is the name of this length that begins with this letter and goes on with nines.
    fn is_taken(self, length: usize, letter: u8) -> bool {
        for token in self.all {
            if token.text.len() == length && is_with_nines(token.text, letter) {
                return true;
            }
        }
        false
    }

    /// The change of a name to one that is used nowhere.
    fn renamed(self, at: usize) -> Option<Mending> {
        let length = self.all.get(at)?.text.len();
        for letter in LETTERS {
            if !self.is_taken(length, *letter) {
                return self.change(Repair::Name(*letter), at, at);
            }
        }
        None
    }

    /// The change of an expression that must be a constant.
    fn constant(self, at: TokenSpan) -> Option<Mending> {
        match self.case_of(at.first) {
            Some(label) => self.without_label(label),
            None => self.change(Repair::Number, at.first, at.last),
        }
    }

    /// The change of the number of a global.
    fn global_number(self, at: usize) -> Option<Mending> {
        let from = at.saturating_add(2);
        let end = self.end_of_expressions(from);
        self.change(Repair::Number, from, end.saturating_sub(1))
    }

    /// The change of an expression that has no cell.
    fn address(self, at: TokenSpan) -> Option<Mending> {
        let before = at.first.saturating_sub(1);
        if is_at(self.all, before, Symbol::AddressOf) {
            self.change(Repair::Number, before, at.last)
        } else {
            self.place(at)
        }
    }

    /// The change that removes a definition of variables with these names.
    fn without_variables(self, at: TokenSpan) -> Option<Mending> {
        let before = at.first.saturating_sub(1);
        let end = self.end_of_expressions(at.last.saturating_add(2));
        if is_at(self.all, end, Symbol::And) && is_at(self.all, before, Symbol::Let) {
            self.change(Repair::Nothing, at.first, end)
        } else {
            self.change(Repair::Nothing, before, end.saturating_sub(1))
        }
    }

    /// The change of names that are misplaced.
    fn misplaced_name(self, at: TokenSpan) -> Option<Mending> {
        match symbol_at(self.all, at.first.saturating_sub(1)) {
            Some(Symbol::Let | Symbol::And) => self.without_variables(at),
            _ => self.used(at.first),
        }
    }

    /// The change of what is misplaced.
    fn misplaced(self, at: TokenSpan) -> Option<Mending> {
        match symbol_at(self.all, at.first) {
            Some(Symbol::Break | Symbol::Loop | Symbol::EndCase | Symbol::Return) => {
                self.change(Repair::Block, at.first, at.first)
            }
            Some(Symbol::ResultIs) => self.change(Repair::Assignment, at.first, at.first),
            Some(Symbol::Case | Symbol::Default) => self.without_label(at.first),
            Some(_) => None,
            None => self.misplaced_name(at),
        }
    }

    /// The change after which a fault at these tokens is gone; `None` if it isn't plain which.
    pub fn change_for(self, fault: &ScopeFault, at: TokenSpan) -> Option<Mending> {
        match fault {
            ScopeFault::Undeclared(_) | ScopeFault::DynamicFree(_) => self.used(at.first),
            ScopeFault::DeclaredTwice(_) => self.renamed(at.first),
            ScopeFault::NotConstant => self.constant(at),
            ScopeFault::GlobalNumber(_) => self.global_number(at.first),
            ScopeFault::NotAssignable => self.address(at),
            ScopeFault::CaseTwice => self.without_label(at.first),
            ScopeFault::Misplaced => self.misplaced(at),
            ScopeFault::FrameTooLarge | ScopeFault::TooManyPlaces | ScopeFault::Memory => None,
        }
    }
}
