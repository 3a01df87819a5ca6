//! The names that are in scope at the end of some tokens, also where these can't be parsed yet. It is a guess where a body
//! without section brackets ends: parameters and FOR variables count until the next declaration.

use crate::names::Sort;
use bc_lex_tokens::{Symbol, Token, TokenKind};
use bc_word::Memory;
use std::alloc::Global;

/// A declared name.
#[derive(Clone, Copy)]
pub struct ScannedName {
    /// What it is declared as.
    pub sort: Sort,
    /// The index of its token.
    pub token: usize,
}

/// A section bracket, or a body of a definition or a FOR.
#[derive(Clone, Copy)]
struct Level {
    /// The number of names before it.
    names: usize,
    /// The index of the bracket's token.
    token: usize,
    is_body: bool,
}

/// What the tokens before a point say.
#[derive(Clone, Copy, PartialEq, Eq)]
enum Mode {
    /// Nothing special.
    Plain,
    /// In a list of constants of this sort.
    List(Sort),
    /// After LET or AND.
    Defined,
    /// In the parentheses of a definition.
    Parameters,
}

/// The scan up to here.
#[derive(Drop)]
struct Scan {
    names: Vec<ScannedName>,
    levels: Vec<Level>,
    mode: Mode,
    /// Whether an allocation failed. Then the rest is void.
    is_refused: bool,
}

/// The tag of a section bracket.
fn tag_of<'s>(token: &Token<'s>) -> &'s [u8] {
    token.text.get(2..).unwrap_or(b"")
}

/// Whether the token with this index is this symbol.
pub fn is_symbol(tokens: &[Token<'_>], index: usize, symbol: Symbol) -> bool {
    match tokens.get(index) {
        Some(token) => token.kind == TokenKind::Symbol(symbol),
        None => false,
    }
}

/// The symbol with this index.
pub fn symbol_of(tokens: &[Token<'_>], index: usize) -> Option<Symbol> {
    match tokens.get(index) {
        Some(token) => match token.kind {
            TokenKind::Symbol(symbol) => Some(symbol),
            _ => None,
        },
        None => None,
    }
}

/// The sort of the entries of the list that this word begins.
fn list_sort(symbol: Symbol) -> Option<Sort> {
    match symbol {
        Symbol::Global => Some(Sort::Global),
        Symbol::Manifest => Some(Sort::Constant),
        Symbol::Static => Some(Sort::Static),
        _ => None,
    }
}

impl Scan {
    /// Adds a name.
    fn add(&mut self, token: usize, sort: Sort) {
        if self.names.push(ScannedName { sort, token }).is_err() {
            self.is_refused = true;
        }
    }

    /// Begins a level.
    fn begin(&mut self, token: usize, is_body: bool) {
        let level = Level {
            names: self.names.len(),
            token,
            is_body,
        };
        if self.levels.push(level).is_err() {
            self.is_refused = true;
        }
    }

    /// Ends the newest level.
    fn end(&mut self) {
        if let Some(level) = self.levels.pop() {
            self.names.truncate(level.names);
        }
    }

    /// Ends the bodies around this point, up to the next section bracket.
    fn end_bodies(&mut self) {
        for _each in 0..self.levels.len() {
            match self.levels.last() {
                Some(level) if level.is_body => self.end(),
                _ => return,
            }
        }
    }

    /// Ends the newest section bracket.
    fn end_bracket(&mut self) {
        self.end_bodies();
        self.end();
    }

    /// How many section brackets a closing one with this tag closes.
    fn closed_by(&self, tokens: &[Token<'_>], tag: &[u8]) -> usize {
        let mut count: usize = 0;
        if tag.is_empty() {
            return 1;
        }
        for level in self.levels.iter().rev() {
            if level.is_body {
                continue;
            }
            count = count.saturating_add(1);
            if let Some(token) = tokens.get(level.token)
                && tag_of(token) == tag
            {
                return count;
            }
        }
        1
    }

    /// Passes a closing section bracket.
    fn close(&mut self, tokens: &[Token<'_>], index: usize) {
        let tag = match tokens.get(index) {
            Some(token) => tag_of(token),
            None => b"",
        };
        for _each in 0..self.closed_by(tokens, tag) {
            self.end_bracket();
        }
        self.mode = Mode::Plain;
    }

    /// Passes a symbol.
    fn pass_symbol(&mut self, tokens: &[Token<'_>], index: usize, symbol: Symbol) {
        if let Some(sort) = list_sort(symbol) {
            self.end_bodies();
            self.mode = Mode::List(sort);
            return;
        }
        match symbol {
            Symbol::Let | Symbol::And => {
                self.end_bodies();
                self.mode = Mode::Defined;
            }
            Symbol::OpenSection => {
                if !matches!(self.mode, Mode::List(_)) {
                    self.mode = Mode::Plain;
                }
                self.open(index);
            }
            Symbol::CloseSection => self.close(tokens, index),
            Symbol::CloseBracket if self.mode == Mode::Parameters => self.mode = Mode::Plain,
            Symbol::Equal | Symbol::Be if self.mode == Mode::Defined => self.mode = Mode::Plain,
            _ => {}
        }
    }

    /// Passes an opening section bracket. That of a list of constants begins no scope.
    fn open(&mut self, index: usize) {
        if !matches!(self.mode, Mode::List(_)) {
            self.begin(index, false);
        }
    }

    /// Passes a name in a list of constants.
    fn pass_entry(&mut self, tokens: &[Token<'_>], index: usize, sort: Sort) {
        let next = index.saturating_add(1);
        if is_symbol(tokens, next, Symbol::Colon) || is_symbol(tokens, next, Symbol::Equal) {
            self.add(index, sort);
        }
    }

    /// Passes a name after LET or AND.
    fn pass_defined(&mut self, tokens: &[Token<'_>], index: usize) {
        if !is_symbol(tokens, index.saturating_add(1), Symbol::OpenBracket) {
            let sort = if is_symbol(tokens, index.saturating_add(2), Symbol::Vector) {
                Sort::Vector
            } else {
                Sort::Variable
            };
            return self.add(index, sort);
        }
        self.add(index, Sort::Routine);
        self.begin(index, true);
        self.mode = Mode::Parameters;
    }

    /// Passes a name elsewhere.
    fn pass_plain(&mut self, tokens: &[Token<'_>], index: usize) {
        let before = index.checked_sub(1);
        let is_counter = match before {
            Some(before) => is_symbol(tokens, before, Symbol::For),
            None => false,
        };
        if is_counter {
            self.begin(index, true);
            self.add(index, Sort::Counter);
        } else if is_symbol(tokens, index.saturating_add(1), Symbol::Colon) {
            self.add(index, Sort::Label);
        }
    }

    /// Passes a name.
    fn pass_name(&mut self, tokens: &[Token<'_>], index: usize) {
        match self.mode {
            Mode::Plain => self.pass_plain(tokens, index),
            Mode::List(sort) => self.pass_entry(tokens, index, sort),
            Mode::Defined => self.pass_defined(tokens, index),
            Mode::Parameters => self.add(index, Sort::Parameter),
        }
    }

    /// Passes a token.
    fn pass(&mut self, tokens: &[Token<'_>], index: usize, kind: TokenKind<'_>) {
        match kind {
            TokenKind::Symbol(symbol) => self.pass_symbol(tokens, index, symbol),
            TokenKind::Name(_) => self.pass_name(tokens, index),
            _ => {}
        }
    }
}

/// The names in scope at the end of these tokens, the outermost first. Returns `Memory` if an allocation fails.
pub fn names_at_end(alloc: Global, tokens: &[Token<'_>]) -> Result<Vec<ScannedName>, Memory> {
    let mut scan = Scan {
        names: Vec::new(alloc),
        levels: Vec::new(alloc),
        mode: Mode::Plain,
        is_refused: false,
    };
    for (index, token) in tokens.iter().enumerate() {
        scan.pass(tokens, index, token.kind);
    }
    if scan.is_refused {
        return Err(Memory);
    }
    Ok(scan.names)
}

/// The parameters after the name with this index, as they are written; empty if no parenthesis follows it.
pub fn parameters_after<'t>(tokens: &[Token<'_>], index: usize, text: &'t [u8]) -> &'t [u8] {
    let open = index.saturating_add(1);
    let Some(first) = tokens.get(open) else {
        return b"";
    };
    if first.kind != TokenKind::Symbol(Symbol::OpenBracket) {
        return b"";
    }
    for token in tokens.iter().skip(open) {
        if token.kind == TokenKind::Symbol(Symbol::CloseBracket) {
            return text.get(first.end..token.start).unwrap_or(b"");
        }
    }
    b""
}
