//! The listing `source`: the canonical spelling of a section, laid out in lines.
use crate::lines::Files;
use crate::page::{Field, Page, WIDTH, width};
use bc_lex_tokens::{Symbol, Token, TokenKind};
use bc_parse_defs::is_symbol_end;
use bc_parse_tree::{is_leaf, leaves_of, render};
use bc_word::Memory;
use bcpl_places::way_to;
use std::alloc::Global;

/// The layout of a section while it is written.
#[derive(Drop)]
struct Layout<'p, 's> {
    page: Page,
    files: Files<'p, 's>,
    /// The leaves of the section.
    leaves: Vec<Token<'s>>,
    /// The number of leaves met so far.
    met: usize,
    /// The file of the current declaration.
    file: usize,
    /// Whether that file belongs to the library, so that it is listed as a GET.
    is_got: bool,
    /// The number of GETs listed for it.
    gets: usize,
    /// The file whose path was listed last; at first the source itself.
    told: usize,
    /// For each open section bracket, whether it is that of a list of globals.
    opened: Vec<bool>,
    /// Whether the next token begins a line.
    breaks: bool,
}

/// A run of leaves from the same file.
#[derive(Clone, Copy)]
struct Run {
    /// How many times its first leaf occurs: how often the file was read.
    count: usize,
    /// The file after the run, if any.
    following: Option<usize>,
}

/// The symbol of a token, if it is one.
fn symbol_of(kind: Option<&TokenKind<'_>>) -> Option<Symbol> {
    match kind {
        Some(TokenKind::Symbol(symbol)) => Some(*symbol),
        _ => None,
    }
}

/// Whether a token is this symbol.
fn is(kind: Option<&TokenKind<'_>>, wanted: Symbol) -> bool {
    match symbol_of(kind) {
        Some(symbol) => symbol.is(wanted),
        None => false,
    }
}

/// Whether a token begins a declaration.
fn is_declaration(kind: Option<&TokenKind<'_>>) -> bool {
    match symbol_of(kind) {
        Some(symbol) => matches!(
            symbol,
            Symbol::Let | Symbol::Manifest | Symbol::Static | Symbol::Global
        ),
        None => false,
    }
}

/// Whether a token can end an operand, so that an operator after it takes two.
fn is_operand_end(kind: Option<&TokenKind<'_>>) -> bool {
    match symbol_of(kind) {
        Some(symbol) => matches!(
            symbol,
            Symbol::True | Symbol::False | Symbol::CloseBracket | Symbol::CloseSection
        ),
        None => kind.is_some(),
    }
}

/// Whether a line may be broken after a token, because no line break there counts as a semicolon.
fn is_foldable(kind: Option<&TokenKind<'_>>) -> bool {
    match symbol_of(kind) {
        Some(symbol) => !is_symbol_end(symbol),
        None => false,
    }
}

/// Whether no blank follows a token, which comes after `earlier`: so it is for an opening bracket and a prefix
/// operator.
fn is_close_after(earlier: Option<&TokenKind<'_>>, kind: Option<&TokenKind<'_>>) -> bool {
    match symbol_of(kind) {
        Some(symbol) => match symbol {
            Symbol::OpenBracket | Symbol::AddressOf => true,
            Symbol::Minus | Symbol::Indirection => !is_operand_end(earlier),
            _ => false,
        },
        None => false,
    }
}

/// Whether no blank precedes a token, which comes after `last`.
fn is_close_before(last: Option<&TokenKind<'_>>, kind: Option<&TokenKind<'_>>) -> bool {
    match symbol_of(kind) {
        Some(symbol) => match symbol {
            Symbol::CloseBracket | Symbol::Comma | Symbol::Semicolon => true,
            Symbol::OpenBracket => {
                matches!(last, Some(TokenKind::Name(_))) || is(last, Symbol::CloseBracket)
            }
            _ => false,
        },
        None => false,
    }
}

/// The token at this index, if there is one.
fn at<'k, 's>(kinds: &'k [TokenKind<'s>], place: usize) -> Option<&'k TokenKind<'s>> {
    kinds.get(place)
}

/// The token `back` positions before this index, if there is one.
fn before<'k, 's>(
    kinds: &'k [TokenKind<'s>],
    place: usize,
    back: usize,
) -> Option<&'k TokenKind<'s>> {
    match place.checked_sub(back) {
        Some(place) => kinds.get(place),
        None => None,
    }
}

/// The smallest number of columns of the tokens that follow the token at this index without a blank.
fn glued(kinds: &[TokenKind<'_>], place: usize) -> usize {
    let mut count: usize = 0;
    for next in place.saturating_add(1)..kinds.len() {
        let last = before(kinds, next, 1);
        if !is_close_after(before(kinds, next, 2), last)
            && !is_close_before(last, at(kinds, next))
        {
            return count;
        }
        count = count.saturating_add(1);
    }
    count
}

impl Layout<'_, '_> {
    /// Whether the library's file `by` reads this file by GETs.
    fn is_got_by(&mut self, file: usize, by: usize) -> bool {
        if !self.files.is_of_library(by) {
            return false;
        }
        match way_to(self.page.alloc(), self.files.sources, by, file) {
            Ok(way) => !way.is_empty(),
            Err(_) => {
                self.page.refuse();
                false
            }
        }
    }

    /// The run of leaves of this file that begins here.
    fn run_ahead(&self, file: usize) -> Run {
        let mut run = Run {
            count: 0,
            following: None,
        };
        let Some(first) = self.leaves.get(self.met) else {
            return run;
        };
        for place in self.met..self.leaves.len() {
            match self.leaves.get(place) {
                Some(leaf) if leaf.file != file => {
                    run.following = Some(leaf.file);
                    return run;
                }
                Some(leaf) if leaf.start == first.start => run.count = run.count.saturating_add(1),
                Some(_) | None => {}
            }
        }
        run
    }

    /// The number of GETs for the leaves of this file that begin here. A file of the library has one for each time it
    /// was read, except for one by the library's next file. Other files have none.
    fn gets_ahead(&mut self, file: usize) -> usize {
        if !self.files.is_of_library(file) {
            return 0;
        }
        let run = self.run_ahead(file);
        let is_got_by_it = match run.following {
            Some(by) => self.is_got_by(file, by),
            None => false,
        };
        run.count.saturating_sub(usize::from(is_got_by_it))
    }

    /// Lists the file of a declaration if it differs from that of the previous one: as GETs for a file of the
    /// library, and as a comment for another file, unless that was listed last.
    fn tell_file(&mut self) {
        let file = match self.leaves.get(self.met) {
            Some(leaf) => leaf.file,
            None => self.file,
        };
        if file == self.file {
            return;
        }
        if self.gets > 0 {
            self.page.end_line();
        }
        self.file = file;
        self.is_got = self.files.is_of_library(file);
        self.gets = self.gets_ahead(file);
        let path = self.files.path(file);
        self.tell_path(path);
    }

    /// Lists the path of the current file.
    fn tell_path(&mut self, path: &str) {
        if self.is_got {
            let fields = [Field::Text("GET \""), Field::Text(path), Field::Text("\"")];
            for _ in 0..self.gets {
                self.page.add_line(&fields);
            }
        } else if self.file != self.told {
            self.told = self.file;
            self.page.add_line(&[Field::Text("// "), Field::Text(path)]);
        }
    }

    /// The number of open section brackets.
    fn depth(&self) -> usize {
        self.opened.len()
    }

    /// Whether the layout is inside a list of globals.
    fn is_in_globals(&self) -> bool {
        match self.opened.last() {
            Some(is_globals) => *is_globals,
            None => false,
        }
    }

    /// Whether the token at this index begins a label.
    fn is_label(&self, kinds: &[TokenKind<'_>], place: usize) -> bool {
        match at(kinds, place) {
            Some(TokenKind::Symbol(symbol)) => matches!(symbol, Symbol::Case | Symbol::Default),
            Some(TokenKind::Name(_)) => self.is_colon_of_label(kinds, place.saturating_add(1)),
            _ => false,
        }
    }

    /// Begins the line of the token at this index. Labels are indented one step less.
    fn begin_line(&mut self, kinds: &[TokenKind<'_>], place: usize) {
        let is_out = self.is_label(kinds, place);
        let depth = self.depth().saturating_sub(usize::from(is_out));
        self.page.end_begun();
        self.breaks = false;
        if self.opened.is_empty() && is_declaration(at(kinds, place)) {
            self.tell_file();
        }
        if !self.is_got {
            self.page.fill_to(depth.saturating_mul(2));
        }
    }

    /// Adds what precedes a token of this many columns: a blank, a new line, or nothing.
    fn part(&mut self, kinds: &[TokenKind<'_>], place: usize, columns: usize) {
        if place == 0 || self.breaks {
            return self.begin_line(kinds, place);
        }
        let last = before(kinds, place, 1);
        if self.is_got
            || is_close_before(last, at(kinds, place))
            || self.is_colon_of_label(kinds, place)
        {
            return;
        }
        let is_close = is_close_after(before(kinds, place, 2), last);
        if is_close && !is(last, Symbol::OpenBracket) {
            return;
        }
        let columns = columns.saturating_add(glued(kinds, place));
        let following = self.page.column().saturating_add(columns).saturating_add(1);
        if following > WIDTH && is_foldable(last) {
            let column = self.depth().saturating_mul(2).saturating_add(4);
            return self.page.go_on(column);
        }
        self.page.add_text(if is_close { "" } else { " " });
    }

    /// Whether the token at this index is the colon of a label.
    fn is_colon_of_label(&self, kinds: &[TokenKind<'_>], place: usize) -> bool {
        is(at(kinds, place), Symbol::Colon) && !self.is_in_globals()
    }

    /// Updates the layout before a token that closes something.
    fn close(&mut self, kinds: &[TokenKind<'_>], place: usize) {
        if is(at(kinds, place), Symbol::CloseSection) {
            let _opened = self.opened.pop();
            self.breaks = !is(before(kinds, place, 1), Symbol::OpenSection);
        } else if is(at(kinds, place), Symbol::And) {
            self.breaks = true;
        }
    }

    /// Updates the layout after a token that opens or ends something.
    fn open(&mut self, kinds: &[TokenKind<'_>], place: usize) {
        let kind = at(kinds, place);
        if is(kind, Symbol::OpenSection) {
            self.breaks = true;
            self.open_section(is(before(kinds, place, 1), Symbol::Global));
        } else if is(kind, Symbol::Semicolon) {
            self.breaks = true;
            self.end_declaration();
        } else if is(kind, Symbol::Colon) {
            self.breaks = !self.is_in_globals();
        }
    }

    /// Opens a section bracket.
    fn open_section(&mut self, is_of_globals: bool) {
        if self.opened.push(is_of_globals).is_err() {
            self.page.refuse();
        }
    }

    /// Adds an empty line after a declaration outside all brackets.
    fn end_declaration(&mut self) {
        if !self.is_got && self.opened.is_empty() {
            self.page.end_line();
            self.page.end_line();
        }
    }

    /// Adds the token at this index, with this text.
    fn add(&mut self, kinds: &[TokenKind<'_>], place: usize, text: &[u8]) {
        self.close(kinds, place);
        self.part(kinds, place, width(text));
        if !self.is_got {
            self.page.add(text);
        }
        self.open(kinds, place);
    }

    /// Adds the token at this index, which is of this kind.
    fn add_kind(&mut self, kinds: &[TokenKind<'_>], place: usize, kind: TokenKind<'_>) {
        match render(self.page.alloc(), &[kind]) {
            Ok(text) => self.add(kinds, place, text.as_slice()),
            Err(_) => self.page.refuse(),
        }
        if is_leaf(kind) {
            self.met = self.met.saturating_add(1);
        }
    }

    /// Adds all tokens, and ends the last line.
    fn add_all(&mut self, kinds: &[TokenKind<'_>]) {
        for (place, kind) in kinds.iter().enumerate() {
            self.add_kind(kinds, place, *kind);
        }
        if !kinds.is_empty() && !self.is_got {
            self.page.end_line();
        }
    }
}

/// The listing `source` of the source `main`: its canonical spelling, one construct per line, indented by section
/// brackets. Comments mark declarations from another file; those from a file of the library appear as GETs. `Memory`
/// if an allocation fails.
pub fn source_listing<'s>(
    alloc: Global,
    files: Files<'_, 's>,
    main: usize,
    tokens: &[Token<'s>],
    kinds: &[TokenKind<'s>],
) -> Result<Vec<u8>, Memory> {
    let leaves = leaves_of(alloc, tokens)?;
    let mut layout = Layout {
        page: Page::new(alloc),
        files,
        leaves,
        met: 0,
        file: main,
        is_got: false,
        gets: 0,
        told: main,
        opened: Vec::new(alloc),
        breaks: false,
    };
    layout.add_all(kinds);
    let Layout { page, .. } = layout;
    page.into_text()
}
