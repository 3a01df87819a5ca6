//! The listing `tokens`: the tokens of a source, one per line.
use crate::lines::{Files, Lines};
use crate::page::{Field, Page};
use bc_lex_tokens::{Symbol, Token, TokenKind};
use bc_parse_defs::close;
use bc_parse_tree::Part;
use bc_word::Memory;
use bcpl_places::ColumnCounter;
use std::alloc::Global;

/// The column of a token's kind.
const KIND: usize = 12;

/// The column of a token's text.
const TEXT: usize = 24;

/// The column of a token's value.
const VALUE: usize = 40;

/// The kind of a token, as a word.
fn kind_word(token: &Token<'_>) -> &'static str {
    match token.kind {
        TokenKind::Symbol(_) => match token.text.first() {
            Some(byte) if byte.is_ascii_alphabetic() => "word",
            _ => "sign",
        },
        TokenKind::Name(_) => "name",
        TokenKind::Number(_) => "number",
        TokenKind::Character(_) => "character",
        TokenKind::String(_) => "string",
    }
}

/// Adds the value of a token.
fn add_value(page: &mut Page, number: u64) {
    page.add_all(&[
        Field::Column(VALUE),
        Field::Text("  = "),
        Field::Number(number, 0),
    ]);
}

/// Adds the main spelling of a symbol, if the source spells it differently. The tag of a bracket belongs to its text.
fn add_symbol(page: &mut Page, symbol: Symbol, text: &[u8]) {
    let spelling = symbol.spelling();
    if spelling == text || matches!(symbol, Symbol::OpenSection | Symbol::CloseSection) {
        return;
    }
    page.fill_to(VALUE);
    page.add(b"  as ");
    page.add(spelling);
}

/// Adds the value of a number, if the source doesn't write it in decimal.
fn add_written(page: &mut Page, number: u16, text: &[u8]) {
    let Ok(digits) = format!(in page.alloc(); "{number}") else {
        return page.refuse();
    };
    if digits.as_bytes() != text {
        add_value(page, u64::from(number));
    }
}

/// Adds the value of a token, if its text doesn't show it.
fn add_meaning(page: &mut Page, token: &Token<'_>) {
    match token.kind {
        TokenKind::Number(number) => add_written(page, number, token.text),
        TokenKind::Character(code) => add_value(page, u64::from(code)),
        TokenKind::Symbol(symbol) => add_symbol(page, symbol, token.text),
        TokenKind::Name(_) | TokenKind::String(_) => {}
    }
}

/// Adds the line of a token.
fn add_token(
    page: &mut Page,
    text: &[u8],
    lines: &Lines,
    columns: &mut ColumnCounter,
    token: &Token<'_>,
) {
    let column = lines.column_of(columns, text, token);
    page.add_all(&[
        Field::Number(lines.number_at(token.start) as u64, 5),
        Field::Text(":"),
        Field::Number(column as u64, 0),
        Field::Column(KIND),
        Field::Text(kind_word(token)),
        Field::Column(TEXT),
    ]);
    page.add_folded(token.text, TEXT);
    add_meaning(page, token);
    page.end_line();
}

/// The indexes of the tokens before which a line break counts as a semicolon; none if the section brackets don't
/// match.
fn broken(alloc: Global, tokens: &[Token<'_>]) -> Result<Vec<usize>, Memory> {
    let mut places = Vec::new(alloc);
    if let Ok(closed) = close(alloc, tokens) {
        for (part, place) in closed.parts.iter().zip(&closed.places) {
            if matches!(part, Part::NewLine) {
                places.push(*place)?;
            }
        }
    }
    Ok(places)
}

/// Consecutive tokens from another file.
#[derive(Clone, Copy)]
struct Elsewhere<'a> {
    path: &'a str,
    count: u64,
}

impl<'a> Elsewhere<'a> {
    /// Adds a line with the number of these tokens, if there are any.
    fn add(self, page: &mut Page) {
        let tokens = match self.count {
            0 => return,
            1 => " token of ",
            _ => " tokens of ",
        };
        page.add_line(&[
            Field::Column(KIND),
            Field::Text("GET"),
            Field::Column(TEXT),
            Field::Number(self.count, 0),
            Field::Text(tokens),
            Field::Text(self.path),
        ]);
    }

    /// Adds a token of the file with this path. If that is a different file, lists the tokens so far.
    fn with(self, page: &mut Page, path: &'a str) -> Elsewhere<'a> {
        if self.path == path {
            return Elsewhere {
                path,
                count: self.count.saturating_add(1),
            };
        }
        self.add(page);
        Elsewhere { path, count: 1 }
    }
}

/// Adds a line for a line break that counts as a semicolon.
fn add_break(page: &mut Page) {
    page.add_line(&[Field::Column(KIND), Field::Text("line break  ;")]);
}

/// The listing `tokens` of the source `main`: one token per line, with its place, and a line for each line break that
/// counts as a semicolon. Tokens from other files are only counted. `Memory` if an allocation fails.
pub fn token_listing(
    alloc: Global,
    files: Files<'_, '_>,
    main: usize,
    tokens: &[Token<'_>],
) -> Result<Vec<u8>, Memory> {
    let text = files.text(main);
    let lines = Lines::new(alloc, text)?;
    let breaks = broken(alloc, tokens)?;
    let mut page = Page::new(alloc);
    let nowhere = Elsewhere { path: "", count: 0 };
    let mut elsewhere = nowhere;
    let mut columns = ColumnCounter::new();
    for (at, token) in tokens.iter().enumerate() {
        if token.file != main {
            elsewhere = elsewhere.with(&mut page, files.path(token.file));
        } else {
            elsewhere.add(&mut page);
            elsewhere = nowhere;
            if breaks.as_slice().binary_search(&at).is_ok() {
                add_break(&mut page);
            }
            add_token(&mut page, text, &lines, &mut columns, token);
        }
    }
    elsewhere.add(&mut page);
    page.into_text()
}
