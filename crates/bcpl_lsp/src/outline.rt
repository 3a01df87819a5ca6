//! The outline of a source, and what can be folded.

use crate::described::{name_of, noun, shown};
use crate::document::{Document, sources_of, tokens_of};
use crate::json_values::{JsonArray, JsonObject};
use crate::names::{Declared, NONE, Sort};
use crate::positions::line_of;
use crate::scanned::{ScannedName, names_at_end};
use bc_lex_tokens::{Symbol, Token, TokenKind};
use bc_word::Memory;
use serde_json::Value;
use std::alloc::Global;

/// The kind that the protocol has for a symbol of this sort.
fn symbol_kind(sort: Sort) -> u64 {
    match sort {
        Sort::Function | Sort::Routine => 12,
        Sort::Constant => 14,
        Sort::Vector => 18,
        Sort::Label => 20,
        _ => 13,
    }
}

/// Whether a declaration is listed in the outline.
fn is_listed(declared: Declared) -> bool {
    let is_routine = matches!(declared.sort, Sort::Function | Sort::Routine);
    let is_local = declared.routine != NONE;
    let is_static = matches!(declared.sort, Sort::Constant | Sort::Static | Sort::Global);
    declared.file == 0 && (is_routine || is_static || !is_local)
}

/// A symbol of the outline.
fn symbol(
    alloc: Global,
    document: &Document,
    declared: Declared,
    children: JsonArray,
) -> Result<Value, Memory> {
    let mut object = JsonObject::new(alloc);
    object.add_text("name", name_of(document, declared));
    object.add_text("detail", noun(declared.sort));
    object.add_number("kind", symbol_kind(declared.sort));
    object.add(
        "range",
        document.range(alloc, declared.start, declared.whole),
    );
    object.add(
        "selectionRange",
        document.range(alloc, declared.start, declared.end),
    );
    object.add("children", children.finish());
    object.finish()
}

/// The symbols that are declared in the routine with this index, but not in one within it.
fn symbols_in(alloc: Global, document: &Document, routine: usize) -> JsonArray {
    let mut list = JsonArray::new(alloc);
    for declared in &document.names.declared {
        if declared.routine == routine && is_listed(*declared) {
            list.add(symbol(alloc, document, *declared, JsonArray::new(alloc)));
        }
    }
    list
}

/// The symbols within the declaration with this index: those of a routine.
fn symbols_within(
    alloc: Global,
    document: &Document,
    index: usize,
    declared: Declared,
) -> JsonArray {
    match declared.sort {
        Sort::Function | Sort::Routine => symbols_in(alloc, document, index),
        _ => JsonArray::new(alloc),
    }
}

/// The symbols of a source that can be parsed.
fn parsed_symbols(alloc: Global, document: &Document) -> Result<Value, Memory> {
    let mut list = JsonArray::new(alloc);
    for (index, declared) in document.names.declared.iter().enumerate() {
        if declared.routine == NONE && is_listed(*declared) {
            let children = symbols_within(alloc, document, index, *declared);
            list.add(symbol(alloc, document, *declared, children));
        }
    }
    list.finish()
}

/// The symbol of a name that was found without parsing.
fn scanned_symbol(
    alloc: Global,
    document: &Document,
    token: &Token<'_>,
    sort: Sort,
) -> Result<Value, Memory> {
    let mut object = JsonObject::new(alloc);
    object.add_text("name", shown(token.text));
    object.add_text("detail", noun(sort));
    object.add_number("kind", symbol_kind(sort));
    object.add("range", document.range(alloc, token.start, token.end));
    object.add(
        "selectionRange",
        document.range(alloc, token.start, token.end),
    );
    object.finish()
}

/// The symbols of a source that can't be parsed.
fn scanned_symbols(alloc: Global, document: &Document) -> Result<Value, Memory> {
    let sources = sources_of(alloc, document.files.as_slice())?;
    let tokens = tokens_of(alloc, sources.as_slice());
    let mut list = JsonArray::new(alloc);
    for scanned in &names_at_end(alloc, tokens.as_slice())? {
        let ScannedName { sort, token } = *scanned;
        if let Some(token) = tokens.get(token)
            && token.file == 0
        {
            list.add(scanned_symbol(alloc, document, token, sort));
        }
    }
    list.finish()
}

/// The answer to `textDocument/documentSymbol`. Returns `Memory` if an allocation fails.
pub fn symbols(alloc: Global, document: &Document) -> Result<Value, Memory> {
    if document.names.is_parsed {
        parsed_symbols(alloc, document)
    } else {
        scanned_symbols(alloc, document)
    }
}

/// The lines from one to another, as a range that can be folded.
fn folding(alloc: Global, first: usize, last: usize) -> Result<Value, Memory> {
    let mut object = JsonObject::new(alloc);
    object.put("startLine", Value::from(first));
    object.put("endLine", Value::from(last));
    object.finish()
}

/// The brackets that are open, by their lines and tags.
#[derive(Clone, Copy)]
struct OpenBracket<'s> {
    line: usize,
    tag: &'s [u8],
}

/// How many brackets a closing one with this tag closes.
fn closed_by(open: &[OpenBracket<'_>], tag: &[u8]) -> usize {
    if tag.is_empty() {
        return 1;
    }
    let mut count: usize = 0;
    for bracket in open.iter().rev() {
        count = count.saturating_add(1);
        if bracket.tag == tag {
            return count;
        }
    }
    1
}

/// Adds what can be folded if a bracket with this tag closes brackets on this line: the lines before it, unless it is a
/// single one.
fn add_closed(
    list: &mut JsonArray,
    alloc: Global,
    open: &mut Vec<OpenBracket<'_>>,
    line: usize,
    tag: &[u8],
) {
    let last = line.saturating_sub(1);
    for _each in 0..closed_by(open.as_slice(), tag) {
        if let Some(bracket) = open.pop()
            && bracket.line < last
        {
            list.add(folding(alloc, bracket.line, last));
        }
    }
}

/// What can be folded in the text with these tokens, whose lines begin at these offsets.
fn foldings_of(alloc: Global, starts: &[usize], tokens: &[Token<'_>]) -> Result<Value, Memory> {
    let mut list = JsonArray::new(alloc);
    let mut open: Vec<OpenBracket<'_>> = Vec::new(alloc);
    for token in tokens {
        if token.file != 0 {
            continue;
        }
        let line = line_of(starts, token.start);
        let tag = token.text.get(2..).unwrap_or(b"");
        if token.kind == TokenKind::Symbol(Symbol::OpenSection) {
            open.push(OpenBracket { line, tag })?;
        } else if token.kind == TokenKind::Symbol(Symbol::CloseSection) {
            add_closed(&mut list, alloc, &mut open, line, tag);
        }
    }
    list.finish()
}

/// The answer to `textDocument/foldingRange`: from each section bracket to the line before its closing one. Returns
/// `Memory` if an allocation fails.
pub fn foldings(alloc: Global, document: &Document) -> Result<Value, Memory> {
    let Some(main) = document.main() else {
        return Ok(Value::Null);
    };
    let sources = sources_of(alloc, document.files.as_slice())?;
    let tokens = tokens_of(alloc, sources.as_slice());
    foldings_of(alloc, main.lines.starts.as_slice(), tokens.as_slice())
}
