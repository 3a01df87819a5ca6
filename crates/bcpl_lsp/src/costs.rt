//! How many words the code of the expression, test or assignment at a place takes.

use crate::described::shown;
use crate::document::{Document, sources_of, tokens_of};
use bc_lex_tokens::{Symbol, Token, TokenKind};
use bc_parse_defs::{is_symbol_beginning, is_symbol_end};
use bc_word::Memory;
use std::alloc::Global;

/// A root of a document, and how many words its code takes.
#[derive(Clone, Copy)]
pub struct Cost {
    /// The offset of the first name, number or word of its value.
    pub value: usize,
    /// That of its address, if it is an assignment.
    pub address: Option<usize>,
    /// The number of words.
    pub words: u64,
}

/// Whether a sign can begin an expression.
fn is_prefix(symbol: Symbol) -> bool {
    matches!(
        symbol,
        Symbol::OpenBracket | Symbol::Minus | Symbol::Indirection | Symbol::AddressOf | Symbol::Not
    )
}

/// Whether a reserved word or a sign can be in an expression that has no brackets around it.
fn is_inside(symbol: Symbol) -> bool {
    matches!(
        symbol,
        Symbol::Equivalent
            | Symbol::NotEquivalent
            | Symbol::LogicalOr
            | Symbol::LogicalAnd
            | Symbol::Not
            | Symbol::Equal
            | Symbol::NotEqual
            | Symbol::Less
            | Symbol::LessEqual
            | Symbol::Greater
            | Symbol::GreaterEqual
            | Symbol::ShiftLeft
            | Symbol::ShiftRight
            | Symbol::Plus
            | Symbol::Minus
            | Symbol::Multiply
            | Symbol::Divide
            | Symbol::Remainder
            | Symbol::Indirection
            | Symbol::AddressOf
            | Symbol::Arrow
            | Symbol::True
            | Symbol::False
    )
}

/// Whether a command can end with a token.
fn is_end(token: &Token<'_>) -> bool {
    match token.kind {
        TokenKind::Symbol(symbol) => is_symbol_end(symbol),
        _ => true,
    }
}

/// Whether a command can begin with a token.
fn is_beginning(token: &Token<'_>) -> bool {
    match token.kind {
        TokenKind::Symbol(symbol) => is_symbol_beginning(symbol),
        _ => true,
    }
}

/// Whether the line break before the token with this index counts as a semicolon.
fn is_broken(tokens: &[Token<'_>], index: usize) -> bool {
    let before = match index.checked_sub(1) {
        Some(before) => tokens.get(before),
        None => None,
    };
    match (before, tokens.get(index)) {
        (Some(before), Some(token)) => token.line_before && is_end(before) && is_beginning(token),
        _ => true,
    }
}

/// Whether the token with this index is a monadic sign or opens parentheses that aren't those of a call.
fn is_monadic(tokens: &[Token<'_>], index: usize) -> bool {
    let is_sign = match tokens.get(index) {
        Some(token) => match token.kind {
            TokenKind::Symbol(symbol) => is_prefix(symbol),
            _ => false,
        },
        None => false,
    };
    let is_after_operand = match index.checked_sub(1) {
        Some(before) => match tokens.get(before) {
            Some(token) => is_end(token),
            None => false,
        },
        None => false,
    };
    is_sign && (!is_after_operand || is_broken(tokens, index))
}

/// What is open in an expression.
#[derive(Clone, Copy)]
struct Inside {
    /// The number of open parentheses.
    depth: usize,
    /// The number of conditional expressions that wait for their comma, outside of parentheses.
    arrows: usize,
}

/// What is open after a symbol; `None` if the expression ends before it.
fn after_symbol(inside: Inside, symbol: Symbol) -> Option<Inside> {
    let Inside { depth, arrows } = inside;
    match symbol {
        Symbol::OpenBracket => Some(Inside {
            depth: depth.saturating_add(1),
            arrows,
        }),
        Symbol::CloseBracket => Some(Inside {
            depth: depth.checked_sub(1)?,
            arrows,
        }),
        Symbol::Comma if depth == 0 => Some(Inside {
            depth,
            arrows: arrows.checked_sub(1)?,
        }),
        Symbol::Arrow if depth == 0 => Some(Inside {
            depth,
            arrows: arrows.saturating_add(1),
        }),
        // A table takes all commas that follow.
        Symbol::Table if depth == 0 => Some(Inside {
            depth,
            arrows: usize::MAX,
        }),
        _ if depth > 0 || is_inside(symbol) => Some(inside),
        _ => None,
    }
}

/// The index after the last token of the expression that begins with the token with this index. `=` ends an address: it comes
/// after the name in LET and FOR, and no address has it outside of parentheses.
fn end_of(tokens: &[Token<'_>], first: usize, is_address: bool) -> usize {
    let mut inside = Inside {
        depth: 0,
        arrows: 0,
    };
    for (index, token) in tokens.iter().enumerate().skip(first) {
        if index > first && inside.depth == 0 && is_broken(tokens, index) {
            return index;
        }
        if let TokenKind::Symbol(symbol) = token.kind {
            if is_address && inside.depth == 0 && symbol == Symbol::Equal {
                return index;
            }
            match after_symbol(inside, symbol) {
                Some(after) => inside = after,
                None => return index,
            }
        }
    }
    tokens.len()
}

/// The stretch of the value or address whose first name, number or word is at this offset.
fn stretch_from(tokens: &[Token<'_>], offset: usize, is_address: bool) -> Option<(usize, usize)> {
    let mut first = tokens.iter().position(|token| token.start == offset)?;
    for _each in 0..first {
        match first.checked_sub(1) {
            Some(before) if is_monadic(tokens, before) => first = before,
            _ => break,
        }
    }
    let last = end_of(tokens, first, is_address).checked_sub(1)?.max(first);
    Some((tokens.get(first)?.start, tokens.get(last)?.end))
}

/// Whether a stretch has this offset.
fn has(stretch: (usize, usize), offset: usize) -> bool {
    stretch.0 <= offset && offset < stretch.1
}

/// The offset that counts for a place: after `:=` that of the value.
fn offset_for(tokens: &[Token<'_>], offset: usize) -> usize {
    for (index, token) in tokens.iter().enumerate() {
        if has((token.start, token.end), offset)
            && token.kind == TokenKind::Symbol(Symbol::Assign)
            && let Some(next) = tokens.get(index.saturating_add(1))
        {
            return next.start;
        }
    }
    offset
}

/// Adds a stretch of the document, with its line breaks as blanks.
fn add_stretch(
    text: &mut String,
    document: &Document,
    stretch: (usize, usize),
) -> Result<(), Memory> {
    let bytes = document.text().get(stretch.0..stretch.1).unwrap_or(b"");
    for (index, word) in shown(bytes).split_whitespace().enumerate() {
        if index > 0 {
            text.push_str(" ")?;
        }
        text.push_str(word)?;
    }
    Ok(())
}

/// A root at its place in a document.
#[derive(Clone, Copy)]
struct PlacedRoot {
    /// The stretch of its address, if it is an assignment.
    address: Option<(usize, usize)>,
    /// That of its value.
    value: (usize, usize),
    /// How many words its code takes.
    words: u64,
}

/// Adds a root as the document has it.
fn add_root(text: &mut String, document: &Document, root: PlacedRoot) -> Result<(), Memory> {
    if let Some(address) = root.address {
        add_stretch(text, document, address)?;
        text.push_str(" := ")?;
    }
    add_stretch(text, document, root.value)
}

/// How many words the code of a root takes.
fn cost_text(alloc: Global, document: &Document, root: PlacedRoot) -> Result<String, Memory> {
    let words = root.words;
    let unit = if words == 1 { "word" } else { "words" };
    let mut text = String::from_str(alloc, "The code of `")?;
    add_root(&mut text, document, root)?;
    write!(text, "` takes {words} {unit}.")?;
    Ok(text)
}

/// The offset at which the part of a root begins that is nearest before this offset, or at it.
fn part_before(cost: &Cost, offset: usize) -> Option<usize> {
    let value = if cost.value <= offset {
        Some(cost.value)
    } else {
        None
    };
    match (value, cost.address) {
        (Some(value), Some(address)) if address <= offset => Some(value.max(address)),
        (None, Some(address)) if address <= offset => Some(address),
        _ => value,
    }
}

/// The roots that may have an offset: the one with the last part before it, and the one with the first value after it, which
/// may begin with signs.
fn near(costs: &[Cost], offset: usize) -> [Option<Cost>; 2] {
    let mut before: Option<(usize, Cost)> = None;
    let mut after: Option<Cost> = None;
    for cost in costs {
        if let Some(start) = part_before(cost, offset) {
            before = match before {
                Some((found, _)) if found > start => before,
                _ => Some((start, *cost)),
            };
        }
        if cost.value > offset {
            after = match after {
                Some(found) if found.value <= cost.value => after,
                _ => Some(*cost),
            };
        }
    }
    let before = match before {
        Some((_, cost)) => Some(cost),
        None => None,
    };
    [before, after]
}

/// This root at its place, if it has this offset.
fn placed(tokens: &[Token<'_>], cost: &Cost, offset: usize) -> Option<PlacedRoot> {
    let address = match cost.address {
        Some(start) => stretch_from(tokens, start, true),
        None => None,
    };
    let value = stretch_from(tokens, cost.value, false)?;
    let is_there = has(value, offset) || address.is_some_and(|stretch| has(stretch, offset));
    if is_there {
        Some(PlacedRoot {
            address,
            value,
            words: cost.words,
        })
    } else {
        None
    }
}

/// The root that has an offset.
fn root_at(tokens: &[Token<'_>], costs: &[Cost], offset: usize) -> Option<PlacedRoot> {
    let offset = offset_for(tokens, offset);
    let [before, after] = near(costs, offset);
    let first = match before {
        Some(cost) => placed(tokens, &cost, offset),
        None => None,
    };
    match (first, after) {
        (None, Some(cost)) => placed(tokens, &cost, offset),
        (first, _) => first,
    }
}

/// The tokens of a document's own text, without those that it gets.
fn own_tokens(alloc: Global, document: &Document) -> Result<Vec<Token<'_>>, Memory> {
    let sources = sources_of(alloc, document.files.as_slice())?;
    let mut tokens = Vec::new(alloc);
    for token in &tokens_of(alloc, sources.as_slice()) {
        if token.file == 0 {
            tokens.push(*token)?;
        }
    }
    Ok(tokens)
}

/// What is said of the code of the expression, test or assignment at an offset; empty if none is there, or if the document
/// can't be built. Returns `Memory` if an allocation fails.
pub fn cost_at(alloc: Global, document: &Document, offset: usize) -> Result<String, Memory> {
    let costs = match &document.costs {
        Some(costs) if !costs.is_empty() => costs.as_slice(),
        _ => return Ok(String::new(alloc)),
    };
    let tokens = own_tokens(alloc, document)?;
    match root_at(tokens.as_slice(), costs, offset) {
        Some(root) => cost_text(alloc, document, root),
        None => Ok(String::new(alloc)),
    }
}
