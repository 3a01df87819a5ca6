//! Closed lists: the tags of section brackets are gone, and line breaks that count as semicolons are explicit.
ghost use Rattle.std.specs.Prelude.{◌≡◌, ◌&&◌, ◌+◌, ℕ, [], ◌∷◌, ◌++◌, false, length, drop, Ok, Err, Some, None, if◌then◌else◌};
ghost use Rattle.bc_lex_tokens.specs.Token.{Kind, lexeme_of, lexemes_of, kind_of};
ghost use Rattle.bc_parse_tree.specs.Parts.{part};
ghost use Rattle.bc_parse_defs.specs.Closing.{symbol_ends, symbol_begins, ends_command, begins_command, broken, kind_part, Role, role_of, token_step, step_by, closing as closing_of, closes, is_matched, closed_list};
ghost use Rattle.bc_parse_defs.specs.Seen.{Gives, lists, with_placed, tags, unwound, after_closing, state, after_token, all_unzipped};

use crate::fault::CloseFault;
use bc_lex_tokens::{Symbol, Token, TokenKind};
use bc_parse_tree::Part;
use std::alloc::Global;

/// The parts of a closed list, and for each the index of its token. An inserted part has the index of the token that
/// it was inserted for.
#[derive(Drop)]
pub struct ClosedList<'s> {
    /// The parts, in order.
    pub parts: Vec<Part<'s>>,
    /// The index of the token of each part.
    pub places: Vec<usize>,
}

/// Whether a command can end with this symbol.
pub fn is_symbol_end(symbol: Symbol) -> bool
    ensures { result ≡ symbol_ends symbol }
{
    match symbol {
        Symbol::True
        | Symbol::False
        | Symbol::CloseBracket
        | Symbol::CloseSection
        | Symbol::Break
        | Symbol::Loop
        | Symbol::EndCase
        | Symbol::Return
        | Symbol::Finish
        | Symbol::Repeat => true,
        _ => false,
    }
}

/// Whether a command can begin with this symbol.
pub fn is_symbol_beginning(symbol: Symbol) -> bool
    ensures { result ≡ symbol_begins symbol }
{
    match symbol {
        Symbol::OpenBracket
        | Symbol::Indirection
        | Symbol::OpenSection
        | Symbol::If
        | Symbol::Unless
        | Symbol::Test
        | Symbol::While
        | Symbol::Until
        | Symbol::For
        | Symbol::SwitchOn
        | Symbol::Case
        | Symbol::Default
        | Symbol::Break
        | Symbol::Loop
        | Symbol::EndCase
        | Symbol::Return
        | Symbol::Finish
        | Symbol::ResultIs
        | Symbol::Goto
        | Symbol::Let
        | Symbol::Manifest
        | Symbol::Static
        | Symbol::Global => true,
        _ => false,
    }
}

/// Whether a command can end with this part.
fn is_end(front: &Part<'_>) -> bool
    ensures { result ≡ ends_command (part front.now) }
{
    match front {
        Part::Symbol(symbol) => is_symbol_end(*symbol),
        Part::NewLine => false,
        _ => true,
    }
}

/// Whether a command can begin with this part.
fn is_beginning(front: &Part<'_>) -> bool
    ensures { result ≡ begins_command (part front.now) }
{
    match front {
        Part::Symbol(symbol) => is_symbol_beginning(*symbol),
        Part::NewLine => false,
        _ => true,
    }
}

/// The kind of a token as a part.
fn part_from<'s>(kind: &TokenKind<'s>) -> Part<'s>
    ensures { part result ≡ kind_part (kind_of kind.now) }
{
    match kind {
        TokenKind::Symbol(symbol) => Part::Symbol(*symbol),
        TokenKind::Name(name) => Part::Name(*name),
        TokenKind::Number(word) => Part::Number(*word),
        TokenKind::Character(word) => Part::Character(*word),
        TokenKind::String(text) => Part::String(*text),
    }
}

/// Appends a part, preceded by a line break if that counts as a semicolon here.
fn put<'s>(
    list: &mut ClosedList<'s>,
    is_after_end: bool,
    line_before: bool,
    front: Part<'s>,
    at: usize,
) -> Result<(), CloseFault>
    ensures { Gives (λ _. lists list.new) result (Ok (with_placed (lists list.old) (broken is_after_end line_before (part front.entry) at))) }
{
    if is_after_end && line_before && is_beginning(&front) {
        list.parts.push(Part::NewLine)?;
        list.places.push(at)?;
    }
    list.parts.push(front)?;
    list.places.push(at)?;
    Ok(())
}

/// The tag of a section bracket: its text after `$(` or `$)`.
fn tag<'s>(text: &'s [u8]) -> &'s [u8]
    ensures { result.now ≡ drop 2 text.entry.now }
{
    match text {
        [_, _, tag @ ..] => tag,
        _ => &[],
    }
}

/// Whether a closing bracket with this tag closes this opening one. A bracket without a tag closes any.
fn is_match(tag: &[u8], opening: &[u8]) -> bool
    ensures { result ≡ is_matched tag.now opening.now }
{
    tag.is_empty() || opening == tag
}

/// Closes sections from the innermost outwards, up to the first with the tag; without a tag, only the innermost.
fn unwind<'s>(
    list: &mut ClosedList<'s>,
    opened: &mut Vec<&'s [u8]>,
    tag: &[u8],
    at: usize,
) -> Result<(), CloseFault>
    ensures { Gives (λ _. unwound list.new opened.new.items) result (after_closing (lists list.old) (closing_of at (closes tag.now (tags opened.old.items)))) }
{
    while let Some(opening) = opened.pop() {
        list.parts.push(Part::Symbol(Symbol::CloseSection))?;
        list.places.push(at)?;
        if is_match(tag, opening) {
            return Ok(());
        }
    }
    Err(CloseFault::NotOpen(at))
}

/// Appends what one token becomes. Returns whether a command can end with the last part.
fn put_token<'s>(
    list: &mut ClosedList<'s>,
    opened: &mut Vec<&'s [u8]>,
    is_after_end: bool,
    token: &Token<'s>,
    at: usize,
) -> Result<bool, CloseFault>
    ensures { Gives (λ ends. state list.new opened.new.items ends) result
        (after_token (lists list.old) (token_step at (tags opened.old.items) is_after_end (lexeme_of token.now))) }
{
    match token.kind {
        TokenKind::Symbol(Symbol::OpenSection) => {
            let front = Part::Symbol(Symbol::OpenSection);
            put(list, is_after_end, token.line_before, front, at)?;
            opened.push(tag(token.text))?;
            Ok(false)
        }
        TokenKind::Symbol(Symbol::CloseSection) => {
            unwind(list, opened, tag(token.text), at)?;
            Ok(true)
        }
        _ => {
            let front = part_from(&token.kind);
            let is_end = is_end(&front);
            put(list, is_after_end, token.line_before, front, at)?;
            Ok(is_end)
        }
    }
}

/// The closed list of the tokens.
///
/// A `$)` with a tag closes all sections up to the innermost open one with that tag, and a `$)` without one closes
/// the innermost. A line break counts as a semicolon if the token before it can end a command and the token after it
/// can begin one.
///
/// Errors: `NotOpen` with the index of the first `$)` that closes no section; otherwise `Unclosed` if a section is
/// still open at the end; `Memory` if an allocation fails.
pub fn close<'s>(alloc: Global, tokens: &[Token<'s>]) -> Result<ClosedList<'s>, CloseFault>
    ensures { Gives (λ x. lists x) result (all_unzipped (closed_list (lexemes_of tokens.now))) }
{
    let mut list = ClosedList {
        parts: Vec::new(alloc),
        places: Vec::new(alloc),
    };
    let mut opened = Vec::new(alloc);
    let mut is_after_end = false;
    for (at, token) in tokens.iter().enumerate() {
        is_after_end = put_token(&mut list, &mut opened, is_after_end, token, at)?;
    }
    if opened.is_empty() {
        Ok(list)
    } else {
        Err(CloseFault::Unclosed)
    }
}
