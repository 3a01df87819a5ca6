//! The public calls: where the fault of a section is among its tokens, and where its parts are among its leaves.
ghost use Rattle.std.specs.Prelude.{◌≡◌, ◌<◌, ◌≤◌, length, true, Some, IfOk, IfSome};
ghost use Rattle.bc_scope_places.specs.Named.{name_of, named, spelled, HasName};

use crate::brackets::around;
use crate::leaves::Leaves;
use crate::record::Sites;
use crate::span::Span;
use crate::walk::{Beside, End, Found, PlaceWalk};
use bc_lex_tokens::{Token, TokenKind};
use bc_parse_tree::{Section, token_at};
use bc_scope_names::ScopeError;
use bc_word::Memory;
use std::alloc::Global;

/// Further information on a fault.
#[derive(Clone, Copy)]
pub enum Also {
    /// Nothing more.
    Nothing,
    /// For `DeclaredTwice` the first declaration; for `CaseTwice` the first CASE with this value, or the first DEFAULT.
    First(Span),
    /// For `DynamicFree` the declaration of the variable, parameter or label.
    Declared(Span),
    /// For `GlobalNumber` the number, 512 to 65,535.
    Number(u16),
    /// For `FrameTooLarge` the number of cells in the routine's frame.
    Cells(u64),
    /// For `TooManyPlaces` the number of routines, statics, tables and strings in the section.
    Places(u64),
}

/// Where the fault of a section is, with further information.
#[derive(Clone, Copy)]
pub struct FaultPlace {
    /// The tokens of the construct that has the fault.
    pub at: Span,
    /// Further information.
    pub also: Also,
}

/// The name in a fault, if it has one.
fn name_of<'s>(fault: ScopeError<'s>) -> Option<&'s [u8]>
    ensures { named result ≡ name_of fault.entry }
{
    match fault {
        ScopeError::Undeclared(name)
        | ScopeError::DeclaredTwice(name)
        | ScopeError::DynamicFree(name)
        | ScopeError::GlobalNumber(name) => Some(name),
        ScopeError::NotConstant
        | ScopeError::NotAssignable
        | ScopeError::Misplaced
        | ScopeError::FrameTooLarge
        | ScopeError::CaseTwice
        | ScopeError::TooManyPlaces
        | ScopeError::Memory => None,
    }
}

/// Whether a token is this name.
#[tactic(auto, using(crate::proofs::Bytes::same_bytes))]
fn is_name(kind: TokenKind<'_>, name: &[u8]) -> bool
    ensures { result ≡ true → spelled kind.entry ≡ Some name.now }
{
    match kind {
        TokenKind::Name(spelled) => spelled == name,
        TokenKind::Symbol(_)
        | TokenKind::Number(_)
        | TokenKind::Character(_)
        | TokenKind::String(_) => false,
    }
}

/// Whether token `i` is this name; true if there is no name.
fn has_name(tokens: &[Token<'_>], i: usize, name: Option<&[u8]>) -> bool
    ensures { result ≡ true → HasName tokens.now i (named name.entry) }
{
    match name {
        None => true,
        Some(name) => match tokens.get(i) {
            Some(token) => is_name(token.kind, name),
            None => false,
        },
    }
}

/// The tokens of these leaves, with the unary operators and brackets that belong to them. `None` if the tokens have no such
/// leaves.
fn span_of(tokens: &[Token<'_>], at: Leaves) -> Option<Span>
    ensures { IfSome result (λ s. (s.first ≤ s.last) × (s.last < length tokens.now)) }
{
    let first = token_at(tokens, at.first)?;
    let last = token_at(tokens, at.last)?;
    if first <= last {
        Some(around(tokens, at, first, last))
    } else {
        None
    }
}

/// Further information on a fault, in tokens. `None` if the tokens have no such leaves, or not this name.
fn also_of(tokens: &[Token<'_>], name: Option<&[u8]>, beside: Beside) -> Option<Also> {
    match beside {
        Beside::Nothing => Some(Also::Nothing),
        Beside::First(at) => {
            let span = span_of(tokens, at)?;
            if has_name(tokens, span.first, name) {
                Some(Also::First(span))
            } else {
                None
            }
        }
        Beside::Declared(at) => {
            let span = span_of(tokens, at)?;
            if has_name(tokens, span.first, name) {
                Some(Also::Declared(span))
            } else {
                None
            }
        }
        Beside::Number(number) => Some(Also::Number(number)),
        Beside::Cells(cells) => Some(Also::Cells(cells)),
        Beside::Places(places) => Some(Also::Places(places)),
    }
}

/// The first fault of a section, by its leaves. Fails with `Memory` when an allocation fails.
fn found<'s>(alloc: Global, section: &Section<'s>) -> Result<Option<Found<'s>>, Memory> {
    let mut walk = PlaceWalk::new(alloc);
    match walk.declarations(&section.declarations, 0) {
        Ok(_extent) => Ok(walk.of_whole()),
        Err(End::Found) => Ok(walk.found()),
        Err(End::Memory) => Err(Memory),
    }
}

/// Finds the parts of a section that `bc_scope::resolve` accepts, by leaves: expressions, tests and assignments, variables,
/// names of globals, and places.
///
/// Returns `None` if the walk finds a fault. Fails with `Memory` when an allocation fails.
pub fn sites_of(alloc: Global, section: &Section<'_>) -> Result<Option<Sites>, Memory> {
    let mut walk = PlaceWalk::new(alloc);
    match walk.declarations(&section.declarations, 0) {
        Ok(_extent) => Ok(Some(walk.into_sites())),
        Err(End::Found) => Ok(None),
        Err(End::Memory) => Err(Memory),
    }
}

/// Finds where the fault of a section is among its tokens.
///
/// `section` must be what `bc_parse` reads from `tokens`, and `fault` the one with which `bc_scope::resolve` fails for it.
/// The result covers:
///
/// - for a fault with a name, that name; for `DeclaredTwice` the second one;
/// - for `NotConstant` and `NotAssignable`, the expression;
/// - for `Misplaced`, the word BREAK, LOOP, ENDCASE, RETURN, RESULTIS, CASE or DEFAULT, the name after a GOTO, the label that is
///   used as a value, or the names declared as variables outside routines;
/// - for `CaseTwice`, the second CASE or DEFAULT;
/// - for `FrameTooLarge`, the name of the first routine whose frame is too large;
/// - for `TooManyPlaces`, the name, TABLE or string of place number 8,001.
///
/// Returns `None` if the walk finds another fault or none, or if the tokens are not those of the section. Fails with `Memory`
/// when an allocation fails.
pub fn fault_place<'s>(
    alloc: Global,
    tokens: &[Token<'s>],
    section: &Section<'s>,
    fault: ScopeError<'s>,
) -> Result<Option<FaultPlace>, Memory>
    // The result is a nonempty range of the tokens.
    ensures within { IfOk result (λ p. IfSome p (λ p. (p.at.first ≤ p.at.last) × (p.at.last < length tokens.now))) }
    // Its first token is the name in the fault, if it has one.
    ensures named { IfOk result (λ p. IfSome p (λ p. HasName tokens.now p.at.first (name_of fault.entry))) }
{
    let Some(found) = found(alloc, section)? else {
        return Ok(None);
    };
    if found.fault != fault {
        return Ok(None);
    }
    Ok(placed(tokens, fault, found.at, found.beside))
}

/// The tokens of a fault, by its leaves.
fn placed<'s>(
    tokens: &[Token<'s>],
    fault: ScopeError<'s>,
    at: Leaves,
    beside: Beside,
) -> Option<FaultPlace>
    ensures within { IfSome result (λ p. (p.at.first ≤ p.at.last) × (p.at.last < length tokens.now)) }
    ensures named { IfSome result (λ p. HasName tokens.now p.at.first (name_of fault.entry)) }
{
    let name = name_of(fault);
    let at = span_of(tokens, at)?;
    if !has_name(tokens, at.first, name) {
        return None;
    }
    let also = also_of(tokens, name, beside)?;
    Some(FaultPlace { at, also })
}
