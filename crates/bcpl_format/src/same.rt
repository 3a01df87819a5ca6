//! Compares the tokens of a source with those of its layout, and their texts but for blanks.

ghost use Rattle.std.specs.Prelude.{◌≡◌, ◌+◌, ◌<◌, ◌≤◌, ◌∷◌, drop, length, IsTrue, IfOk};
ghost use Rattle.bc_lex_tokens.specs.Token.{kind_of, lexeme_of, lexemes_of};
ghost use Rattle.bc_lex.specs.Bytes.{is_space as space};
ghost use Rattle.bc_parse_defs.specs.Closing.{kind_part, ends_command, begins_command};
ghost use Rattle.bcpl_format.specs.Kept.{mark_of, marks, marks_after, ink};

use bc_lex::{Token, TokenKind};
use bc_parse_defs::{is_symbol_beginning, is_symbol_end};
use bc_word::Memory;
use std::alloc::Global;

/// Whether a command can end with a token of this kind.
fn is_end(kind: TokenKind<'_>) -> bool
    ensures { result ≡ ends_command (kind_part (kind_of kind.entry)) }
{
    match kind {
        TokenKind::Symbol(symbol) => is_symbol_end(symbol),
        _ => true,
    }
}

/// Whether a command can begin with a token of this kind.
fn is_beginning(kind: TokenKind<'_>) -> bool
    ensures { result ≡ begins_command (kind_part (kind_of kind.entry)) }
{
    match kind {
        TokenKind::Symbol(symbol) => is_symbol_beginning(symbol),
        _ => true,
    }
}

/// Whether two tokens have the same kind, with its value.
fn is_same_kind(left: TokenKind<'_>, right: TokenKind<'_>) -> bool
    ensures { IsTrue result → kind_of left.entry ≡ kind_of right.entry }
{
    match (left, right) {
        (TokenKind::Symbol(left), TokenKind::Symbol(right)) => left.is(right),
        (TokenKind::Name(left), TokenKind::Name(right)) => left == right,
        (TokenKind::Number(left), TokenKind::Number(right)) => left == right,
        (TokenKind::Character(left), TokenKind::Character(right)) => left == right,
        (TokenKind::String(left), TokenKind::String(right)) => left == right,
        _ => false,
    }
}

/// Whether a line break before this token counts as a semicolon, if a command can end with the token before it.
fn is_broken(is_after_end: bool, token: &Token<'_>) -> bool
    ensures { result ≡ (mark_of is_after_end (lexeme_of token.now)).breaks }
{
    is_after_end && token.line_before && is_beginning(token.kind)
}

/// Whether two tokens are the same but for their places, and a line break counts as a semicolon before both or neither.
fn is_same_token(is_after_end: bool, left: &Token<'_>, right: &Token<'_>) -> bool
    ensures mark { IsTrue result → mark_of is_after_end (lexeme_of left.now) ≡ mark_of is_after_end (lexeme_of right.now) }
    ensures kind { IsTrue result → kind_of left.now.kind ≡ kind_of right.now.kind }
{
    is_same_kind(left.kind, right.kind)
        && left.text == right.text
        && left.file == right.file
        && is_broken(is_after_end, left) == is_broken(is_after_end, right)
}

/// Whether this token is the same as the one with index `at` of the others, in the same sense.
fn is_same_at(is_after_end: bool, token: &Token<'_>, others: &[Token<'_>], at: usize) -> bool
    requires { at ≤ length others.now }
    ensures within { IsTrue result → at < length others.now }
    ensures marks { IsTrue result → marks_after is_after_end (lexemes_of (drop at others.now)) ≡ mark_of is_after_end (lexeme_of token.now) ∷
        marks_after (ends_command (kind_part (kind_of token.now.kind))) (lexemes_of (drop (at + 1) others.now)) }
{
    match others.split_at(at).1 {
        [other, ..] => is_same_token(is_after_end, token, other),
        _ => false,
    }
}

/// Whether two lists have the same tokens, and the same line breaks count as semicolons.
pub fn has_same_tokens(left: &[Token<'_>], right: &[Token<'_>]) -> bool
    ensures { IsTrue result → marks (lexemes_of left.now) ≡ marks (lexemes_of right.now) }
{
    let mut at = 0;
    let mut is_after_end = false;
    for token in left {
        if !is_same_at(is_after_end, token, right, at) {
            return false;
        }
        is_after_end = is_end(token.kind);
        at += 1;
    }
    at == right.len()
}

/// Whether the byte is a blank or a line break.
fn is_space(byte: u8) -> bool
    ensures { result ≡ space byte }
{
    matches!(byte, b' ' | b'\t' | b'\r' | b'\x0c' | b'\n')
}

/// The bytes other than blanks and line breaks.
fn ink_of(alloc: Global, text: &[u8]) -> Result<Vec<u8>, Memory>
    ensures { IfOk result (λ v. v.items ≡ ink text.now) }
{
    let mut bytes = Vec::new(alloc);
    for byte in text {
        if !is_space(*byte) {
            bytes.push(*byte)?;
        }
    }
    Ok(bytes)
}

/// Whether two texts have the same bytes other than blanks and line breaks.
///
/// # Errors
///
/// `Memory` if an allocation failed.
pub fn has_same_ink(alloc: Global, left: &[u8], right: &[u8]) -> Result<bool, Memory>
    ensures { IfOk result (λ same. IsTrue same → ink left.now ≡ ink right.now) }
{
    let left = ink_of(alloc, left)?;
    let right = ink_of(alloc, right)?;
    Ok(left.as_slice() == right.as_slice())
}
