//! Reading a single lexeme, the longest one at the start of the bytes.
ghost use Rattle.std.specs.Prelude.{◌≡◌, ◌<◌, ◌≤◌, length, IfOk, IfErr};
ghost use Rattle.bc_lex_tokens.specs.Token.{kind_of};
ghost use Rattle.bc_lex.specs.Tags.{has_tag as with_tag};
ghost use Rattle.bc_lex.specs.Lexeme.{named, word_of, sign_of, lexeme_in_front, Gives};

use crate::byte::is_letter;
use crate::fault::{Fault, FaultKind};
use crate::number::number;
use crate::quoted::{character, string};
use crate::run::{following, name_bytes};
use crate::symbols::spelled;
use bc_lex_tokens::{Symbol, TokenKind};

/// Whether the symbol may have a tag: it is a section bracket.
fn has_tag(symbol: Symbol) -> bool
    ensures { result ≡ with_tag symbol }
{
    matches!(symbol, Symbol::OpenSection | Symbol::CloseSection)
}

/// The name or reserved word at the start of the bytes, and the number of its bytes.
fn word<'s>(bytes: &'s [u8]) -> (TokenKind<'s>, usize)
    ensures value { word_of bytes.now ≡ (kind_of result.0, result.1) }
    ensures within { result.1 ≤ length bytes.now }
{
    let count = name_bytes(bytes);
    let text = bytes.split_at(count).0;
    match spelled(text) {
        Some(symbol) => (TokenKind::Symbol(symbol), count),
        None => (TokenKind::Name(text), count),
    }
}

/// The sign at the start of the bytes, and the number of its bytes with those of its tag. Fails with `BadCharacter` if there is
/// no sign.
fn sign(bytes: &[u8]) -> Result<(Symbol, usize), Fault>
    requires { 0 < length bytes.now }
    ensures value { result ≡ sign_of bytes.now }
    ensures within { IfOk result (λ x. x.1 ≤ length bytes.now) }
    ensures fault { IfErr result (λ f. f.at ≤ length bytes.now) }
{
    if bytes.len() > 1 {
        let (front, rest) = bytes.split_at(2);
        if let Some(symbol) = spelled(front) {
            let tag = if has_tag(symbol) { name_bytes(rest) } else { 0 };
            return Ok((symbol, 2 + tag));
        }
    }
    match spelled(bytes.split_at(1).0) {
        Some(symbol) => Ok((symbol, 1)),
        None => Err(Fault::here(FaultKind::BadCharacter)),
    }
}

/// The lexeme at the start of the bytes, which must not begin with a blank or comment, and the number of its bytes. Fails with the
/// fault of the lexeme.
#[tactic(auto, unfolding(crate::specs::Lexeme::lexeme_in_front))]
pub fn lexeme<'s>(bytes: &'s [u8]) -> Result<(TokenKind<'s>, usize), Fault>
    requires { 0 < length bytes.now }
    ensures value { Gives (λ x. (kind_of x.0, x.1)) result (lexeme_in_front bytes.now) }
    ensures within { IfOk result (λ x. x.1 ≤ length bytes.now) }
    ensures fault { IfErr result (λ f. f.at ≤ length bytes.now) }
{
    let first = bytes[0];
    if is_letter(first) {
        Ok(word(bytes))
    } else if first.is_ascii_digit() || first == b'#' {
        let (value, count) = number(bytes)?;
        Ok((TokenKind::Number(value), count))
    } else if first == b'"' {
        let count = string(bytes)?;
        Ok((TokenKind::String(bytes.split_at(count).0), count))
    } else if first == b'\'' {
        let (value, count) = character(bytes)?;
        Ok((TokenKind::Character(value), count))
    } else {
        let (symbol, count) = sign(bytes)?;
        Ok((TokenKind::Symbol(symbol), count))
    }
}
