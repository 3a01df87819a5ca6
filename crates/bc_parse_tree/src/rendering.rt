//! Tokens as text.
ghost use Rattle.std.specs.Prelude.{◌≡◌, IfOk};
ghost use Rattle.std.specs.Fmt.{decimal};
ghost use Rattle.bc_parse_tree.specs.Parts.{kind_part, kind_parts};
ghost use Rattle.bc_parse_tree.specs.Rendered.{escape_of, character_text, text_of, rendered};
ghost use Rattle.bc_parse_tree.specs.Adds.{AddsText};

use bc_lex_tokens::TokenKind;
use bc_word::Memory;
use itoa::Buffer;
use std::alloc::Global;

/// The text of tokens, with one blank between neighbours.
///
/// Names and strings are copied from the source. Numbers are written in decimal. A character constant is written as
/// its byte, or as an escape if the byte can't be used unescaped or isn't visible. A character over 255, which no
/// source gives, is written as a number. Returns `Memory` if an allocation fails.
pub fn render(alloc: Global, kinds: &[TokenKind<'_>]) -> Result<Vec<u8>, Memory>
    ensures { IfOk result (λ text. text.items ≡ rendered (kind_parts kinds.now)) }
{
    let mut text = Vec::new(alloc);
    let mut is_first = true;
    for kind in kinds {
        if !is_first {
            text.push(b' ')?;
        }
        put_token(&mut text, kind)?;
        is_first = false;
    }
    Ok(text)
}

/// Appends the text of one token.
fn put_token(text: &mut Vec<u8>, kind: &TokenKind<'_>) -> Result<(), Memory>
    ensures { AddsText result text.old text.new (text_of (kind_part kind.now)) }
{
    match kind {
        TokenKind::Symbol(symbol) => put(text, symbol.spelling()),
        TokenKind::Name(name) => put(text, name),
        TokenKind::Number(number) => put_number(text, *number),
        TokenKind::Character(code) => put_character(text, *code),
        TokenKind::String(quoted) => put(text, quoted),
    }
}

/// Appends bytes.
fn put(text: &mut Vec<u8>, bytes: &[u8]) -> Result<(), Memory>
    ensures { AddsText result text.old text.new bytes.now }
{
    Ok(text.extend_from_slice(bytes)?)
}

/// Appends a number in decimal.
fn put_number(text: &mut Vec<u8>, number: u16) -> Result<(), Memory>
    ensures { AddsText result text.old text.new (decimal number) }
{
    let mut buffer = Buffer::new();
    put(text, buffer.format(number).as_bytes())
}

/// Appends a character constant.
fn put_character(text: &mut Vec<u8>, code: u16) -> Result<(), Memory>
    ensures { AddsText result text.old text.new (character_text code) }
{
    match u8::try_from(code) {
        Err(_) => put_number(text, code),
        Ok(byte) => match escape(byte) {
            None => put(text, &[b'\'', byte, b'\'']),
            Some(letter) => put(text, &[b'\'', b'*', letter, b'\'']),
        },
    }
}

/// The letter after `*` if a byte is written as an escape.
fn escape(byte: u8) -> Option<u8>
    ensures { result ≡ escape_of byte }
{
    match byte {
        b'\n' => Some(b'N'),
        b'\t' => Some(b'T'),
        8 => Some(b'B'),
        12 => Some(b'P'),
        b'\r' => Some(b'C'),
        b'\'' | b'*' => Some(byte),
        _ => None,
    }
}
