//! Strings and character constants, as this dialect writes them.

use crate::bytes::{following, span};
use crate::complaint::Fault;
use bc_word::Memory;
use std::alloc::Global;

/// The next piece of an old string or character constant.
#[derive(Clone, Copy)]
enum Piece {
    /// Nothing: the end.
    End,
    /// This number of bytes, which mean one character and stay.
    Kept(usize),
    /// An escape of this number of bytes for this byte. This dialect writes it otherwise.
    Byte(u8, usize),
    /// This number of bytes, which mean nothing: a line break within a string.
    Nothing(usize),
    /// An unknown escape.
    Bad,
}

/// The value of digits, or `None` if the base lacks one of them or the value isn't a byte.
fn byte_of_digits(base: u32, digits: &[u8]) -> Option<u8> {
    let mut value: u32 = 0;
    for byte in digits {
        let digit = char::from(*byte).to_digit(16)?;
        if digit >= base {
            return None;
        }
        value = value.saturating_mul(base).saturating_add(digit);
    }
    u8::try_from(value).ok()
}

/// An escape by number, whose digits begin after `front` bytes.
fn numbered(bytes: &[u8], front: usize, count: usize, base: u32) -> Piece {
    let end = front.saturating_add(count);
    let digits = span(bytes, front, end);
    if digits.is_empty() {
        return Piece::Bad;
    }
    match byte_of_digits(base, digits) {
        Some(byte) => Piece::Byte(byte, end),
        None => Piece::Bad,
    }
}

/// The number of blanks and line breaks at the start, with the `*` after them.
fn break_bytes(bytes: &[u8]) -> usize {
    let blanks = bytes
        .iter()
        .take_while(|byte| byte.is_ascii_whitespace())
        .count();
    match bytes.get(blanks) {
        Some(b'*') => blanks.saturating_add(1),
        _ => blanks,
    }
}

/// The piece at the start of these bytes.
fn next_piece(bytes: &[u8]) -> Piece {
    match bytes {
        [] => Piece::End,
        [
            b'*',
            b'N'
            | b'n'
            | b'T'
            | b't'
            | b'S'
            | b's'
            | b'B'
            | b'b'
            | b'P'
            | b'p'
            | b'C'
            | b'c'
            | b'"'
            | b'\''
            | b'*',
            ..
        ] => Piece::Kept(2),
        [b'*', b'\n' | b'\r', ..] => Piece::Nothing(break_bytes(following(bytes, 1)).saturating_add(
            1,
        )),
        [b'*', b'X' | b'x', ..] => numbered(bytes, 2, 2, 16),
        [b'*', b'D' | b'd', ..] => numbered(bytes, 2, 3, 10),
        [b'*', b'O' | b'o', ..] => numbered(bytes, 2, 3, 8),
        [b'*', b'0', ..] => numbered(bytes, 1, 3, 8),
        [b'*', b'1' | b'2', ..] => numbered(bytes, 1, 3, 10),
        [b'*', b'E' | b'e', ..] => Piece::Byte(27, 2),
        [b'*', ..] => Piece::Bad,
        _ => Piece::Kept(1),
    }
}

/// Appends a byte as a string spells it.
fn put_byte(text: &mut Vec<u8>, byte: u8) -> Result<(), Memory> {
    let letter = match byte {
        b'\n' => b'N',
        b'\t' => b'T',
        8 => b'B',
        12 => b'P',
        b'\r' => b'C',
        b'"' | b'\'' | b'*' => byte,
        _ => {
            text.push(byte)?;
            return Ok(());
        }
    };
    text.push(b'*')?;
    text.push(letter)?;
    Ok(())
}

/// A string or a character constant in this dialect.
#[derive(Drop)]
pub struct Respelled {
    /// The bytes between its quotes.
    pub inside: Vec<u8>,
    /// The number of characters.
    pub count: usize,
    /// The last character, if it was written by its number.
    pub numbered: Option<u8>,
}

/// Rewrites what is between the quotes of a string or constant, or returns its fault.
pub fn inside_respelled(alloc: Global, inside: &[u8]) -> Result<Result<Respelled, Fault>, Memory> {
    let mut text = Vec::new(alloc);
    let mut count: usize = 0;
    let mut last = None;
    let mut rest = inside;
    for _ in 0..inside.len() {
        let taken = match next_piece(rest) {
            Piece::End => break,
            Piece::Bad => return Ok(Err(Fault::BadEscape)),
            Piece::Nothing(taken) => taken,
            Piece::Kept(taken) => {
                text.extend_from_slice(span(rest, 0, taken))?;
                count = count.saturating_add(1);
                last = None;
                taken
            }
            Piece::Byte(byte, taken) => {
                put_byte(&mut text, byte)?;
                count = count.saturating_add(1);
                last = Some(byte);
                taken
            }
        };
        rest = span(rest, taken, rest.len());
    }
    Ok(Ok(Respelled {
        inside: text,
        count,
        numbered: last,
    }))
}

/// A string in double quotes, from what is between the single quotes of an old one. Double quotes in it are escaped.
pub fn requoted(alloc: Global, inside: &[u8]) -> Result<Vec<u8>, Memory> {
    let mut text = Vec::from_slice(alloc, b"\"")?;
    let mut is_escaped = false;
    for byte in inside {
        if *byte == b'"' && !is_escaped {
            text.push(b'*')?;
        }
        text.push(*byte)?;
        is_escaped = *byte == b'*' && !is_escaped;
    }
    text.push(b'"')?;
    Ok(text)
}

/// The byte that a character constant means, if it has one character.
pub fn character_of(inside: &[u8]) -> Option<u8> {
    match inside {
        [byte] => Some(*byte),
        [b'*', letter] => match letter {
            b'N' | b'n' => Some(10),
            b'T' | b't' => Some(9),
            b'S' | b's' => Some(32),
            b'B' | b'b' => Some(8),
            b'P' | b'p' => Some(12),
            b'C' | b'c' => Some(13),
            _ => Some(*letter),
        },
        _ => match next_piece(inside) {
            Piece::Byte(byte, _) => Some(byte),
            _ => None,
        },
    }
}
