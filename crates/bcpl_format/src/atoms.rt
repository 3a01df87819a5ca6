//! Finds the atoms of a source: its tokens, and what is in the gaps between them.

use crate::atom::{Atom, Shape};
use bc_lex::{Symbol, Token};
use bc_word::Memory;
use std::alloc::Global;

/// What comes next in a gap.
#[derive(Clone, Copy)]
enum Piece {
    /// A blank.
    Blank,
    /// A line break.
    Break,
    /// Something that is kept, with its number of bytes.
    Kept(Shape, usize),
}

/// Whether the byte is a blank other than a line break.
pub fn is_blank(byte: u8) -> bool {
    matches!(byte, b' ' | b'\t' | b'\r' | b'\x0c')
}

/// The number of bytes before the first line break, or of all bytes.
fn line_length(bytes: &[u8]) -> usize {
    bytes.iter().take_while(|byte| **byte != b'\n').count()
}

/// The number of bytes of a block comment, with its signs.
fn block_length(bytes: &[u8]) -> usize {
    let body = bytes.get(2..).unwrap_or(&[]);
    match body
        .windows(2)
        .position(|pair| matches!(pair, [b'*', b'/']))
    {
        Some(count) => count.saturating_add(4),
        None => bytes.len(),
    }
}

/// The number of bytes of a string, with its quotes.
fn string_length(bytes: &[u8]) -> usize {
    let mut is_escaped = false;
    for (index, byte) in bytes.iter().enumerate().skip(1) {
        if *byte == b'"' && !is_escaped {
            return index.saturating_add(1);
        }
        is_escaped = *byte == b'*' && !is_escaped;
    }
    bytes.len()
}

/// What a gap begins with. A gap has blanks, line breaks, comments, and GETs with their strings.
fn next_piece(bytes: &[u8]) -> Piece {
    match bytes {
        [b'\n', ..] => Piece::Break,
        [b'/', b'/', ..] | [b'|', b'|', ..] => Piece::Kept(Shape::Comment, line_length(bytes)),
        [b'/', b'*', ..] => Piece::Kept(Shape::Comment, block_length(bytes)),
        [b'G', b'E', b'T', ..] => Piece::Kept(Shape::Symbol(Symbol::Get), 3),
        [b'"', ..] => Piece::Kept(Shape::Operand, string_length(bytes)),
        [byte, ..] if is_blank(*byte) => Piece::Blank,
        _ => Piece::Kept(Shape::Operand, 1),
    }
}

/// Where a span that begins at `start` ends without the blanks at its end.
fn trimmed_end(text: &[u8], start: usize, end: usize) -> usize {
    let span = text.get(start..end).unwrap_or(&[]);
    let blanks = span
        .iter()
        .rev()
        .take_while(|byte| is_blank(**byte))
        .count();
    end.saturating_sub(blanks)
}

/// Appends the atoms of the gap from `start` to `end`. Returns how many line breaks come after the last of them.
fn add_gap(atoms: &mut Vec<Atom>, text: &[u8], start: usize, end: usize) -> Result<usize, Memory> {
    let mut at = start;
    let mut breaks: usize = 0;
    for _ in start..end {
        if at >= end {
            break;
        }
        match next_piece(text.get(at..end).unwrap_or(&[])) {
            Piece::Blank => at = at.saturating_add(1),
            Piece::Break => {
                at = at.saturating_add(1);
                breaks = breaks.saturating_add(1);
            }
            Piece::Kept(shape, count) => {
                let after = at.saturating_add(count);
                atoms.push(Atom {
                    shape,
                    start: at,
                    end: trimmed_end(text, at, after),
                    breaks,
                })?;
                at = after;
                breaks = 0;
            }
        }
    }
    Ok(breaks)
}

/// The atoms of the source with index `main`, whose text is `text`, from its tokens. Tokens of other sources are skipped.
///
/// # Errors
///
/// `Memory` if an allocation failed.
pub fn atoms_of(
    alloc: Global,
    text: &[u8],
    tokens: &[Token<'_>],
    main: usize,
) -> Result<Vec<Atom>, Memory> {
    let mut atoms = Vec::new(alloc);
    let mut at = 0;
    for token in tokens {
        if token.file == main {
            let breaks = add_gap(&mut atoms, text, at, token.start)?;
            atoms.push(Atom {
                shape: Shape::of(token.kind),
                start: token.start,
                end: token.end,
                breaks,
            })?;
            at = token.end;
        }
    }
    let _breaks = add_gap(&mut atoms, text, at, text.len())?;
    Ok(atoms)
}
