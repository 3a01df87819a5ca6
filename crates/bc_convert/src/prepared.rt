//! Texts with line breaks of old systems or with card numbers: what the lexer reads instead of them.

use crate::bytes::span;
use crate::replacement::Replacement;
use bc_word::Memory;
use std::alloc::Global;

/// The number of columns of a card before its number.
const CARD_COLUMNS: usize = 72;

/// Whether lines end with a carriage return only.
fn has_returns_only(text: &[u8]) -> bool {
    text.contains(&b'\r') && !text.contains(&b'\n')
}

/// Whether a line is a card with its number: it has 80 columns, the last 8 with letters and digits, the last one a digit.
fn is_card(line: &[u8]) -> bool {
    let number = span(line, CARD_COLUMNS, line.len());
    if number.len() != 8 || !matches!(number.last(), Some(byte) if byte.is_ascii_digit()) {
        return false;
    }
    for byte in number.iter() {
        if !byte.is_ascii_alphanumeric() && *byte != b' ' {
            return false;
        }
    }
    true
}

/// A line without the carriage return at its end.
fn without_return(line: &[u8]) -> &[u8] {
    match line.last() {
        Some(b'\r') => span(line, 0, line.len().saturating_sub(1)),
        _ => line,
    }
}

/// Whether the lines are cards: at least two have a number, and those without one have no more than 72 columns.
fn is_deck(text: &[u8]) -> bool {
    let mut count: usize = 0;
    for line in text.split(|byte| *byte == b'\n') {
        let line = without_return(line);
        if is_card(line) {
            count = count.saturating_add(1);
        } else if line.len() > CARD_COLUMNS {
            return false;
        }
    }
    count > 1
}

/// The text with spaces instead of the numbers of cards.
fn without_card_numbers(alloc: Global, text: &[u8]) -> Result<Vec<u8>, Memory> {
    let mut new = Vec::new(alloc);
    let mut column: usize = 0;
    for byte in text {
        let is_number = column >= CARD_COLUMNS && *byte != b'\n' && *byte != b'\r';
        new.push(if is_number { b' ' } else { *byte })?;
        column = if *byte == b'\n' {
            0
        } else {
            column.saturating_add(1)
        };
    }
    Ok(new)
}

/// The text with line feeds instead of carriage returns.
fn with_line_feeds(alloc: Global, text: &[u8]) -> Result<Vec<u8>, Memory> {
    let mut new = Vec::new(alloc);
    for byte in text {
        new.push(if *byte == b'\r' { b'\n' } else { *byte })?;
    }
    Ok(new)
}

/// The text as the lexer reads it. Each byte is at the same index as in the old text.
///
/// # Errors
///
/// `Memory` if an allocation failed.
pub fn prepared(alloc: Global, text: &[u8]) -> Result<Vec<u8>, Memory> {
    if has_returns_only(text) {
        with_line_feeds(alloc, text)
    } else if is_deck(text) {
        without_card_numbers(alloc, text)
    } else {
        Ok(Vec::from_slice(alloc, text)?)
    }
}

/// The number of blanks before an index on the same line.
fn blanks_before(text: &[u8], index: usize) -> usize {
    let line = span(text, 0, index);
    line.iter()
        .rev()
        .take_while(|byte| **byte == b' ' || **byte == b'\t')
        .count()
}

/// The replacement for the differing bytes from `start` up to `end`: line feeds for carriage returns. The number of a card
/// is removed together with the blanks before it.
fn difference(
    alloc: Global,
    text: &[u8],
    new: &[u8],
    start: usize,
    end: usize,
) -> Result<Replacement, Memory> {
    if new.get(start) == Some(&b'\n') {
        let text = Vec::from_slice(alloc, span(new, start, end))?;
        return Ok(Replacement { start, end, text });
    }
    Ok(Replacement {
        start: start.saturating_sub(blanks_before(text, start)),
        end,
        text: Vec::new(alloc),
    })
}

/// Appends a replacement for each run of bytes in which the two texts differ.
fn put_differences(
    alloc: Global,
    text: &[u8],
    new: &[u8],
    candidates: &mut Vec<Replacement>,
) -> Result<(), Memory> {
    let mut start = None;
    for (index, (old, other)) in text.iter().zip(new).enumerate() {
        match start {
            None if old != other => start = Some(index),
            Some(from) if old == other => {
                candidates.push(difference(alloc, text, new, from, index)?)?;
                start = None;
            }
            _ => {}
        }
    }
    if let Some(from) = start {
        candidates.push(difference(alloc, text, new, from, text.len())?)?;
    }
    Ok(())
}

/// These candidates for the text as the lexer reads it, with those that lead to it, in the order of the text.
///
/// # Errors
///
/// `Memory` if an allocation failed.
pub fn with_differences(
    alloc: Global,
    text: &[u8],
    new: &[u8],
    candidates: Vec<Replacement>,
) -> Result<Vec<Replacement>, Memory> {
    let mut candidates = candidates;
    let count = candidates.len();
    put_differences(alloc, text, new, &mut candidates)?;
    if candidates.len() > count {
        candidates.sort_by_key(|candidate| candidate.start)?;
    }
    Ok(candidates)
}
