//! Numbers: their values, and how this dialect writes them.

use crate::bytes::following;
use crate::complaint::Fault;
use crate::source::TokenizedText;
use bc_word::Memory;
use std::alloc::Global;

/// The change to a number.
#[derive(Drop)]
pub enum NumberChange {
    /// None.
    Kept,
    /// The number is written in another way.
    Written(String),
    /// This dialect can't express the number.
    Fault(Fault),
}

/// The base of a number, and the number of bytes before its digits.
fn base_of(bytes: &[u8]) -> (u32, usize) {
    match bytes {
        [b'#', b'X' | b'x', ..] => (16, 2),
        [b'#', b'B' | b'b', ..] => (2, 2),
        [b'#', b'O' | b'o', ..] => (8, 2),
        [b'#', ..] => (8, 1),
        _ => (10, 0),
    }
}

/// The value of digits, ignoring underlines. Fails if the value is over 65,535, or if the base lacks one of the
/// digits.
fn value_of_digits(base: u32, digits: &[u8]) -> Result<u32, Fault> {
    let mut value: u32 = 0;
    for byte in digits {
        if *byte == b'_' {
            continue;
        }
        let Some(digit) = char::from(*byte).to_digit(16) else {
            return Err(Fault::BadNumber);
        };
        if digit >= base {
            return Err(Fault::BadNumber);
        }
        value = value.saturating_mul(base).saturating_add(digit);
        if value > 65_535 {
            return Err(Fault::NumberTooLarge);
        }
    }
    Ok(value)
}

/// The value of the number at an index, or its fault.
pub fn value_of_number(source: TokenizedText<'_>, index: usize) -> Result<u32, Fault> {
    let bytes = source.bytes(index);
    let (base, front) = base_of(bytes);
    if front >= bytes.len() {
        return Err(Fault::BadNumber);
    }
    value_of_digits(base, following(bytes, front))
}

/// Whether this dialect has the number's spelling.
fn is_plain(bytes: &[u8]) -> bool {
    let has_old_base = matches!(bytes, [b'#', b'x' | b'B' | b'b' | b'O' | b'o', ..]);
    !has_old_base && !bytes.contains(&b'_')
}

/// A number in decimal digits, with a sign if it is negative.
pub fn decimal(alloc: Global, number: i64) -> Result<String, Memory> {
    Ok(format!(in alloc; "{number}")?)
}

/// A number as this dialect writes it in hexadecimal, octal or decimal.
fn written(alloc: Global, base: u32, value: u32) -> Result<String, Memory> {
    match base {
        16 => Ok(format!(in alloc; "#X{value:X}")?),
        8 => Ok(format!(in alloc; "#{value:o}")?),
        _ => decimal(alloc, i64::from(value)),
    }
}

/// The change to the number at an index. A binary number becomes a decimal one, others keep their base.
pub fn number_change(
    alloc: Global,
    source: TokenizedText<'_>,
    index: usize,
) -> Result<NumberChange, Memory> {
    let bytes = source.bytes(index);
    match value_of_number(source, index) {
        Err(Fault::NumberTooLarge) => Ok(NumberChange::Fault(Fault::NumberTooLarge)),
        _ if is_plain(bytes) => Ok(NumberChange::Kept),
        Err(fault) => Ok(NumberChange::Fault(fault)),
        Ok(value) => Ok(NumberChange::Written(written(alloc, base_of(bytes).0, value)?)),
    }
}
