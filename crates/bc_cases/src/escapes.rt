//! Escapes and repetitions in inputs and answers.

use crate::growth::Growth;

/// The value of a hexadecimal digit.
fn digit(byte: u8) -> Option<u8> {
    match byte {
        b'0'..=b'9' => Some(byte - b'0'),
        b'a'..=b'f' => Some(byte - b'a' + 10),
        b'A'..=b'F' => Some(byte - b'A' + 10),
        _ => None,
    }
}

/// The byte with these two hexadecimal digits.
fn byte_of(high: u8, low: u8) -> Option<u8> {
    let high = digit(high)?;
    Some(high.wrapping_mul(16).wrapping_add(digit(low)?))
}

/// The byte that `xHH` at the start of a text means, and the rest of the text.
fn byte_at(part: &[u8]) -> Option<(u8, &[u8])> {
    match part {
        [b'x', high, low, rest @ ..] => Some((byte_of(*high, *low)?, rest)),
        _ => None,
    }
}

/// A text that is repeated, and the rest after it.
#[derive(Clone, Copy)]
struct Repeated<'t> {
    times: u32,
    text: &'t str,
    rest: &'t str,
}

/// The repetition `N{TEXT}` at the start of a text.
fn repeated_at(part: &str) -> Option<Repeated<'_>> {
    let (times, following) = part.split_once('{')?;
    let (text, rest) = following.split_once('}')?;
    Some(Repeated {
        times: times.parse::<u32>().ok()?,
        text,
        rest,
    })
}

/// Appends a byte and the rest.
fn add_byte(growth: &mut Growth, found: &mut Vec<u8>, byte: u8, rest: &[u8]) {
    growth.extend(found, &[byte]);
    growth.extend(found, rest);
}

/// Appends a repeated text and the rest.
fn add_repeated(growth: &mut Growth, found: &mut Vec<u8>, repeated: Repeated<'_>) {
    for _ in 0..repeated.times {
        growth.extend(found, repeated.text.as_bytes());
    }
    growth.extend(found, repeated.rest.as_bytes());
}

/// Appends the text after a `\` that isn't followed by `xHH`.
fn add_other(growth: &mut Growth, found: &mut Vec<u8>, part: &str) {
    match repeated_at(part) {
        Some(repeated) => add_repeated(growth, found, repeated),
        None => add_byte(growth, found, b'\\', part.as_bytes()),
    }
}

/// Appends the text after a `\`.
fn add_escaped(growth: &mut Growth, found: &mut Vec<u8>, part: &str) {
    match byte_at(part.as_bytes()) {
        Some((byte, rest)) => add_byte(growth, found, byte, rest),
        None => add_other(growth, found, part),
    }
}

/// Appends the bytes of a text in which `\xHH` is a byte and `\N{TEXT}` is N times TEXT.
pub fn add_expanded(growth: &mut Growth, found: &mut Vec<u8>, text: &str) {
    let mut is_first = true;
    for part in text.split('\\') {
        if is_first {
            growth.extend(found, part.as_bytes());
        } else {
            add_escaped(growth, found, part);
        }
        is_first = false;
    }
}

/// The bytes of a text in which `\xHH` is a byte and `\N{TEXT}` is N times TEXT.
pub fn expanded(growth: &mut Growth, text: &str) -> Vec<u8> {
    let mut found = Vec::new(growth.alloc());
    add_expanded(growth, &mut found, text);
    found
}
