//! Numbers in lines. A text that isn't a number counts as 0, which shows as a wrong answer.

use bc_word::Word;
use std::str::SplitWhitespace;

/// The number that a text is, or 0.
pub fn number(text: &str) -> u64 {
    text.parse::<u64>().unwrap_or(0)
}

/// The number up to 65,535 that a text is, or 0.
pub fn short(text: &str) -> u16 {
    text.parse::<u16>().unwrap_or(0)
}

/// The 16-bit word of a number from -32,768 to 65,535, or 0.
pub fn word(text: &str) -> Word {
    match text.parse::<i16>() {
        Ok(signed) => Word::new(signed.cast_unsigned()),
        Err(_) => Word::new(short(text)),
    }
}

/// The next field of a line, or an empty text.
pub fn next<'t>(words: &mut SplitWhitespace<'t>) -> &'t str {
    words.next().unwrap_or("")
}

/// Adds 1 to a number; the greatest one becomes 0.
pub fn count(number: &mut u64) {
    *number = number.wrapping_add(1);
}
