//! The numbers that options take: decimal digits, also written with `_`, an exponent or a suffix.

/// The number that this suffix multiplies by: `k`, `M` and `G`, in upper or lower case, or an empty suffix.
fn factor_of(suffix: &str) -> Option<u64> {
    match suffix {
        "" => Some(1),
        "k" | "K" => Some(1_000),
        "m" | "M" => Some(1_000_000),
        "g" | "G" => Some(1_000_000_000),
        _ => None,
    }
}

/// The number written in these decimal digits; `_` may appear after the first one. `None` if it isn't below 2^64.
fn digits(text: &str) -> Option<u64> {
    if text.is_empty() || text.starts_with('_') {
        return None;
    }
    let mut number: u64 = 0;
    for byte in text.bytes() {
        if byte.is_ascii_digit() {
            number = number.checked_mul(10)?.checked_add(u64::from(byte - b'0'))?;
        } else if byte != b'_' {
            return None;
        }
    }
    Some(number)
}

/// `number` times 10 to the power of `exponent`, if that is below 2^64.
fn scaled(number: u64, exponent: u64) -> Option<u64> {
    if number == 0 {
        return Some(0);
    }
    let mut scaled = number;
    for _ in 0..exponent.min(20) {
        scaled = scaled.checked_mul(10)?;
    }
    Some(scaled)
}

/// The number of leading bytes that are digits or `_`.
fn digits_len(text: &str) -> usize {
    text.bytes()
        .position(|byte| !byte.is_ascii_digit() && byte != b'_')
        .unwrap_or(text.len())
}

/// The number that `text` denotes, as in `1000000`, `1_000_000`, `1e6`, `10M` or `2k`. `None` if it is no such number
/// or not below 2^64.
pub fn number_of(text: &str) -> Option<u64> {
    if let Some((number, exponent)) = text.split_once(['e', 'E']) {
        return scaled(digits(number)?, digits(exponent)?);
    }
    let length = digits_len(text);
    let suffix = text.get(length..)?;
    digits(text.get(..length)?)?.checked_mul(factor_of(suffix)?)
}
