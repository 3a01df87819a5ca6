//! Number constants: decimal, `#` octal, `#X` hexadecimal.
ghost use Rattle.std.specs.Prelude.{◌≡◌, ◌<◌, ◌≤◌, ◌+◌, length, IfOk, IfErr};
ghost use Rattle.bc_lex.specs.Reading.{value_from, based_of, number_of};

use crate::byte::digit;
use crate::fault::{Fault, FaultKind};
use crate::run::digits;

/// The value of digits of this base, or `None` if it is over 65,535.
fn value(base: u32, digits: &[u8]) -> Option<u16>
    requires { base ≤ 16 }
    ensures { result ≡ value_from base 0 digits.now }
{
    let mut value: u32 = 0;
    for byte in digits {
        value = value * base + digit(base, *byte).unwrap_or(0);
        if value > 65_535 {
            return None;
        }
    }
    Some(value as u16)
}

/// The number of this base at the start of the bytes, after a prefix of `prefix` bytes, and the number of bytes with the prefix.
/// Fails with `BadCharacter` if there is no digit, or with `NumberTooLarge`.
fn based(base: u32, prefix: usize, bytes: &[u8]) -> Result<(u16, usize), Fault>
    requires base { base ≤ 16 }
    requires prefix { prefix ≤ length bytes.now }
    ensures value { result ≡ based_of base prefix bytes.now }
    ensures within { IfOk result (λ x. x.1 ≤ length bytes.now) }
    ensures fault { IfErr result (λ f. f.at ≤ length bytes.now) }
{
    let count = digits(base, &bytes[prefix..]);
    if count == 0 {
        return Err(Fault::here(FaultKind::BadCharacter));
    }
    match value(base, &bytes[prefix..prefix + count]) {
        Some(value) => Ok((value, prefix + count)),
        None => Err(Fault::here(FaultKind::NumberTooLarge)),
    }
}

/// The number at the start of the bytes, and how many bytes it takes. Fails with `BadCharacter` if `#` or `#X` has no digit, or
/// with `NumberTooLarge`.
pub fn number(bytes: &[u8]) -> Result<(u16, usize), Fault>
    ensures value { result ≡ number_of bytes.now }
    ensures within { IfOk result (λ x. x.1 ≤ length bytes.now) }
    ensures fault { IfErr result (λ f. f.at ≤ length bytes.now) }
{
    match bytes {
        [b'#', b'X', ..] => based(16, 2, bytes),
        [b'#', ..] => based(8, 1, bytes),
        _ => based(10, 0, bytes),
    }
}
