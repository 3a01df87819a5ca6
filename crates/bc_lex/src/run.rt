//! Runs of bytes at the start of a slice, and the rest of a slice.
ghost use Rattle.std.specs.Prelude.{◌≡◌, ◌+◌, ◌≤◌, ◌==◌, not, is_some, length, drop};
ghost use Rattle.std.specs.List.{prefix_len};
ghost use Rattle.bc_lex.specs.Bytes.{is_name_byte as name_byte, digit_of};

use crate::byte::{digit, is_name_byte};

/// The number of bytes at the start that may be in a name.
pub fn name_bytes(bytes: &[u8]) -> usize
    ensures value { result ≡ prefix_len name_byte bytes.now }
    ensures within { result ≤ length bytes.now }
{
    bytes.iter().take_while(|byte| is_name_byte(**byte)).count()
}

/// The number of bytes at the start that are digits of this base.
pub fn digits(base: u32, bytes: &[u8]) -> usize
    ensures value { result ≡ prefix_len (λ b. is_some (digit_of base b)) bytes.now }
    ensures within { result ≤ length bytes.now }
{
    bytes
        .iter()
        .take_while(|byte| digit(base, **byte).is_some())
        .count()
}

/// The number of bytes before the first line break, or of all bytes if there is none.
pub fn line_bytes(bytes: &[u8]) -> usize
    ensures value { result ≡ prefix_len (λ b. not (b == 10)) bytes.now }
    ensures within { result ≤ length bytes.now }
{
    bytes.iter().take_while(|byte| **byte != b'\n').count()
}

/// The bytes from index `at` on. Used instead of `&bytes[at..]`, whose contract is harder to use in proofs.
pub fn following(bytes: &[u8], at: usize) -> &[u8]
    requires { at ≤ length bytes.now }
    ensures rest { result.now ≡ drop at bytes.now }
    ensures len { length result.now + at ≡ length bytes.now }
{
    bytes.split_at(at).1
}
