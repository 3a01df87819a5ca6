//! Bytes of a text: slices, and counts of the leading bytes of a kind.

ghost use Rattle.std.specs.Prelude.{◌≡◌, ◌+◌, ◌≤◌, ◌==◌, ◌||◌, not, length, drop};
ghost use Rattle.std.specs.Char.{is_ascii_digit, is_ascii_hexdigit};
ghost use Rattle.std.specs.List.{prefix_len};
ghost use Rattle.bc_convert.specs.Gaps.{is_space as is_space_of};
ghost use Rattle.bc_convert.specs.Tokens.{is_name, names_of};

/// The bytes from `at` on.
pub fn following(bytes: &[u8], at: usize) -> &[u8]
    requires { at ≤ length bytes.now }
    ensures rest { result.now ≡ drop at bytes.now }
    ensures len { length result.now + at ≡ length bytes.now }
{
    bytes.split_at(at).1
}

/// The bytes from `start` up to `end`; empty if there are no such bytes.
pub fn span(bytes: &[u8], start: usize, end: usize) -> &[u8] {
    if start <= end && end <= bytes.len() {
        &bytes[start..end]
    } else {
        &[]
    }
}

/// Whether a byte may be part of a name or a tag, in any dialect.
pub fn is_name_byte(byte: u8) -> bool
    ensures { result ≡ is_name byte }
{
    byte.is_ascii_alphanumeric() || byte == b'.' || byte == b'_'
}

/// Whether a byte is a blank or a line break.
pub fn is_space(byte: u8) -> bool
    ensures { result ≡ is_space_of byte }
{
    matches!(byte, b' ' | b'\t' | b'\r' | b'\x0c' | b'\n')
}

/// Where a byte is first.
pub fn first(bytes: &[u8], wanted: u8) -> Option<usize> {
    for index in 0..bytes.len() {
        if bytes[index] == wanted {
            return Some(index);
        }
    }
    None
}

/// The number of leading bytes that may be part of a name.
pub fn name_bytes(bytes: &[u8]) -> usize
    ensures value { result ≡ names_of bytes.now }
    ensures within { result ≤ length bytes.now }
{
    bytes.iter().take_while(|byte| is_name_byte(**byte)).count()
}

/// The number of leading digits and underlines.
pub fn digit_bytes(bytes: &[u8]) -> usize
    ensures value { result ≡ prefix_len (λ b. is_ascii_digit b || (b == 95)) bytes.now }
    ensures within { result ≤ length bytes.now }
{
    bytes
        .iter()
        .take_while(|byte| byte.is_ascii_digit() || **byte == b'_')
        .count()
}

/// The number of leading hexadecimal digits and underlines.
pub fn hexadecimal_bytes(bytes: &[u8]) -> usize
    ensures value { result ≡ prefix_len (λ b. is_ascii_hexdigit b || (b == 95)) bytes.now }
    ensures within { result ≤ length bytes.now }
{
    bytes
        .iter()
        .take_while(|byte| byte.is_ascii_hexdigit() || **byte == b'_')
        .count()
}

/// The number of bytes before the first line break, or all.
pub fn line_bytes(bytes: &[u8]) -> usize
    ensures value { result ≡ prefix_len (λ b. not (b == 10)) bytes.now }
    ensures within { result ≤ length bytes.now }
{
    bytes.iter().take_while(|byte| **byte != b'\n').count()
}
