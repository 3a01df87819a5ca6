//! Classes of bytes, values of digits, and escapes.
ghost use Rattle.std.specs.Prelude.{◌≡◌, ◌<◌, IfSome};
ghost use Rattle.bc_lex.specs.Bytes.{is_letter as letter, is_name_byte as name_byte, is_space as space, digit_value as value, digit_of, escaped as escape};

/// Whether a name may begin with the byte.
pub fn is_letter(byte: u8) -> bool
    ensures { result ≡ letter byte }
{
    byte.is_ascii_alphabetic()
}

/// Whether the byte may be in a name after its first letter, or in a tag: letters, digits and the dot.
pub fn is_name_byte(byte: u8) -> bool
    ensures { result ≡ name_byte byte }
{
    byte.is_ascii_alphanumeric() || byte == b'.'
}

/// Whether the byte is a blank or a line break: space, tab, CR, FF or LF.
pub fn is_space(byte: u8) -> bool
    ensures { result ≡ space byte }
{
    matches!(byte, b' ' | b'\t' | b'\r' | b'\x0c' | b'\n')
}

/// The value of a digit of any base up to 16, in upper or lower case.
fn digit_value(byte: u8) -> Option<u32>
    ensures { result ≡ value byte }
{
    match byte {
        b'0'..=b'9' => Some((byte - b'0') as u32),
        b'A'..=b'F' => Some((byte - b'A') as u32 + 10),
        b'a'..=b'f' => Some((byte - b'a') as u32 + 10),
        _ => None,
    }
}

/// The value of a digit of this base, or `None` for other bytes.
pub fn digit(base: u32, byte: u8) -> Option<u32>
    ensures value { result ≡ digit_of base byte }
    ensures small { IfSome result (λ n. n < base) }
{
    match digit_value(byte) {
        Some(value) if value < base => Some(value),
        _ => None,
    }
}

/// The byte that `*` and this byte denote in a string or character constant, or `None` if that is no escape.
pub fn escaped(byte: u8) -> Option<u8>
    ensures { result ≡ escape byte }
{
    match byte {
        b'N' | b'n' => Some(10),
        b'T' | b't' => Some(9),
        b'S' | b's' => Some(32),
        b'B' | b'b' => Some(8),
        b'P' | b'p' => Some(12),
        b'C' | b'c' => Some(13),
        b'"' | b'\'' | b'*' => Some(byte),
        _ => None,
    }
}
