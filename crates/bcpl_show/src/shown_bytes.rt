//! Bytes as printable text.

use std::fmt;

/// Prints bytes: those from 32 to 126 as they are, all others as `\x` and two hexadecimal digits.
#[derive(Drop)]
pub struct ShownBytes<'b>(pub &'b [u8]);

impl fmt::Display for ShownBytes<'_> {
    fn fmt<W: fmt::Write>(&self, f: &mut fmt::Formatter<W>) -> fmt::Result {
        for byte in self.0 {
            write_byte(f, *byte)?;
        }
        Ok(())
    }
}

/// Prints a byte.
fn write_byte<W: fmt::Write>(f: &mut fmt::Formatter<W>, byte: u8) -> fmt::Result {
    if byte >= 32 && byte <= 126 {
        f.write_char(char::from(byte))
    } else {
        write!(f, "\\x{byte:02x}")
    }
}
