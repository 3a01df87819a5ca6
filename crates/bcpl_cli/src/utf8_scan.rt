//! Which bytes of a text end a character that would control a terminal.

use ucd_props::is_bidi_control;

/// A scan over bytes that may be UTF-8: what remains of the character that the bytes up to here begin.
#[derive(Clone, Copy)]
pub struct Utf8Scan {
    /// The bits of the character up to here.
    code: u32,
    /// How many bytes it still has.
    remaining: u8,
    /// The least and the greatest byte that can be the next one.
    least: u8,
    most: u8,
}

/// Whether a terminal obeys this character, or it changes the direction of the text after it. Line feeds and tabs are
/// none.
pub fn is_control(character: char) -> bool {
    let is_layout = character == '\n' || character == '\t';
    character.is_control() && !is_layout || is_bidi_control(character)
}

/// The scan after the first byte of a character of several bytes.
fn begun(code: u8, remaining: u8, least: u8, most: u8) -> Utf8Scan {
    Utf8Scan {
        code: u32::from(code),
        remaining,
        least,
        most,
    }
}

impl Utf8Scan {
    /// A scan that has taken nothing.
    pub fn new() -> Utf8Scan {
        begun(0, 0, 0, 0)
    }

    /// Takes the first byte of a character. Returns whether it is a control character by itself, or one in an encoding
    /// of single bytes.
    fn takes_first(&mut self, byte: u8) -> bool {
        *self = match byte {
            0xC2..=0xDF => begun(byte & 0x1F, 1, 0x80, 0xBF),
            0xE0 => begun(0, 2, 0xA0, 0xBF),
            0xED => begun(0x0D, 2, 0x80, 0x9F),
            0xE1..=0xEF => begun(byte & 0x0F, 2, 0x80, 0xBF),
            0xF0 => begun(0, 3, 0x90, 0xBF),
            0xF1..=0xF3 => begun(byte & 0x07, 3, 0x80, 0xBF),
            0xF4 => begun(4, 3, 0x80, 0x8F),
            _ => Utf8Scan::new(),
        };
        is_control(char::from(byte))
    }

    /// Takes the next byte. Returns whether a control character ends with it.
    pub fn takes_control(&mut self, byte: u8) -> bool {
        if self.remaining == 0 || byte < self.least || byte > self.most {
            return self.takes_first(byte);
        }
        self.code = (self.code << 6) | u32::from(byte & 0x3F);
        self.remaining -= 1;
        self.least = 0x80;
        self.most = 0xBF;
        match char::from_u32(self.code) {
            Some(character) => self.remaining == 0 && is_control(character),
            None => false,
        }
    }
}
