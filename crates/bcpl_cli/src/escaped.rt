//! Text with its control characters shown.

use bc_word::Memory;
use std::alloc::Global;
use std::fmt;
use ucd_props::is_bidi_control;

/// A text whose `Display` shows control characters as `\n`, `\r`, `\t` or `\xHH`, and those that change the direction of
/// text as `\u{HHHH}`, so that a path takes one line and can't control a terminal.
#[derive(Clone, Copy)]
pub struct Escaped<'a>(pub &'a str);

/// Writes a character, or the escape for a control character.
fn write_escaped<W: fmt::Write>(f: &mut fmt::Formatter<W>, character: char) -> fmt::Result {
    match character {
        '\n' => f.write_str("\\n"),
        '\r' => f.write_str("\\r"),
        '\t' => f.write_str("\\t"),
        _ if character.is_control() => {
            let code = u32::from(character);
            write!(f, "\\x{code:02x}")
        }
        _ if is_bidi_control(character) => {
            let code = u32::from(character);
            write!(f, "\\u{{{code:04x}}}")
        }
        _ => f.write_char(character),
    }
}

impl fmt::Display for Escaped<'_> {
    fn fmt<W: fmt::Write>(&self, f: &mut fmt::Formatter<W>) -> fmt::Result {
        for character in self.0.chars() {
            write_escaped(f, character)?;
        }
        Ok(())
    }
}

/// A text whose `Display` shows control characters like `Escaped`, except line feeds and tabs. Bytes that aren't valid UTF-8
/// are taken for Latin-1.
#[derive(Clone, Copy)]
pub struct EscapedText<'a>(pub &'a [u8]);

/// Writes a character of a text, or its escape.
fn write_of_text<W: fmt::Write>(f: &mut fmt::Formatter<W>, character: char) -> fmt::Result {
    match character {
        '\n' | '\t' => f.write_char(character),
        _ => write_escaped(f, character),
    }
}

impl fmt::Display for EscapedText<'_> {
    fn fmt<W: fmt::Write>(&self, f: &mut fmt::Formatter<W>) -> fmt::Result {
        for chunk in self.0.utf8_chunks() {
            for character in chunk.valid().chars() {
                write_of_text(f, character)?;
            }
            for byte in chunk.invalid() {
                write_of_text(f, char::from(*byte))?;
            }
        }
        Ok(())
    }
}

/// A path as messages show it, without control characters. `Memory` if an allocation fails.
pub fn shown_path(alloc: Global, path: &str) -> Result<String, Memory> {
    let path = Escaped(path);
    Ok(format!(in alloc; "{path}")?)
}
