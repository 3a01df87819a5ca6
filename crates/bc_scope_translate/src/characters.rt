//! The bytes that a string literal denotes.
ghost use Rattle.std.specs.Prelude.{◌≡◌, false, IfOk};
ghost use Rattle.bc_scope_defs.specs.Characters.{escaped, characters, decoded};

use bc_word::Memory;
use std::alloc::Global;

/// The byte that an escape denotes, by the letter after `*`. Any other character after `*` denotes itself.
fn escaped(letter: u8) -> u8
    ensures { result ≡ escaped letter }
{
    match letter {
        b'N' | b'n' => 10,
        b'T' | b't' => 9,
        b'S' | b's' => 32,
        b'B' | b'b' => 8,
        b'P' | b'p' => 12,
        b'C' | b'c' => 13,
        _ => letter,
    }
}

/// The bytes denoted up to the closing quote, or up to the end of `text` if it has no quote.
fn characters(alloc: Global, text: &[u8]) -> Result<Vec<u8>, Memory>
    ensures { IfOk result (λ bytes. bytes.items ≡ characters false text.now) }
{
    let mut bytes = Vec::new(alloc);
    let mut escape = false;
    for byte in text {
        if escape {
            bytes.push(escaped(*byte))?;
            escape = false;
        } else if *byte == b'"' {
            return Ok(bytes);
        } else if *byte == b'*' {
            escape = true;
        } else {
            bytes.push(*byte)?;
        }
    }
    Ok(bytes)
}

/// The bytes that a string denotes, from its spelling with the quotes. Bytes after the first 255 are dropped. Fails with `Memory`
/// when an allocation fails.
pub fn decoded(alloc: Global, text: &[u8]) -> Result<Vec<u8>, Memory>
    ensures { IfOk result (λ bytes. bytes.items ≡ decoded text.now) }
{
    let from = text.len().min(1);
    let mut bytes = characters(alloc, &text[from..])?;
    bytes.truncate(255);
    Ok(bytes)
}
