//! Strings and character constants.
ghost use Rattle.std.specs.Prelude.{◌≡◌, ◌<◌, ◌≤◌, ◌+◌, length, IfOk, IfErr, drop};
ghost use Rattle.bc_lex.specs.Reading.{quoted_of, string_from, string_of, character_of, Fits};

use crate::byte::escaped;
use crate::fault::{Fault, FaultKind};
use crate::run::following;

/// The next item in a string or character constant.
#[derive(Clone, Copy, Debug, PartialEq, Eq)]
pub enum Quoted {
    /// The closing quote.
    Closed,
    /// A line break or the end of the file, or a `*` followed by one of these.
    Cut,
    /// A `*` that begins no escape.
    BadEscape,
    /// A character, by the byte that it denotes and the number of bytes in its spelling.
    Character(u8, usize),
}

/// The item at the start of these bytes, which are inside a string or constant with this closing quote.
pub fn next_quoted(close: u8, bytes: &[u8]) -> Quoted
    ensures value { result ≡ quoted_of close bytes.now }
    ensures fits { Fits bytes.now result }
{
    match bytes {
        [] | [b'\n', ..] => Quoted::Cut,
        [byte, ..] if *byte == close => Quoted::Closed,
        [b'*'] | [b'*', b'\n', ..] => Quoted::Cut,
        [b'*', byte, ..] => match escaped(*byte) {
            Some(character) => Quoted::Character(character, 2),
            None => Quoted::BadEscape,
        },
        [byte, ..] => Quoted::Character(*byte, 1),
    }
}

/// The number of bytes of the string at the start of the bytes, with its quotes. Fails with `Unterminated`, `BadEscape` or
/// `StringTooLong`, whichever comes first.
#[tactic(auto, unfolding(crate::specs::Reading::string_of))]
pub fn string(bytes: &[u8]) -> Result<usize, Fault>
    requires { 0 < length bytes.now }
    ensures value { result ≡ string_of bytes.now }
    ensures within { IfOk result (λ n. (1 ≤ n) × (n ≤ length bytes.now)) }
    ensures fault { IfErr result (λ f. f.at ≤ length bytes.now) }
{
    let mut at = 1;
    // At most 255 characters, and then the closing quote.
    for _ in 0..256usize {
        match next_quoted(b'"', following(bytes, at)) {
            Quoted::Closed => return Ok(at + 1),
            Quoted::Cut => return Err(Fault::here(FaultKind::Unterminated)),
            Quoted::BadEscape => {
                return Err(Fault {
                    kind: FaultKind::BadEscape,
                    at,
                });
            }
            Quoted::Character(_, count) => at += count,
        }
    }
    Err(Fault::here(FaultKind::StringTooLong))
}

/// The byte that the character constant at the start of the bytes denotes, and the number of bytes of the constant. Fails with
/// `Unterminated` or `BadEscape`.
pub fn character(bytes: &[u8]) -> Result<(u16, usize), Fault>
    requires { 0 < length bytes.now }
    ensures value { result ≡ character_of bytes.now }
    ensures within { IfOk result (λ x. x.1 ≤ length bytes.now) }
    ensures fault { IfErr result (λ f. f.at ≤ length bytes.now) }
{
    match next_quoted(b'\'', following(bytes, 1)) {
        Quoted::Closed | Quoted::Cut => Err(Fault::here(FaultKind::Unterminated)),
        Quoted::BadEscape => Err(Fault {
            kind: FaultKind::BadEscape,
            at: 1,
        }),
        Quoted::Character(byte, count) => match following(bytes, 1 + count) {
            [b'\'', ..] => Ok((byte as u16, count + 2)),
            _ => Err(Fault::here(FaultKind::Unterminated)),
        },
    }
}
