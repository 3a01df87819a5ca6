//! Blanks, line breaks and comments between tokens.
ghost use Rattle.std.specs.Prelude.{◌≡◌, ◌≤◌, length, IfOk, IfErr, IfSome};
ghost use Rattle.bc_lex.specs.Blank.{ends_comment, closing_from, blank_of, gap_of};

use crate::byte::is_space;
use crate::fault::{Fault, FaultKind};
use crate::run::{following, line_bytes};

/// Whether the bytes begin with the end of a block comment.
fn closes(bytes: &[u8]) -> bool
    ensures { result ≡ ends_comment bytes.now }
{
    matches!(bytes, [b'*', b'/', ..])
}

/// The number of bytes up to and including the end of a block comment that has been opened, or `None` if it isn't closed.
fn closing(bytes: &[u8]) -> Option<usize>
    ensures value { result ≡ closing_from 0 bytes.now }
    ensures within { IfSome result (λ n. n ≤ length bytes.now) }
{
    for at in 0..bytes.len() {
        if closes(following(bytes, at)) {
            return Some(at + 2);
        }
    }
    None
}

/// The number of bytes of the blank, line break or comment at the start of the bytes: 0 if there is none, `None` if it is a
/// comment that isn't closed.
fn blank(bytes: &[u8]) -> Option<usize>
    ensures value { result ≡ blank_of bytes.now }
    ensures within { IfSome result (λ n. n ≤ length bytes.now) }
{
    match bytes {
        [b'/', b'/', ..] | [b'|', b'|', ..] => Some(2 + line_bytes(following(bytes, 2))),
        [b'/', b'*', ..] => closing(following(bytes, 2)).map(|count| 2 + count),
        [byte, ..] if is_space(*byte) => Some(1),
        _ => Some(0),
    }
}

/// The number of bytes of blanks, line breaks and comments at the start of the bytes. Fails with `Unterminated` at a comment that
/// isn't closed.
#[tactic(auto, unfolding(crate::specs::Blank::gap_of))]
pub fn gap(bytes: &[u8]) -> Result<usize, Fault>
    ensures value { result ≡ gap_of bytes.now }
    ensures within { IfOk result (λ n. n ≤ length bytes.now) }
    ensures fault { IfErr result (λ f. f.at ≤ length bytes.now) }
{
    let mut at = 0;
    // Each iteration moves on by at least one byte.
    for _ in 0..bytes.len() {
        match blank(following(bytes, at)) {
            Some(0) => return Ok(at),
            Some(count) => at += count,
            None => {
                return Err(Fault {
                    kind: FaultKind::Unterminated,
                    at,
                });
            }
        }
    }
    Ok(at)
}
