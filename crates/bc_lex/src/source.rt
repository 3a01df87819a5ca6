//! Sources, and finding the one that a GET names.
ghost use Rattle.std.specs.Prelude.{◌≡◌, ◌<◌, ◌≤◌, length, IfOk, IfSome};
ghost use Rattle.bc_lex.specs.Reading.{quoted_of};
ghost use Rattle.bc_lex.specs.Files.{files_of, text_of};
ghost use Rattle.bc_lex.specs.Search.{is_closed, same_of, spells_name, source_from};

use crate::quoted::{Quoted, next_quoted};
use crate::run::following;

/// A source text with its name.
#[derive(Clone, Copy, Debug)]
pub struct Source<'s> {
    /// The name by which a GET finds the source.
    pub name: &'s [u8],
    /// The text.
    pub text: &'s [u8],
}

/// The number of bytes of this character's spelling, if it comes next in a string; `None` if something else comes next.
fn same_character(expected: u8, bytes: &[u8]) -> Option<usize>
    ensures value { result ≡ same_of expected bytes.now }
    ensures within { IfSome result (λ n. n ≤ length bytes.now) }
{
    match next_quoted(b'"', bytes) {
        Quoted::Character(byte, count) if byte == expected => Some(count),
        _ => None,
    }
}

/// Whether the closing quote of a string comes next.
fn closes(bytes: &[u8]) -> bool
    ensures { result ≡ is_closed (quoted_of 34 bytes.now) }
{
    matches!(next_quoted(b'"', bytes), Quoted::Closed)
}

/// Whether a string, which begins with its opening quote, spells this name.
#[tactic(auto, unfolding(crate::specs::Search::spells_name))]
fn names(string: &[u8], name: &[u8]) -> bool
    requires { 0 < length string.now }
    ensures { result ≡ spells_name string.now name.now }
{
    let mut at = 1;
    for expected in name {
        match same_character(*expected, following(string, at)) {
            Some(count) => at += count,
            None => return false,
        }
    }
    closes(following(string, at))
}

/// The index of the first source whose name the string spells. `string` begins with its opening quote.
pub fn source_named(sources: &[Source], string: &[u8]) -> Option<usize>
    requires { 0 < length string.now }
    ensures value { result ≡ source_from string.now 0 (files_of sources.now) }
    ensures within { IfSome result (λ i. i < length sources.now) }
{
    for (index, source) in sources.iter().enumerate() {
        if names(string, source.name) {
            return Some(index);
        }
    }
    None
}

/// The text of the source with this index.
pub fn text_at<'s>(sources: &[Source<'s>], index: usize) -> &'s [u8]
    requires { index < length sources.now }
    ensures { result.now ≡ text_of (files_of sources.now) index }
{
    sources[index].text
}
