//! Where a string or character constant ends.

ghost use Rattle.std.specs.Prelude.{◌≡◌, ◌<◌, ◌≤◌, length, drop, Some, None, IfSome, MatchOption};
ghost use Rattle.bc_convert.specs.declared.quotes.Place.TheVariants.{Ordinary};
ghost use Rattle.bc_convert.specs.Tokens.{next_place as next_place_of, closes as closes_of, breaks as breaks_of, after_quote};

use crate::bytes::is_space;

/// What a byte of a constant comes after.
#[derive(Clone, Copy)]
pub enum Place {
    /// Nothing that matters.
    Ordinary,
    /// A `*`.
    Escaped,
    /// A `*` with a line break, and blanks.
    Continued,
}

/// The place of the byte after this one.
fn next_place(place: Place, byte: u8) -> Place
    ensures { result ≡ next_place_of place byte }
{
    match place {
        Place::Ordinary if byte == b'*' => Place::Escaped,
        Place::Escaped if byte == b'\n' || byte == b'\r' => Place::Continued,
        Place::Continued if is_space(byte) => Place::Continued,
        _ => Place::Ordinary,
    }
}

/// Whether a byte closes a constant that began with this quote.
fn closes(quote: u8, place: Place, byte: u8) -> bool
    ensures { result ≡ closes_of quote place byte }
{
    match place {
        Place::Ordinary | Place::Continued => byte == quote,
        Place::Escaped => false,
    }
}

/// Whether a byte is a line break at which a constant ends without its quote.
fn breaks(place: Place, byte: u8) -> bool
    ensures { result ≡ breaks_of place byte }
{
    match place {
        Place::Ordinary => byte == b'\n',
        Place::Escaped | Place::Continued => false,
    }
}

/// The number of bytes up to and including the quote that closes a constant whose opening quote has been read, or `None` if it
/// isn't closed. A constant continues over a line break only after a `*`.
pub fn closing_quote(bytes: &[u8], quote: u8) -> Option<usize>
    ensures within { IfSome result (λ n. n ≤ length bytes.now) }
    ensures rest { MatchOption result (after_quote quote Ordinary bytes.now ≡ None)
        (λ n. after_quote quote Ordinary bytes.now ≡ Some (drop n bytes.now)) }
{
    let mut place = Place::Ordinary;
    for (at, byte) in bytes.iter().enumerate() {
        if closes(quote, place, *byte) {
            return Some(at + 1);
        }
        if breaks(place, *byte) {
            return None;
        }
        place = next_place(place, *byte);
    }
    None
}
