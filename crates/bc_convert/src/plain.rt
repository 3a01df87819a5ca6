//! Plain texts, which the lexer reads as they are: they have no line breaks of old systems, no card numbers, and no conditional
//! compilation.

ghost use Rattle.std.specs.Prelude.{◌≡◌};
ghost use Rattle.bc_convert.specs.Plain.{begins_sign as begins_sign_of, has_sign as has_sign_of, has_later_line, has_line, has_return as has_return_of, is_plain as is_plain_of};

use crate::bytes::{following, line_bytes};

/// The number of columns of a card.
const CARD_COLUMNS: usize = 80;

/// Whether the text begins like a sign of conditional compilation.
fn begins_sign(bytes: &[u8]) -> bool
    ensures { result ≡ begins_sign_of bytes.now }
{
    matches!(bytes, [b'$', b'$' | b'<' | b'>' | b'~', ..])
}

/// Whether there is such a sign.
fn has_sign(text: &[u8]) -> bool
    ensures { result ≡ has_sign_of text.now }
{
    for at in 0..text.len() {
        if begins_sign(following(text, at)) {
            return true;
        }
    }
    false
}

/// Whether a line as long as a card comes after a line feed.
fn has_later_card(text: &[u8]) -> bool
    ensures { result ≡ has_later_line 80 text.now }
{
    for at in 0..text.len() {
        if text[at] == b'\n' && line_bytes(following(text, at + 1)) == CARD_COLUMNS {
            return true;
        }
    }
    false
}

/// Whether a line is as long as a card.
fn has_card(text: &[u8]) -> bool
    ensures { result ≡ has_line 80 text.now }
{
    line_bytes(text) == CARD_COLUMNS || has_later_card(text)
}

/// Whether there is a carriage return.
fn has_return(text: &[u8]) -> bool
    ensures { result ≡ has_return_of text.now }
{
    text.contains(&b'\r')
}

/// Whether the lexer reads this text as it is.
pub fn is_plain(text: &[u8]) -> bool
    ensures { result ≡ is_plain_of text.now }
{
    !has_return(text) && !has_card(text) && !has_sign(text)
}
